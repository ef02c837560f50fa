// The adding of one identifier.
#![tactic(auto)]

ghost use Rattle.std.specs.Prelude.{◌≡◌, [], ◌<◌, ◌≤◌, min, length};
ghost use Rattle.octets.specs.Octets.{Octets, any, lower};
ghost use Rattle.alignment_stored.specs.code.Stored.{kind_in, outcome_in, stored_identifiers};
ghost use Rattle.verdict.specs.Message.{Message};
ghost use Rattle.asking.specs.Asking.{given};
ghost use Rattle.book.specs.Start.{is_spf, with_identifier, adding};
ghost use Rattle.book.specs.Book.{add};
ghost use Rattle.evaluation.specs.Promises.{Does};
ghost use Rattle.evaluation.specs.GivenBack.{acceptance_back};
ghost use Rattle.evaluation_open.specs.code.Opening.{Holds, Opens};

use alignment::Kind;
use evaluation::{Changed, Evaluation};
use verdict_judgement::Terms;

// The most identifiers that one message has.
const MOST_IDENTIFIERS: usize = 16;

// Whether one of so many identifiers is SPF's.
fn has_spf(numbers: &[u16], count: usize) -> bool
    ensures { (domains : Octets) → result ≡ any (λ x. is_spf x.kind) (stored_identifiers domains numbers.now 1 (min count 16)) }
{
    for walk in 1..count.min(MOST_IDENTIFIERS) + 1 {
        if let Kind::Spf = alignment_stored::kind_at(numbers, walk) {
            return true;
        }
    }
    false
}

// An evaluation with one identifier more.
fn store(e: Evaluation, kind: u8, outcome: u8, d: &[u8]) -> Evaluation
    requires identifiers_bound { e.terms.identifiers < 16 }
    requires d_len_bound { length d.now ≤ 253 }
    ensures { ((m : Message) → Holds e m → Holds result (with_identifier m (record { kind = kind_in kind; outcome = outcome_in outcome; domain = lower d.now }))) × (result.stored ≡ e.stored) }
{
    let walk = e.terms.identifiers + 1;
    let terms = Terms {
        identifiers: walk,
        ..e.terms
    };
    let mut domains = e.domains;
    octets_append::append_lower(d, 253 * walk, &mut domains);
    let mut numbers = e.numbers;
    numbers[walk] = d.len() as u16;
    numbers[17 + walk] = kind as u16;
    numbers[34 + walk] = outcome as u16;
    // Field by field: `..e` was tried, and an adding then takes half again as long and 4 KiB more of stack.
    let mut after = e;
    after.domains = domains;
    after.numbers = numbers;
    after.terms = terms;
    after
}

// Adds an identifier to an evaluation that holds a message and nothing more.
fn add_to(e: Evaluation, kind: u8, outcome: u8, domain: &[u8]) -> Changed
    ensures { (m : Message) → Holds e m → Opens e e.stored (adding m (record { kind = kind; outcome = outcome; domain = domain.now })) result }
{
    let index = e.terms.identifiers.min(MOST_IDENTIFIERS);
    if 1 < kind || 2 < outcome {
        return evaluation_state::refused(e, 3, index);
    }
    if MOST_IDENTIFIERS <= index {
        return evaluation_state::refused(e, 4, index);
    }
    if kind == 0 && has_spf(&e.numbers, index) {
        return evaluation_state::refused(e, 4, index);
    }
    let d = domain_taken::without_dot(domain);
    if !domain_rule::is_domain(d) {
        return evaluation_state::refused(e, 2, index);
    }
    Changed {
        evaluation: store(e, kind, outcome, d),
        acceptance: Ok(()),
    }
}

// Adds an identifier, until a name was given to ask.
pub fn add(e: Evaluation, kind: u8, outcome: u8, domain: &[u8]) -> Changed
    ensures { Does e (add (record { kind = kind; outcome = outcome; domain = domain.now })) result.evaluation (given (acceptance_back result.acceptance) []) }
{
    if !e.started || e.handed {
        return evaluation_state::refused(e, 17, 0);
    }
    add_to(e, kind, outcome, domain)
}
