// The opening of an evaluation: a message without identifiers.
#![tactic(auto)]

ghost use Rattle.std.specs.Prelude.{◌≡◌, [], ◌≤◌, length, replicate};
ghost use Rattle.octets.specs.Octets.{lower};
ghost use Rattle.book.specs.Start.{opening};
ghost use Rattle.evaluation.specs.Promises.{Changes, opened_view};
ghost use Rattle.evaluation_open.specs.code.Opening.{existence_in, Holds};

use evaluation::{Changed, Evaluation};
use verdict::Existence;
use verdict_judgement::Terms;

// The existence that a number says.
pub fn read_existence(n: u8) -> Existence
    ensures { result ≡ existence_in n }
{
    match n {
        0 => Existence::Missing,
        1 => Existence::Exists,
        _ => Existence::Unknown,
    }
}

// An evaluation that holds a message without identifiers, and nothing more: nothing is stored of its walks.
fn hold(e: Evaluation, author: &[u8], existence: u8, support: bool) -> Evaluation
    requires { length author.now ≤ 253 }
    ensures { Holds result (record { author = lower author.now; existence = existence_in existence; support = support; identifiers = [] }) × (result.stored ≡ replicate 17 0) }
{
    let terms = Terms {
        existence: read_existence(existence),
        support,
        identifiers: 0,
    };
    let mut domains = e.domains;
    octets_append::append_lower(author, 0, &mut domains);
    let mut numbers = e.numbers;
    numbers[0] = author.len() as u16;
    Evaluation {
        started: true,
        handed: false,
        asked: false,
        domains,
        numbers,
        terms,
        stored: [0; 17],
        ..e
    }
}

// Opens an evaluation of a message without identifiers.
pub fn open(e: Evaluation, author: &[u8], existence: u8, support: u8) -> Changed
    ensures { Changes e (opened_view (opening author.now existence support)) result }
{
    let d = domain_taken::without_dot(author);
    match domain_rule::check(d) {
        Err(at) => evaluation_state::refused(e, 1, at.0),
        Ok(_) if 2 < existence || 1 < support => evaluation_state::refused(e, 3, 255),
        Ok(_) => Changed {
            evaluation: hold(e, d, existence, support == 1),
            acceptance: Ok(()),
        },
    }
}
