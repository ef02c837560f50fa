// An evaluation that is not opened, a refusal, and the names and domains that one holds.
#![tactic(auto)]

ghost use Rattle.std.specs.Prelude.{◌≡◌, drop};
ghost use Rattle.octets.specs.Octets.{lower};
ghost use Rattle.octets.specs.Lent.{Writes};
ghost use Rattle.octets.specs.Refusing.{refusal};
ghost use Rattle.alignment_stored.specs.code.Stored.{slot};
ghost use Rattle.domain.specs.Domain.{asked_name};
ghost use Rattle.evaluation.specs.code.View.{blank};

use domain::Octet;
use evaluation::{Changed, Evaluation};
use octets::Refusal;
use verdict::Existence;
use verdict_cursor::{KeptRuling, PlaceKind, Position};
use verdict_judgement::Terms;

// An evaluation in which nothing was opened and no name is asked.
pub fn empty() -> Evaluation
    ensures { result ≡ blank }
{
    Evaluation {
        started: false,
        handed: false,
        asked: false,
        domains: [0; 4301],
        numbers: [0; 51],
        terms: Terms {
            existence: Existence::Missing,
            support: false,
            identifiers: 0,
        },
        kept: [0; 408],
        count: 0,
        stored: [0; 17],
        position: Position {
            kind: PlaceKind::OwnName,
            ruling: KeptRuling {
                begin: Octet(0),
                settings: 0,
                policy: 0,
            },
            walk: 0,
            stop: walk_stop::no_stop(),
        },
    }
}

// A refusal, with its number and place.
pub fn refuse(number: u8, place: usize) -> Refusal
    ensures { result ≡ refusal number place }
{
    Refusal { number, place }
}

// An evaluation that was refused something, as it was.
pub fn refused(e: Evaluation, number: u8, place: usize) -> Changed
    ensures { result ≡ record { evaluation = e; acceptance = Err (refusal number place) } }
{
    Changed {
        evaluation: e,
        acceptance: Err(refuse(number, place)),
    }
}

// The name that a walk and a place mark among stored domains, into the front of lent memory.
pub fn write_name<'a>(
    domains: &'a [u8],
    numbers: &'a [u16],
    walk: usize,
    place: Octet,
    out: &mut [u8],
) -> Result<usize, Refusal>
    ensures { Writes (asked_name (drop place.0 (slot domains.now numbers.now walk))) out.old result out.new }
{
    let d = alignment_stored::slot(domains, numbers, walk);
    domain_names::write_name(d, place, out)
}

// The domain that a walk and a place mark among stored domains, into the front of lent memory.
pub fn write_domain<'a>(
    domains: &'a [u8],
    numbers: &'a [u16],
    walk: usize,
    place: Octet,
    out: &mut [u8],
) -> Result<usize, Refusal>
    ensures { Writes (lower (drop place.0 (slot domains.now numbers.now walk))) out.old result out.new }
{
    let whole = alignment_stored::slot(domains, numbers, walk);
    octets_write::write_lower(text_parts::part(whole, place.0, whole.len()), out)
}
