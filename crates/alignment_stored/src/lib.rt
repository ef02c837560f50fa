// Identifiers as they are stored.
#![tactic(auto)]

ghost use Rattle.std.specs.Prelude.{◌≡◌, ◌≤◌};
ghost use Rattle.alignment_stored.specs.code.Stored.{number_at, slot, kind_at, outcome_at};

use alignment::{Kind, Outcome};

// A stored number of a walk, 0 where there is none.
fn number_at(numbers: &[u16], from: usize, walk: usize) -> usize
    requires { from ≤ 34 }
    ensures { result ≡ number_at numbers.now from walk }
{
    if walk <= 16 && from + walk < numbers.len() {
        usize::from(numbers[from + walk])
    } else {
        0
    }
}

// The domain that a walk starts from.
pub fn slot<'a>(domains: &'a [u8], numbers: &'a [u16], walk: usize) -> &'a [u8]
    ensures { result.now ≡ slot domains.now numbers.now walk }
{
    if walk <= 16 {
        let size = number_at(numbers, 0, walk).min(253);
        text_parts::part(domains, 253 * walk, 253 * walk + size)
    } else {
        &[]
    }
}

// The kind of a walk's identifier.
pub fn kind_at(numbers: &[u16], walk: usize) -> Kind
    ensures { result ≡ kind_at numbers.now walk }
{
    match number_at(numbers, 17, walk) {
        0 => Kind::Spf,
        _ => Kind::Dkim,
    }
}

// The outcome of a walk's identifier.
pub fn outcome_at(numbers: &[u16], walk: usize) -> Outcome
    ensures { result ≡ outcome_at numbers.now walk }
{
    match number_at(numbers, 34, walk) {
        1 => Outcome::Pass,
        2 => Outcome::TemporaryError,
        _ => Outcome::NotPassing,
    }
}
