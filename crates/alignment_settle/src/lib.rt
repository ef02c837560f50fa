// What is settled of an identifier without a walk, and whether one needs a walk.
#![tactic(auto)]

ghost use Rattle.std.specs.Prelude.{◌≡◌, min};
ghost use Rattle.octets.specs.Octets.{any};
ghost use Rattle.alignment.specs.Alignments.{mode_of, settled, settled_alignment, must_walk};
ghost use Rattle.alignment_stored.specs.code.Stored.{identifier_at, stored_identifiers};

use alignment::{Alignment, Kind, Outcome};
use policy::{Mode, Settings};

// The alignments of identifiers as digits to base 4, the first one lowest, and what the result is made from.
#[derive(Clone, Copy)]
pub struct Tally {
    pub digits: usize,
    pub aligned: bool,
    pub unknown: bool,
    pub temporary: bool,
}

// The mode in which an identifier of a kind is compared.
fn mode_of(s: Settings, k: Kind) -> Mode
    ensures { result ≡ mode_of s k }
{
    match k {
        Kind::Spf => s.aspf,
        Kind::Dkim => s.adkim,
    }
}

// What needs no walk, of an identifier that passed.
fn settle_passing(equal: bool, m: Mode) -> Option<Alignment>
    ensures { result ≡ settled Outcome.Pass equal m }
{
    match m {
        _ if equal => Some(Alignment::Aligned),
        Mode::Strict => Some(Alignment::NotAligned),
        Mode::Relaxed => None,
    }
}

// What needs no walk.
fn settle(o: Outcome, equal: bool, m: Mode) -> Option<Alignment>
    ensures { result ≡ settled o equal m }
{
    match o {
        Outcome::NotPassing | Outcome::TemporaryError => Some(Alignment::NotAligned),
        Outcome::Pass => settle_passing(equal, m),
    }
}

// What is settled of a walk's identifier.
pub fn settle_at<'a>(
    domains: &'a [u8],
    numbers: &'a [u16],
    author: &'a [u8],
    s: Settings,
    walk: usize,
) -> Option<Alignment>
    ensures { result ≡ settled_alignment s author.now (identifier_at domains.now numbers.now walk) }
{
    let equal = text_parts::same_octets(alignment_stored::slot(domains, numbers, walk), author);
    settle(
        alignment_stored::outcome_at(numbers, walk),
        equal,
        mode_of(s, alignment_stored::kind_at(numbers, walk)),
    )
}

// Whether a walk's identifier must be walked.
fn must_walk<'a>(
    domains: &'a [u8],
    numbers: &'a [u16],
    author: &'a [u8],
    s: Settings,
    walk: usize,
) -> bool
    ensures { result ≡ must_walk s author.now (identifier_at domains.now numbers.now walk) }
{
    settle_at(domains, numbers, author, s, walk).is_none()
}

// Whether any of so many identifiers must be walked.
pub fn any_must_walk<'a>(
    domains: &'a [u8],
    numbers: &'a [u16],
    author: &'a [u8],
    s: Settings,
    count: usize,
) -> bool
    ensures { result ≡ any (must_walk s author.now) (stored_identifiers domains.now numbers.now 1 (min count 16)) }
{
    for walk in 1..count.min(16) + 1 {
        if must_walk(domains, numbers, author, s, walk) {
            return true;
        }
    }
    false
}
