// The alignment of each identifier by what is stored, as digits, and what holds of any.
#![tactic(auto, unfolding(alignment::specs::Alignments::is_aligned, alignment::specs::Alignments::is_unknown, alignment::specs::Alignments::is_temporary, alignment_settle::specs::code::Tallies::alignment_code, alignment_settle::specs::code::Tallies::tally_with))]

ghost use Rattle.std.specs.Prelude.{◌≡◌, map, ◌<◌, get_or};
ghost use Rattle.walk_progress.specs.code.Stored.{stored_domain};
ghost use Rattle.walk_progress.specs.code.Stops.{stored_of};
ghost use Rattle.alignment_stored.specs.code.Stored.{slot, identifier_at};
ghost use Rattle.alignment_settle.specs.code.Tallies.{alignment_code, tally_with, tally_of};
ghost use Rattle.verdict_cursor.specs.code.Cursor.{read_by, read_alignment};
ghost use Rattle.verdict_cursor.specs.code.Standing.{stored_at, passed_from, given_count};

use alignment::{Alignment, Outcome};
use alignment_settle::Tally;
use policy::Settings;
use verdict_judgement::Terms;

// The number stored of a walk, 0 where there is none.
fn number_of(stored: &[u16], walk: usize) -> usize
    ensures { result ≡ get_or stored.now walk 0 }
{
    usize::from(stored.get(walk).copied().unwrap_or(0))
}

// The alignment of an identifier that must be walked, by the numbers stored of the author's walk and of its own.
fn compare<'a>(author: &'a [u8], first: usize, d: &'a [u8], own: usize) -> Alignment
    ensures { result ≡ read_by None (stored_domain author.now (stored_of first)) (stored_domain d.now (stored_of own)) }
{
    if first.min(own) < 2 {
        return Alignment::Unknown;
    }
    let organization = text_parts::skip(author, first - 2);
    if text_parts::same_octets(text_parts::skip(d, own - 2), organization) {
        Alignment::Aligned
    } else {
        Alignment::NotAligned
    }
}

// The alignment of a walk's identifier, by what is stored.
fn align_at<'a>(
    domains: &'a [u8],
    numbers: &'a [u16],
    stored: &'a [u16],
    s: Settings,
    walk: usize,
) -> Alignment
    ensures { result ≡ read_alignment s (slot domains.now numbers.now 0) (stored_at stored.now 0) (identifier_at domains.now numbers.now walk, stored_at stored.now walk) }
{
    let author = alignment_stored::slot(domains, numbers, 0);
    match alignment_settle::settle_at(domains, numbers, author, s, walk) {
        Some(a) => a,
        None => {
            let first = number_of(stored, 0);
            let d = alignment_stored::slot(domains, numbers, walk);
            compare(author, first, d, number_of(stored, walk))
        }
    }
}

// An alignment as a digit.
fn encode_alignment(a: Alignment) -> usize
    ensures { (result ≡ alignment_code a) × (result < 4) }
{
    match a {
        Alignment::NotJudged => 0,
        Alignment::Aligned => 1,
        Alignment::NotAligned => 2,
        Alignment::Unknown => 3,
    }
}

// A tally with one identifier more in front.
fn tally_with(o: Outcome, a: Alignment, t: Tally) -> Tally
    requires { t.digits < 4294967296 }
    ensures { result ≡ tally_with o a t }
{
    Tally {
        digits: encode_alignment(a) + 4 * t.digits,
        aligned: matches!(a, Alignment::Aligned) || t.aligned,
        unknown: matches!(a, Alignment::Unknown) || t.unknown,
        temporary: matches!(o, Outcome::TemporaryError) || t.temporary,
    }
}

// The alignments of a message's identifiers, from the last to the first.
pub fn tally<'a>(
    domains: &'a [u8],
    numbers: &'a [u16],
    stored: &'a [u16],
    t: Terms,
    s: Settings,
) -> Tally
    ensures { result ≡ tally_of (map (λ w. (w.0, read_alignment s (slot domains.now numbers.now 0) (stored_at stored.now 0) w)) (passed_from domains.now numbers.now stored.now 1 (given_count domains.now numbers.now t))) }
{
    let mut all = Tally {
        digits: 0,
        aligned: false,
        unknown: false,
        temporary: false,
    };
    for walk in (1..=t.identifiers.min(16)).rev() {
        let a = align_at(domains, numbers, stored, s, walk);
        all = tally_with(alignment_stored::outcome_at(numbers, walk), a, all);
    }
    all
}
