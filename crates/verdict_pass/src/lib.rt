// One identifier compared.
#![tactic(auto)]

ghost use Rattle.std.specs.Prelude.{◌≡◌};
ghost use Rattle.alignment.specs.Alignments.{settled_alignment};
ghost use Rattle.alignment_stored.specs.code.Stored.{slot, identifier_at};
ghost use Rattle.walk_progress.specs.code.Stored.{stored_domain};
ghost use Rattle.walk_known.specs.code.Kept.{kept_answers};
ghost use Rattle.walk_progress.specs.code.Stops.{reached_in, stored_of};
ghost use Rattle.verdict_cursor.specs.code.Cursor.{is_walked};
ghost use Rattle.verdict_pass.specs.code.Passing.{passed_by, passed_within, passed_at, passed_in};

use policy::Settings;
use walk_progress::{Reach, Stop};

// What comparing makes of an identifier: its walk stops, or it is passed with the number to be stored.
#[derive(Clone, Copy)]
pub enum Passing {
    Stops(Stop),
    Passes(u16),
}

// Whether a walk's identifier is walked, with the number stored of the author's walk: only the two organizational domains
// can say whether it is aligned, and the author's is stored.
fn is_walked<'a>(
    domains: &'a [u8],
    numbers: &'a [u16],
    s: Settings,
    author: u16,
    walk: usize,
) -> bool
    ensures { result ≡ is_walked (settled_alignment s (slot domains.now numbers.now 0) (identifier_at domains.now numbers.now walk)) (stored_domain (slot domains.now numbers.now 0) (stored_of author)) }
{
    let own = alignment_stored::slot(domains, numbers, 0);
    2 <= author && alignment_settle::settle_at(domains, numbers, own, s, walk).is_none()
}

// An identifier whose walk has come so far.
pub fn pass(d: &[u8], w: Reach) -> Passing
    ensures { passed_in d.now result ≡ passed_within (passed_by d.now (reached_in d.now w)) }
{
    match w {
        Reach::Stops(stop) => Passing::Stops(stop),
        _ => Passing::Passes(walk_turn::stored_number(d, w)),
    }
}

// A walk's identifier.
pub fn pass_at<'a>(
    domains: &'a [u8],
    numbers: &'a [u16],
    kept: &'a [u16],
    count: usize,
    s: Settings,
    author: u16,
    walk: usize,
) -> Passing
    ensures { passed_in (slot domains.now numbers.now walk) result ≡ passed_at (kept_answers domains.now count kept.now) s (slot domains.now numbers.now 0) (stored_of author) (identifier_at domains.now numbers.now walk) }
{
    if is_walked(domains, numbers, s, author, walk) {
        let d = alignment_stored::slot(domains, numbers, walk);
        pass(d, walk_reach::reach(domains, kept, count, d))
    } else {
        Passing::Passes(0)
    }
}
