// The identifiers compared, in the given order.
#![tactic(auto)]

ghost use Rattle.std.specs.Prelude.{◌≡◌, ◌+◌, ◌<◌, min, length, set};
ghost use Rattle.walk_known.specs.code.Kept.{kept_answers};
ghost use Rattle.verdict_cursor.specs.code.Standing.{given_count, ComparesFrom};
ghost use Rattle.verdict_cursor.specs.code.Positions.{place_in};
ghost use Rattle.verdict_compare.specs.code.Comparing.{ComparesWalk};

use verdict_cursor::{Position, Ruling};
use verdict_judgement::Terms;
use verdict_pass::Passing;
use walk_progress::Reach;

// The number of a walk, stored.
fn store(stored: &mut [u16], walk: usize, number: u16)
    requires { walk < length stored.old }
    ensures { stored.new ≡ set stored.old walk number }
{
    stored[walk] = number;
}

// The identifiers after those of so many walks.
pub fn compare<'a>(
    domains: &'a [u8],
    numbers: &'a [u16],
    kept: &'a [u16],
    count: usize,
    t: Terms,
    ruling: Ruling,
    passed: usize,
    stored: &mut [u16; 17],
) -> Position
    ensures { ComparesFrom domains.now numbers.now t (kept_answers domains.now count kept.now) stored.old ruling (min passed (given_count domains.now numbers.now t) + 1) stored.new (place_in result) }
{
    let s = ruling.settings;
    let author = stored[0];
    let last = t.identifiers.min(16);
    for walk in passed.min(last) + 1..last + 1 {
        match verdict_pass::pass_at(domains, numbers, kept, count, s, author, walk) {
            Passing::Stops(stop) => {
                return verdict_place::identifier(ruling, walk, stop);
            }
            Passing::Passes(number) => {
                store(stored, walk, number);
            }
        }
    }
    verdict_place::judged(ruling)
}

// The identifiers from a walk's on, whose own has come so far. Where no identifier has that walk, nothing is compared.
pub fn compare_after<'a>(
    domains: &'a [u8],
    numbers: &'a [u16],
    kept: &'a [u16],
    count: usize,
    t: Terms,
    ruling: Ruling,
    walk: usize,
    w: Reach,
    stored: &mut [u16; 17],
) -> Position
    ensures { ComparesWalk domains.now numbers.now t (kept_answers domains.now count kept.now) stored.old ruling walk w stored.new (place_in result) }
{
    if walk < 1 || t.identifiers.min(16) < walk {
        return verdict_place::judged(ruling);
    }
    match verdict_pass::pass(alignment_stored::slot(domains, numbers, walk), w) {
        Passing::Stops(stop) => verdict_place::identifier(ruling, walk, stop),
        Passing::Passes(number) => {
            store(stored, walk, number);
            compare(domains, numbers, kept, count, t, ruling, walk, stored)
        }
    }
}
