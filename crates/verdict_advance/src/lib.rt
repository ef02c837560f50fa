// An evaluation from its beginning, and from where it stands with the answer that it waited for.
#![tactic(auto)]

ghost use Rattle.walk_known.specs.code.Kept.{kept_answers};
ghost use Rattle.verdict_cursor.specs.code.Standing.{Begins, Moves};
ghost use Rattle.verdict_cursor.specs.code.Positions.{place_in};

use domain::Octet;
use txt::Reply;
use verdict_cursor::{Place, Position, Ruling};
use verdict_judgement::Terms;
use walk_progress::Stop;

// Where an evaluation stands at first.
pub fn begin<'a>(
    domains: &'a [u8],
    numbers: &'a [u16],
    kept: &'a [u16],
    count: usize,
    t: Terms,
    stored: &mut [u16; 17],
) -> Position
    ensures { Begins domains.now numbers.now t (kept_answers domains.now count kept.now) stored.old stored.new (place_in result) }
{
    let author = alignment_stored::slot(domains, numbers, 0);
    match walk_known::look_at(domains, kept, count, author, Octet(0)) {
        None => verdict_place::own_name(),
        Some(r) => verdict_own::own(domains, numbers, kept, count, t, r, stored),
    }
}

// An evaluation on an identifier's walk, with the reply. It stays where no identifier has that walk.
fn advance_identifier<'a>(
    domains: &'a [u8],
    numbers: &'a [u16],
    kept: &'a [u16],
    count: usize,
    t: Terms,
    ruling: Ruling,
    walk: usize,
    stop: Stop,
    r: Reply,
    stored: &mut [u16; 17],
) -> Position
    ensures { Moves domains.now numbers.now t (kept_answers domains.now count kept.now) stored.old (Place.Identifier ruling walk stop) r stored.new (place_in result) }
{
    if walk < 1 || t.identifiers.min(16) < walk {
        return verdict_place::identifier(ruling, walk, stop);
    }
    let d = alignment_stored::slot(domains, numbers, walk);
    let w = walk_reach::reach_after(domains, kept, count, d, stop, r);
    verdict_compare::compare_after(domains, numbers, kept, count, t, ruling, walk, w, stored)
}

// An evaluation with the reply that it waited for, which is among the answers kept.
pub fn advance<'a>(
    domains: &'a [u8],
    numbers: &'a [u16],
    kept: &'a [u16],
    count: usize,
    t: Terms,
    from: Position,
    r: Reply,
    stored: &mut [u16; 17],
) -> Position
    ensures { Moves domains.now numbers.now t (kept_answers domains.now count kept.now) stored.old (place_in from) r stored.new (place_in result) }
{
    let author = alignment_stored::slot(domains, numbers, 0);
    match verdict_place::read(from) {
        Place::OwnName => verdict_own::own(domains, numbers, kept, count, t, r, stored),
        Place::Author(stop) => {
            let w = walk_reach::reach_after(domains, kept, count, author, stop, r);
            verdict_found::found(domains, numbers, kept, count, t, w, stored)
        }
        Place::Completing { ruling, stop } => {
            let w = walk_reach::reach_after(domains, kept, count, author, stop, r);
            verdict_found::complete(domains, numbers, kept, count, t, ruling, w, stored)
        }
        Place::Identifier { ruling, walk, stop } => {
            advance_identifier(
                domains, numbers, kept, count, t, ruling, walk, stop, r, stored,
            )
        }
        _ => from,
    }
}
