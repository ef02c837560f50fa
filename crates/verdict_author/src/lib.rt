// The author's walk stored.
#![tactic(auto)]

ghost use Rattle.walk_known.specs.code.Kept.{kept_answers};
ghost use Rattle.walk_progress.specs.code.Stops.{stored_of};
ghost use Rattle.verdict_cursor.specs.code.Standing.{WritesAuthor};
ghost use Rattle.verdict_cursor.specs.code.Positions.{place_in};
ghost use Rattle.verdict_author.specs.code.Author.{StoresAuthor, ComparesAll};

use verdict_cursor::{Position, Ruling};
use verdict_judgement::Terms;
use walk_progress::Reach;

// The number of the author's walk written.
pub fn put_number(number: u16, stored: &mut [u16; 17])
    ensures { WritesAuthor stored.old stored.new (stored_of number) }
{
    stored[0] = number;
}

// The author's walk stored, as far as it has gone.
pub fn store<'a>(domains: &'a [u8], numbers: &'a [u16], w: Reach, stored: &mut [u16; 17])
    ensures { StoresAuthor domains.now numbers.now w stored.old stored.new }
{
    let author = alignment_stored::slot(domains, numbers, 0);
    put_number(walk_turn::stored_number(author, w), stored);
}

// The author's walk stored, and then all identifiers compared.
pub fn compare_all<'a>(
    domains: &'a [u8],
    numbers: &'a [u16],
    kept: &'a [u16],
    count: usize,
    t: Terms,
    ruling: Ruling,
    w: Reach,
    stored: &mut [u16; 17],
) -> Position
    ensures { ComparesAll domains.now numbers.now t (kept_answers domains.now count kept.now) ruling w stored.old stored.new (place_in result) }
{
    store(domains, numbers, w, stored);
    verdict_compare::compare(domains, numbers, kept, count, t, ruling, 0, stored)
}
