// The name that an answer is for.
#![tactic(auto)]

ghost use Rattle.std.specs.Prelude.{◌≡◌, List, ◌&&◌, ℕ, ltb};
ghost use Rattle.verdict_judgement.specs.code.Judging.{stored_message};
ghost use Rattle.verdict_cursor.specs.code.Cursor.{stands, needed};
ghost use Rattle.verdict_cursor.specs.code.Standing.{cursor_in};
ghost use Rattle.verdict_cursor.specs.code.Positions.{place_in};
ghost use Rattle.verdict_ahead.specs.code.Waits.{waiting_name};
ghost use Rattle.evaluation_keep.specs.code.Asking.{answered};

use verdict_ahead::Asked;
use verdict_cursor::Position;
use verdict_judgement::Terms;

// The most names that one message can need: eight for each walk.
const MOST_NAMES: usize = 136;

// Whether an answer is waited for, and there is room for it.
pub fn is_live(started: bool, handed: bool, asked: bool, count: usize) -> bool
    ensures { result ≡ (started && (handed && (asked && ltb count 136))) }
{
    started && handed && asked && count < MOST_NAMES
}

// The target that an answer given by this name, with a final dot or without, is for; none where it is for none.
pub fn find_asked<'a>(
    domains: &'a [u8],
    numbers: &'a [u16],
    t: Terms,
    at: Position,
    live: bool,
    name: &'a [u8],
) -> Option<Asked>
    ensures { (stored : List ℕ) → waiting_name domains.now numbers.now result ≡ answered live name.now (needed (stands (stored_message domains.now numbers.now t) (cursor_in domains.now numbers.now t stored (place_in at)))) }
{
    if !live {
        return None;
    }
    match verdict_ahead::find_target(t, at) {
        None => None,
        Some(asked) => {
            let d = alignment_stored::slot(domains, numbers, asked.walk);
            let given = domain_taken::without_dot(name);
            if domain_names::is_name(given, d, asked.place) {
                Some(asked)
            } else {
                None
            }
        }
    }
}
