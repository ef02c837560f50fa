// What an answer is for: the name that a check waits for.
#![tactic(auto)]

ghost use Rattle.std.specs.Prelude.{◌≡◌, ◌&&◌, ◌||◌, not, ltb};
ghost use Rattle.octets.specs.Octets.{is_set};
ghost use Rattle.alignment_stored.specs.code.Stored.{slot};
ghost use Rattle.address.specs.Checks.{Pair};
ghost use Rattle.address_check.specs.code.Pairs.{both};
ghost use Rattle.address_check.specs.code.Cursor.{is_walk};
ghost use Rattle.address_check.specs.code.View.{cursor_in};
ghost use Rattle.address_asked.specs.code.Asked.{Waits};

use address_check::CheckPoint;
use address_point::CheckAhead;
use domain::Octet;

// No name, the target of a walk, or the confirming name.
#[derive(Clone, Copy)]
pub enum WaitedFor {
    Nothing,
    Walk { walk: usize, place: Octet },
    Confirming,
}

// Whether an answer is waited for, and there is room for it.
pub fn is_live(started: u8, asked: u8, count: usize, p: CheckPoint) -> bool
    ensures { (c : Pair) → result ≡ (is_set started && (is_set asked && (not (is_walk (cursor_in c p)) || ltb count 16))) }
{
    if started == 0 || asked == 0 {
        return false;
    }
    address_point::has_room(p, count)
}

// What an answer is for that is given by this name.
pub fn find_asked<'a>(
    domains: &'a [u8],
    numbers: &'a [u16],
    p: CheckPoint,
    live: bool,
    name: &'a [u8],
) -> WaitedFor
    ensures { Waits (both (slot domains.now numbers.now 0) (slot domains.now numbers.now 1)) p live name.now result }
{
    if !live {
        return WaitedFor::Nothing;
    }
    match address_point::look(p) {
        CheckAhead::Outcome(_) => WaitedFor::Nothing,
        CheckAhead::Name { walk, place } => {
            let policy = alignment_stored::slot(domains, numbers, 0);
            let host = alignment_stored::slot(domains, numbers, 1);
            if !address_names::is_marked(name, policy, host, walk, place) {
                WaitedFor::Nothing
            } else if 1 < walk {
                WaitedFor::Confirming
            } else {
                WaitedFor::Walk { walk, place }
            }
        }
    }
}
