// Each place where a check stands as plain numbers, and such a place read.
#![tactic(auto)]

ghost use Rattle.std.specs.Prelude.{◌≡◌, ◌||◌, not, ltb};
ghost use Rattle.address.specs.Checks.{Pair};
ghost use Rattle.walk_stop.specs.code.KeptStops.{stop_in};
ghost use Rattle.address_check.specs.code.Cursor.{on_confirming, settled, stands, is_walk};
ghost use Rattle.address_check.specs.code.View.{point_kind_in, cursor_in};
ghost use Rattle.address_point.specs.code.Ahead.{ahead_standing, ahead_walks};

use address::Agreement;
use address_check::{CheckPoint, MOST_REPLIES, PointKind};
use domain::Octet;
use policy::Bounds;
use walk_progress::Stop;

// The numbers of the two walks.
pub const POLICY: u8 = 0;

pub const HOST: u8 = 1;

// What comes next: a name to ask, given by its walk and place, or the outcome.
#[derive(Clone, Copy)]
pub enum CheckAhead {
    Name { walk: usize, place: Octet },
    Outcome(Agreement),
}

// The kind of a place.
pub fn read_kind(n: u8) -> PointKind
    ensures { result ≡ point_kind_in n }
{
    match n {
        0 => PointKind::Policy,
        1 => PointKind::Host,
        2 => PointKind::Confirming,
        3 => PointKind::PlainNo,
        4 => PointKind::Inside,
        5 => PointKind::Confirmed,
        6 => PointKind::Replaced,
        _ => PointKind::NotKnown,
    }
}

// The number of a kind.
fn number_kind(kind: PointKind) -> u8
    ensures { point_kind_in result ≡ kind }
{
    match kind {
        PointKind::Policy => POLICY,
        PointKind::Host => HOST,
        PointKind::Confirming => 2,
        PointKind::PlainNo => 3,
        PointKind::Inside => 4,
        PointKind::Confirmed => 5,
        PointKind::Replaced => 6,
        PointKind::NotKnown => 7,
    }
}

// A place on no walk.
fn at(kind: PointKind, instead: Bounds) -> CheckPoint
    ensures { (point_kind_in result.kind ≡ kind) × (result.instead ≡ instead) }
{
    CheckPoint {
        kind: number_kind(kind),
        organization: Octet(0),
        stop: walk_stop::no_stop(),
        instead,
    }
}

// A place on a walk, of any number: it is promised of each, so it is no `PointKind`.
pub fn on(kind: u8, organization: Octet, s: Stop) -> CheckPoint
    ensures { (result.kind ≡ kind) × (result.organization ≡ organization) × (stop_in result.stop ≡ s) }
{
    CheckPoint {
        kind,
        organization,
        stop: walk_stop::keep_stop(s),
        instead: Bounds {
            begin: 0,
            length: 0,
        },
    }
}

// At the confirming name.
pub fn confirming() -> CheckPoint
    ensures { (c : Pair) → cursor_in c result ≡ on_confirming }
{
    at(
        PointKind::Confirming,
        Bounds {
            begin: 0,
            length: 0,
        },
    )
}

// At an outcome.
pub fn settle(a: Agreement) -> CheckPoint
    ensures { (c : Pair) → cursor_in c result ≡ settled a }
{
    let nowhere = Bounds {
        begin: 0,
        length: 0,
    };
    match a {
        Agreement::NotKnown => at(PointKind::NotKnown, nowhere),
        Agreement::PlainNo => at(PointKind::PlainNo, nowhere),
        Agreement::Inside => at(PointKind::Inside, nowhere),
        Agreement::Confirmed => at(PointKind::Confirmed, nowhere),
        Agreement::Replaced(bounds) => at(PointKind::Replaced, bounds),
    }
}

// What comes next at a place.
pub fn look(p: CheckPoint) -> CheckAhead
    ensures { (c : Pair) → (ahead_standing c result ≡ stands c (cursor_in c p)) × (ahead_walks result ≡ is_walk (cursor_in c p)) }
{
    let begin = p.stop.target.begin;
    match read_kind(p.kind) {
        PointKind::Policy => CheckAhead::Name {
            walk: 0,
            place: begin,
        },
        PointKind::Host => CheckAhead::Name {
            walk: 1,
            place: begin,
        },
        PointKind::Confirming => CheckAhead::Name {
            walk: 2,
            place: Octet(0),
        },
        PointKind::PlainNo => CheckAhead::Outcome(Agreement::PlainNo),
        PointKind::Inside => CheckAhead::Outcome(Agreement::Inside),
        PointKind::Confirmed => CheckAhead::Outcome(Agreement::Confirmed),
        PointKind::Replaced => CheckAhead::Outcome(Agreement::Replaced(p.instead)),
        PointKind::NotKnown => CheckAhead::Outcome(Agreement::NotKnown),
    }
}

// Whether there is room for an answer where a check stands: the confirming name's is not kept.
pub fn has_room(p: CheckPoint, count: usize) -> bool
    ensures { (c : Pair) → result ≡ (not (is_walk (cursor_in c p)) || ltb count 16) }
{
    match look(p) {
        CheckAhead::Outcome(_) => true,
        CheckAhead::Name { walk, place: _ } => {
            // Two tests: `||` was tried, and the library for C then needs memmove from outside.
            if 1 < walk {
                return true;
            }
            count < MOST_REPLIES
        }
    }
}
