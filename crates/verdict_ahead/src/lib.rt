// What is ahead of an evaluation, by where it stands.
#![tactic(auto)]

ghost use Rattle.std.specs.Prelude.{◌≡◌, ◌&&◌, min, leb};
ghost use Rattle.verdict_cursor.specs.code.Positions.{place_in};
ghost use Rattle.verdict_ahead.specs.code.Waits.{Looks, Waits};

use domain::Octet;
use policy::Policy;
use verdict::{AppliedPolicy, Result};
use verdict_cursor::{Place, Position, Ruling};
use verdict_judgement::Terms;

// What is ahead of an evaluation: a target without an answer, by its walk and place; the verdict that judges no identifier;
// or the one by the alignments.
#[derive(Clone, Copy)]
pub enum Ahead {
    Target {
        walk: usize,
        place: Octet,
    },
    Unjudged {
        begin: Octet,
        result: Result,
        policy: AppliedPolicy,
    },
    Aligning(Ruling),
}

// A target: its walk, and where it begins in that walk's domain.
#[derive(Clone, Copy)]
pub struct Asked {
    pub walk: usize,
    pub place: Octet,
}

// Whether a walk is that of an identifier.
fn is_given(t: Terms, walk: usize) -> bool
    ensures { result ≡ (leb 1 walk && leb walk (min t.identifiers 16)) }
{
    1 <= walk && walk <= t.identifiers.min(16)
}

// The verdict that judges no identifier, with policy none.
fn look_unjudged(begin: Octet, res: Result) -> Ahead
    ensures { result ≡ Ahead.Unjudged begin res (AppliedPolicy.Known Policy.None) }
{
    Ahead::Unjudged {
        begin,
        result: res,
        policy: AppliedPolicy::Known(Policy::None),
    }
}

// What is ahead of an evaluation, by its place. Octet 253 is no domain's, so it marks the end of any.
fn look_from(t: Terms, p: Place) -> Ahead
    ensures { Looks t p result }
{
    match p {
        Place::OwnName => Ahead::Target {
            walk: 0,
            place: Octet(0),
        },
        Place::Author(stop) => Ahead::Target {
            walk: 0,
            place: stop.target.begin,
        },
        Place::Completing { stop, .. } => Ahead::Target {
            walk: 0,
            place: stop.target.begin,
        },
        Place::Identifier { ruling, walk, stop } => {
            if is_given(t, walk) {
                Ahead::Target {
                    walk,
                    place: stop.target.begin,
                }
            } else {
                Ahead::Aligning(ruling)
            }
        }
        Place::NotKnown => Ahead::Unjudged {
            begin: Octet(253),
            result: Result::Temperror,
            policy: AppliedPolicy::Unknown,
        },
        Place::NoRecord => look_unjudged(Octet(253), Result::None),
        Place::NotUsable(begin) => look_unjudged(begin, Result::Permerror),
        Place::Judged(ruling) => Ahead::Aligning(ruling),
    }
}

// What is ahead of an evaluation, by its place as it is kept.
pub fn look_ahead(t: Terms, at: Position) -> Ahead
    ensures { Looks t (place_in at) result }
{
    look_from(t, verdict_place::read(at))
}

// The target whose answer an evaluation waits for, if it waits for one.
pub fn find_target(t: Terms, at: Position) -> Option<Asked>
    ensures { Waits t (place_in at) result }
{
    match look_ahead(t, at) {
        Ahead::Target { walk, place } => Some(Asked { walk, place }),
        Ahead::Unjudged { .. } => None,
        Ahead::Aligning(_) => None,
    }
}
