// An evaluation as the numbers that are lent to programs in other languages, and back.
#![tactic(auto)]

ghost use Rattle.std.specs.Prelude.{◌≡◌};
ghost use Rattle.evaluation_open.specs.code.Opening.{existence_in};
ghost use Rattle.octets.specs.Octets.{is_set};
ghost use Rattle.evaluation_numbers.specs.Numbers.{place_kind_in, held_of};
ghost use Rattle.evaluation_lent.specs.code.Going.{GoesOn};

use evaluation::Evaluation;
use evaluation_numbers::{Called, GivenNumbers, State};
use verdict::Existence;
use verdict_cursor::{PlaceKind, Position};
use verdict_judgement::Terms;
use walk_stop::KeptStop;

// The number of a flag.
fn flag_number(b: bool) -> u8
    ensures { is_set result ≡ b }
{
    if b {
        return 1;
    }
    0
}

// The number of an existence.
fn existence_number(x: Existence) -> u8
    ensures { existence_in result ≡ x }
{
    match x {
        Existence::Missing => 0,
        Existence::Exists => 1,
        Existence::Unknown => 2,
    }
}

// The number of a kind of place.
fn kind_number(k: PlaceKind) -> u8
    ensures { place_kind_in result ≡ k }
{
    match k {
        PlaceKind::OwnName => 0,
        PlaceKind::Author => 1,
        PlaceKind::Completing => 2,
        PlaceKind::Identifier => 3,
        PlaceKind::NotKnown => 4,
        PlaceKind::NoRecord => 5,
        PlaceKind::NotUsable => 6,
        PlaceKind::Judged => 7,
    }
}

// The kind of place of a number.
fn read_kind(n: u8) -> PlaceKind
    ensures { result ≡ place_kind_in n }
{
    match n {
        0 => PlaceKind::OwnName,
        1 => PlaceKind::Author,
        2 => PlaceKind::Completing,
        3 => PlaceKind::Identifier,
        4 => PlaceKind::NotKnown,
        5 => PlaceKind::NoRecord,
        6 => PlaceKind::NotUsable,
        _ => PlaceKind::Judged,
    }
}

// The place that a state keeps.
fn read_position(s: State) -> Position
    ensures { result ≡ (held_of s).position }
{
    let ruling = s.ruling;
    let begin = s.begin;
    let target = s.target;
    let more = s.more;
    Position {
        kind: read_kind(s.kind),
        ruling,
        walk: s.walk,
        stop: KeptStop {
            found: s.found,
            begin,
            settings: s.settings,
            target,
            more,
        },
    }
}

// The evaluation that a state holds.
pub fn hold(s: State) -> Evaluation
    ensures { result ≡ held_of s }
{
    let domains = s.domains;
    let numbers = s.numbers;
    let kept = s.kept;
    let stored = s.stored;
    Evaluation {
        started: s.started != 0,
        handed: s.handed != 0,
        asked: s.asked != 0,
        domains,
        numbers,
        terms: Terms {
            existence: evaluation_open::read_existence(s.existence),
            support: s.support != 0,
            identifiers: s.identifiers,
        },
        kept,
        count: s.count,
        stored,
        position: read_position(s),
    }
}

// The state that holds an evaluation.
pub fn lend(e: Evaluation) -> State
    ensures { held_of result ≡ e }
{
    let terms = e.terms;
    let existence = terms.existence;
    let position = e.position;
    let kind = position.kind;
    let ruling = position.ruling;
    let stop = position.stop;
    let begin = stop.begin;
    let target = stop.target;
    let more = stop.more;
    let domains = e.domains;
    let numbers = e.numbers;
    let kept = e.kept;
    let stored = e.stored;
    State {
        started: flag_number(e.started),
        handed: flag_number(e.handed),
        asked: flag_number(e.asked),
        existence: existence_number(existence),
        support: flag_number(terms.support),
        kind: kind_number(kind),
        found: stop.found,
        domains,
        numbers,
        kept,
        stored,
        identifiers: terms.identifiers,
        count: e.count,
        ruling,
        walk: position.walk,
        begin,
        settings: stop.settings,
        target,
        more,
    }
}

// What a call leaves and gives: refused, the state as it was.
pub fn go_on(before: State, after: Evaluation, given: GivenNumbers) -> Called
    ensures { GoesOn before after given result }
{
    if given.kind == 3 {
        return Called {
            state: before,
            given,
        };
    }
    Called {
        state: lend(after),
        given,
    }
}
