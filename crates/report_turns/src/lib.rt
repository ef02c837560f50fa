// One octet of a text, an id or a number of an aggregate report, as it changes a reader's state.
#![tactic(auto)]

ghost use Rattle.std.specs.Prelude.{◌≡◌};
ghost use Rattle.report_turns.specs.code.Values.{TurnsText, TurnsId, TurnsNumber, least_of, most_of, floor_of, read_in, number_left_at};

use report_kept::{ReaderState, Turn};
use report_steps::{Leaf, Refusal};

// An octet of a text.
pub fn turn_text(s: ReaderState, x: u8) -> Result<Turn, Refusal>
    ensures { TurnsText s x result }
{
    match report_leaves::step_text(s.length, s.at, x)? {
        Leaf::More(place) => Ok(report_kept::go_on(ReaderState {
            at: place.at,
            length: place.length,
            ..s
        })),
        Leaf::Ended => Ok(report_kept::go_on(report_kept::arrive(s, s.node.saturating_sub(51)))),
    }
}

// An octet of an id.
pub fn turn_id(s: ReaderState, x: u8) -> Result<Turn, Refusal>
    ensures { TurnsId s x result }
{
    match report_leaves::step_id(s.length, x)? {
        Leaf::More(length) => Ok(report_kept::go_on(ReaderState { length, ..s })),
        Leaf::Ended => Ok(report_kept::go_on(report_kept::arrive(s, 4))),
    }
}

// The least that a number can be.
#[tactic(auto, unfolding(crate::specs::code::Values::least_of))]
fn find_least(node: u8) -> u8
    ensures { result ≡ least_of node }
{
    if node == 58 { 1 } else { 0 }
}

// The most that it can be.
#[tactic(auto, unfolding(crate::specs::code::Values::most_of))]
fn find_most(node: u8) -> u64
    ensures { result ≡ most_of node }
{
    if node == 58 {
        u32::MAX as u64
    } else {
        u64::MAX
    }
}

// What it ends below at no `<`.
#[tactic(auto, unfolding(crate::specs::code::Values::floor_of))]
fn find_floor(s: ReaderState) -> u64
    ensures { result ≡ floor_of s }
{
    if s.node == 57 { s.begin } else { 0 }
}

// What is read of the open number.
#[tactic(auto, unfolding(crate::specs::code::Values::read_in, octets::specs::Octets::is_set))]
fn find_read(s: ReaderState) -> Option<u64>
    ensures { result ≡ read_in s }
{
    if s.some != 0 { Some(s.value) } else { None }
}

// Behind a number.
#[tactic(auto, unfolding(crate::specs::code::Values::number_left_at, report_kept::specs::code::View::valued))]
fn leave_number(s: ReaderState, value: u64) -> ReaderState
    ensures { result ≡ number_left_at s value }
{
    match s.node {
        56 => report_kept::arrive(ReaderState { begin: value, ..s }, 5),
        57 => report_kept::arrive(s, 6),
        _ => report_kept::arrive(ReaderState { count: value, ..s }, 16),
    }
}

// An octet of a number.
pub fn turn_number(s: ReaderState, x: u8) -> Result<Turn, Refusal>
    ensures { TurnsNumber s x result }
{
    let read = find_read(s);
    let least = find_least(s.node);
    let most = find_most(s.node);
    match report_values::step_value(least, most, find_floor(s), read, x)? {
        Leaf::More(value) => Ok(report_kept::go_on(ReaderState {
            value,
            some: 1,
            ..s
        })),
        Leaf::Ended => Ok(report_kept::go_on(leave_number(s, read.unwrap_or(0)))),
    }
}
