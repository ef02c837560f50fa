// One octet of a source address of an aggregate report, as it changes a reader's state and its row.
#![tactic(auto)]

ghost use Rattle.std.specs.Prelude.{◌≡◌};
ghost use Rattle.report_kept.specs.code.View.{on_source};
ghost use Rattle.report_origin.specs.code.Origins.{octet_put, group_put, source_ended, source_next, TurnsSource};

use report_kept::{ReaderState, Turn, Written};
use report_source::SourceTurn;
use report_steps::Refusal;

// A number of a dotted address is written.
#[tactic(auto, unfolding(crate::specs::code::Origins::octet_put))]
fn put_octet(s: ReaderState, at: u16, value: u16) -> Turn
    ensures { result ≡ octet_put s at value }
{
    Turn {
        gives: false,
        state: s,
        written: Written::One(at, (value % 256) as u8),
    }
}

// A group is written.
#[tactic(auto, unfolding(crate::specs::code::Origins::group_put))]
fn put_group(s: ReaderState, at: u16, value: u16) -> Turn
    ensures { result ≡ group_put s at value }
{
    Turn {
        gives: false,
        state: s,
        written: Written::Two(at, (value / 256) as u8, (value % 256) as u8),
    }
}

// An address of a kind, behind so many numbers, with its open one.
#[tactic(auto, unfolding(report_kept::specs::code::View::on_source))]
fn move_on(s: ReaderState, kind: u8, numbers: u8, digits: u8, ten: u16, sixteen: u16) -> ReaderState
    ensures { result ≡ on_source kind numbers digits ten sixteen s }
{
    ReaderState {
        kind,
        numbers,
        digits,
        ten,
        sixteen,
        ..s
    }
}

// Behind an address.
fn end_source(s: ReaderState) -> Turn
    ensures { result ≡ source_ended s }
{
    let after = report_kept::arrive(s, 15);
    if s.kind == 1 {
        put_octet(after, 15, s.ten)
    } else {
        put_group(after, 14, s.sixteen)
    }
}

// Behind a number of one.
fn next_source(s: ReaderState, kind: u8, value: u16) -> Result<Turn, Refusal>
    ensures { result ≡ source_next s kind value }
{
    let numbers = s.numbers;
    if 7 <= numbers {
        return Err(Refusal::Outside);
    }
    let more = numbers + 1;
    let n = numbers as u16;
    Ok(if kind == 1 {
        put_octet(move_on(s, 1, more, 0, 0, 0), 12 + n, value)
    } else {
        put_group(move_on(s, 2, more, 0, 0, 0), 2 * n, value)
    })
}

// An octet of an address, five groups 0 and no more before its open one or not.
pub fn turn_source(s: ReaderState, five: bool, x: u8) -> Result<Turn, Refusal>
    ensures { TurnsSource s five x result }
{
    let numbers = s.numbers;
    match report_source::step_source(s.kind, numbers, five, s.digits, s.ten, s.sixteen, x)? {
        SourceTurn::More(open) => Ok(report_kept::go_on(move_on(
            s,
            open.kind,
            numbers,
            open.digits,
            open.ten,
            open.sixteen,
        ))),
        SourceTurn::Ended => Ok(end_source(s)),
        SourceTurn::Number(kind, value) => next_source(s, kind, value),
    }
}
