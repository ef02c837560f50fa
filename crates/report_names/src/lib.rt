// One octet of a name of an aggregate report, as it changes a reader's state and its row.
#![tactic(auto)]

ghost use Rattle.std.specs.Prelude.{◌≡◌};
ghost use Rattle.report_names.specs.code.Names.{TurnsName, fitting, name_left_at, NamePlace};

use report_kept::{ReaderState, Turn, Written};
use report_steps::{Leaf, Refusal};

// How many octets of a name are kept.
#[tactic(auto, unfolding(crate::specs::code::Names::fitting))]
fn fit(length: u16) -> u8
    ensures { result ≡ fitting length }
{
    length.min(253) as u8
}

// Behind a name.
#[tactic(auto, unfolding(crate::specs::code::Names::name_left_at, report_kept::specs::code::View::named))]
pub fn leave_name(s: ReaderState) -> ReaderState
    ensures { result ≡ name_left_at s }
{
    let long = fit(s.length);
    match s.node {
        59 => report_kept::arrive(s, 7),
        60 => report_kept::arrive(
            ReaderState {
                author: long,
                identifiers: 0,
                domain: 0,
                selector: 0,
                outcome: 0,
                ..s
            },
            23,
        ),
        61 => report_kept::arrive(ReaderState { domain: long, ..s }, 26),
        62 => report_kept::arrive(
            ReaderState {
                selector: long,
                ..s
            },
            27,
        ),
        _ => report_kept::arrive(ReaderState { domain: long, ..s }, 30),
    }
}

// Where the open name stands in the row, of fewer than 16 identifiers.
pub fn find_name(node: u8, identifiers: u8) -> u16
    ensures { NamePlace node identifiers result }
{
    let first = 272 + 510 * identifiers.min(15) as u16;
    match node {
        60 => 16,
        62 => first + 253,
        _ => first,
    }
}

// An octet of a name; the published domain is not kept.
pub fn turn_name(s: ReaderState, x: u8) -> Result<Turn, Refusal>
    ensures { TurnsName s x result }
{
    match report_leaves::step_name(s.length, s.label, x)? {
        Leaf::Ended => Ok(report_kept::go_on(leave_name(s))),
        Leaf::More(name) => {
            let after = ReaderState {
                length: name.length,
                label: name.label,
                ..s
            };
            if s.node == 59 {
                return Ok(report_kept::go_on(after));
            }
            let place = find_name(s.node, s.identifiers) + s.length;
            Ok(Turn {
                gives: false,
                state: after,
                written: Written::One(place, x),
            })
        }
    }
}
