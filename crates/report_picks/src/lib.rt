// One octet of a word of the form of an aggregate report, as it changes a reader's state.
#![tactic(auto)]

ghost use Rattle.std.specs.Prelude.{◌≡◌};
ghost use Rattle.report_choices.specs.code.Choices.{is_single, BeginsWord, TurnsWord};

use report_kept::{ReaderState, Turn};
use report_steps::{Leaf, Refusal};

// Whether a node's words have one octet.
#[tactic(auto, unfolding(report_choices::specs::code::Choices::is_single, octets::specs::Octets::between))]
fn has_single(node: u8) -> bool
    ensures { result ≡ is_single node }
{
    42 <= node && node <= 44
}

// The first octet of a word.
fn begin_word(s: ReaderState, x: u8) -> Result<Turn, Refusal>
    ensures { BeginsWord s x result }
{
    let node = s.node;
    let first = report_choices::find_first(node);
    match report_words::pick_word(first, report_choices::count_words(node), x) {
        None => Err(Refusal::Outside),
        Some(k) if has_single(node) => Ok(report_choices::leave_word(s, k)),
        Some(k) => Ok(report_kept::go_on(ReaderState {
            which: k + 1,
            at: 1,
            ..s
        })),
    }
}

// An octet of a word.
pub fn turn_word(s: ReaderState, x: u8) -> Result<Turn, Refusal>
    ensures { TurnsWord s x result }
{
    let node = s.node;
    let which = s.which;
    let at = s.at;
    if which == 0 {
        return begin_word(s, x);
    }
    if report_choices::count_words(node) < which || 116 <= at {
        return Err(Refusal::Outside);
    }
    let k = which - 1;
    match report_words::step_piece(report_choices::find_first(node) + k, at, x)? {
        Leaf::More(()) => Ok(report_kept::go_on(ReaderState { at: at + 1, ..s })),
        Leaf::Ended => Ok(report_choices::leave_word(s, k)),
    }
}
