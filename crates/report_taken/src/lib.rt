// One octet that a reader takes: its state, its row and its count.
#![tactic(auto)]

ghost use Rattle.std.specs.Prelude.{◌≡◌};
ghost use Rattle.report_steps.specs.code.Steps.{refusal_number};
ghost use Rattle.report_taken.specs.code.Taking.{Takes, KnowsFive, stopped, counted};

use report_kept::ReaderState;
use report_steps::Refusal;

// At most so many octets are counted.
const LARGEST: u64 = u64::MAX;

// Whether a row is handed out, and the state after an octet.
#[derive(Clone, Copy)]
pub struct Taken {
    pub gives: bool,
    pub state: ReaderState,
}

// A refusal's number.
#[tactic(auto, unfolding(report_steps::specs::code::Steps::refusal_number))]
fn number_of(refusal: Refusal) -> u8
    ensures { result ≡ refusal_number refusal }
{
    match refusal {
        Refusal::Outside => 20,
        Refusal::Over => 21,
        Refusal::Early => 22,
    }
}

// A reader that is refused by a number.
#[tactic(auto, unfolding(crate::specs::code::Taking::stopped))]
pub fn stop(s: ReaderState, number: u8) -> ReaderState
    ensures { result ≡ stopped number s }
{
    ReaderState {
        refused: number as u64,
        ..s
    }
}

// One that is refused.
pub fn refuse(s: ReaderState, refusal: Refusal) -> ReaderState
    ensures { result ≡ stopped (refusal_number refusal) s }
{
    stop(s, number_of(refusal))
}

// One that is not, behind so many octets.
#[tactic(auto, unfolding(crate::specs::code::Taking::counted))]
pub fn count_on(s: ReaderState, taken: u64) -> ReaderState
    ensures { result ≡ counted taken s }
{
    ReaderState {
        taken,
        refused: 0,
        ..s
    }
}

// Whether five groups 0 stand before an address's open one; of no other node it is asked.
fn knows_five(s: ReaderState, row: &[u8]) -> bool
    ensures { KnowsFive s row.now result }
{
    s.node == 64 && report_store::five_before(s.kind, s.numbers, row)
}

// An octet, with the row's 8,432 octets lent.
pub fn take_octet(s: ReaderState, x: u8, row: &mut [u8]) -> Taken
    ensures { Takes s x row.old result row.new }
{
    if s.refused != 0 {
        return Taken {
            gives: false,
            state: s,
        };
    }
    if LARGEST <= s.taken {
        return Taken {
            gives: false,
            state: refuse(s, Refusal::Outside),
        };
    }
    let five = knows_five(s, row);
    match report_step::step(s, five, x) {
        Ok(turn) => {
            report_store::put(row, turn.written);
            Taken {
                gives: turn.gives,
                state: count_on(turn.state, s.taken + 1),
            }
        }
        Err(refusal) => Taken {
            gives: false,
            state: refuse(s, refusal),
        },
    }
}
