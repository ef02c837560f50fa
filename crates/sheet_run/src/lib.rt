// One message from a sheet: the calls of its evaluation, and the text that is printed for it.
#![tactic(auto)]

ghost use Rattle.std.specs.Prelude.{◌≡◌, ◌≤◌, length, take};
ghost use Rattle.octets.specs.Lent.{Writes};
ghost use Rattle.sheet.specs.Printed.{printed};
ghost use Rattle.sheet_turn.specs.code.Conversing.{Converses};
ghost use Rattle.sheet_run.specs.code.Beginning.{Begins};

use evaluation::Evaluation;
use octets::Refusal;

// The calls of an opened evaluation, one turn after another, and where the text ends.
fn converse(e: Evaluation, records: usize, sheet: &[u8], lines: &mut [u8]) -> usize
    ensures { Converses records sheet.now e lines.old result lines.new }
{
    let mut now = e;
    let mut at = 0;
    let mut turns: usize = 0;
    while turns < 137 {
        let turn = sheet_turn::take_turn(now, records, sheet, at, lines);
        if turn.done {
            return turn.end;
        }
        now = turn.evaluation;
        at = turn.end;
        turns = turns + 1;
    }
    at
}

// A sheet's beginning: how many records it has, the evaluation of its message, and whether that is accepted.
#[derive(Clone, Copy)]
struct Begun {
    records: usize,
    evaluation: Evaluation,
    acceptance: Result<(), Refusal>,
}

// A sheet is checked, its message opened and its identifiers added.
fn begin(sheet: &[u8]) -> Begun
    ensures { Begins sheet.now result }
{
    match records_check::check_sheet(sheet) {
        Ok(records) => {
            let opened = sheet_open::open(records, sheet);
            let evaluation = opened.evaluation;
            let acceptance = opened.acceptance;
            Begun {
                records,
                evaluation,
                acceptance,
            }
        }
        Err(place) => Begun {
            records: 0,
            evaluation: evaluation_state::empty(),
            acceptance: Err(Refusal { number: 8, place }),
        },
    }
}

// The text of a sheet into the front of memory that has room for every text, and where it ends.
fn compose(sheet: &[u8], lines: &mut [u8]) -> usize
    ensures { length lines.old ≡ 36864 → take result lines.new ≡ printed sheet.now }
{
    let begun = begin(sheet);
    let acceptance = begun.acceptance;
    if let Err(f) = acceptance {
        return sheet_print::append_refusal(f, 0, lines);
    }
    converse(begun.evaluation, begun.records, sheet, lines)
}

// Runs a sheet: the text that is printed for it into the front of lent memory. No text is longer than 36,864 octets.
pub fn run(sheet: &[u8], out: &mut [u8]) -> Result<usize, Refusal>
    ensures { Writes (printed sheet.now) out.old result out.new × (length (printed sheet.now) ≤ 36864) }
{
    let mut lines = [0u8; 36864];
    let end = compose(sheet, &mut lines);
    octets_write::write(text_parts::part(&lines, 0, end), out)
}
