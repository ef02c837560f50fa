// A turn of next step and answer.
#![tactic(auto)]

ghost use Rattle.std.specs.Prelude.{◌≡◌, ◌≤◌, length, take};
ghost use Rattle.evaluation.specs.GivenBack.{marked};
ghost use Rattle.sheet_turn.specs.code.Conversing.{TakesTurn, AsksName};

use domain::Octet;
use evaluation::{Evaluation, Step};

// What a turn of next step and answer leaves: the evaluation, where the lines end, and whether it was the last.
#[derive(Clone, Copy)]
pub struct Turn {
    pub evaluation: Evaluation,
    pub end: usize,
    pub done: bool,
}

// The name that a walk and a place mark, into the front of lent memory, and its length.
fn name_at(e: Evaluation, walk: usize, place: Octet, name: &mut [u8]) -> usize
    requires { length name.old ≡ 260 }
    ensures { (take result name.new ≡ marked e walk place) × (result ≡ length (marked e walk place)) × (result ≤ 260) }
{
    match evaluation_state::write_name(&e.domains, &e.numbers, walk, place, name) {
        Ok(n) => n,
        Err(_) => 0,
    }
}

// A name is asked, and answered as the sheet has it.
fn ask<'a>(
    e: Evaluation,
    name: &'a [u8],
    records: usize,
    sheet: &'a [u8],
    at: usize,
    lines: &mut [u8],
) -> Turn
    ensures { AsksName name.now records sheet.now e at lines.old result lines.new }
{
    let end = sheet_print::append_ask(name, at, lines);
    let found = records_find::find(records, name, sheet);
    let mut scratch = [0u8; 4096];
    let changed = evaluation_answer::answer(
        e,
        name,
        records_fields::status(found),
        records_fields::bytes(found),
        &mut scratch,
    );
    let acceptance = changed.acceptance;
    if let Err(f) = acceptance {
        return Turn {
            evaluation: e,
            end: sheet_print::append_refusal(f, 0, lines),
            done: true,
        };
    }
    let after = changed.evaluation;
    Turn {
        evaluation: after,
        end,
        done: false,
    }
}

// One turn: the next step, and the answer to the name that it asks.
pub fn take_turn(e: Evaluation, records: usize, sheet: &[u8], at: usize, lines: &mut [u8]) -> Turn
    ensures { TakesTurn records sheet.now e at lines.old result lines.new }
{
    let stepped = evaluation_step::next(e);
    let step = stepped.step;
    match step {
        Step::Ask { walk, place } => {
            let mut name = [0u8; 260];
            let size = name_at(stepped.evaluation, walk, place, &mut name);
            ask(
                stepped.evaluation,
                text_parts::part(&name, 0, size),
                records,
                sheet,
                at,
                lines,
            )
        }
        Step::Verdict(v) => {
            let judgement = v.judgement;
            let r = judgement.result;
            let p = judgement.policy;
            let d = judgement.disposition;
            Turn {
                evaluation: e,
                end: sheet_print::append_verdict(r, p, d, v.count, at, lines),
                done: true,
            }
        }
        Step::Refused(f) => Turn {
            evaluation: e,
            end: sheet_print::append_refusal(f, 0, lines),
            done: true,
        },
    }
}
