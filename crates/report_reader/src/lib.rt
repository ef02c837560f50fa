// A reader of aggregate reports: its beginning, a part of the text, and the end.
#![tactic(auto)]

ghost use Rattle.std.specs.Prelude.{◌≡◌};
ghost use Rattle.report_reader.specs.code.Reading.{TakesSome, ReadsPart, Begins, Ends};

use report_kept::ReaderState;
use report_steps::Refusal;
use report_words::{BEGINS, TEXTS};

const LAST: u8 = 65;

// Whether a row is handed out, how many octets are used, and the state then.
#[derive(Clone, Copy)]
pub struct Progress {
    pub gives: bool,
    pub used: usize,
    pub state: ReaderState,
}

// Octets of a part, one or more where it has any: a run of them within what is open, or one.
fn take_some<'a>(
    texts: &'a [u8],
    begins: &'a [u16],
    s: ReaderState,
    rest: &'a [u8],
    row: &mut [u8],
) -> Progress
    ensures { TakesSome texts.now begins.now s rest.now row.old result row.new }
{
    let run = report_runs::advance(texts, begins, s, rest, row);
    let used = run.used;
    let state = run.state;
    if used != 0 {
        return Progress {
            gives: false,
            used,
            state,
        };
    }
    if rest.len() <= used {
        return Progress {
            gives: false,
            used,
            state,
        };
    }
    let turn = report_taken::take_octet(state, rest[used], row);
    let gives = turn.gives;
    let after = turn.state;
    Progress {
        gives,
        used: used + 1,
        state: after,
    }
}

// A part of the text, with the row's 8,432 octets lent: up to the octet at which a row is handed out, or all of it.
pub fn read_part(s: ReaderState, part: &[u8], row: &mut [u8]) -> Progress
    ensures { ReadsPart s part.now row.old result row.new }
{
    let texts = TEXTS;
    let begins = BEGINS;
    let n = part.len();
    let mut state = s;
    let mut i = 0;
    while i < n {
        let rest = text_parts::skip(part, i);
        let some = take_some(&texts, &begins, state, rest, row);
        let after = some.state;
        state = after;
        i = i + some.used;
        if some.gives {
            return Progress {
                gives: true,
                used: i,
                state,
            };
        }
    }
    Progress {
        gives: false,
        used: n,
        state,
    }
}

// A reader before any text.
pub fn begin() -> ReaderState
    ensures { Begins result }
{
    ReaderState {
        taken: 0,
        refused: 0,
        value: 0,
        begin: 0,
        count: 0,
        length: 0,
        left: 255,
        ten: 0,
        sixteen: 0,
        node: 0,
        which: 0,
        at: 0,
        label: 0,
        some: 0,
        disposition: 0,
        dkim: 0,
        spf: 0,
        kind: 0,
        digits: 0,
        numbers: 0,
        author: 0,
        identifiers: 0,
        domain: 0,
        selector: 0,
        outcome: 0,
    }
}

// The end is declared.
pub fn end(s: ReaderState) -> ReaderState
    ensures { Ends s result }
{
    if s.refused != 0 {
        return s;
    }
    if LAST <= s.node {
        return s;
    }
    report_taken::refuse(s, Refusal::Early)
}
