// Octets of one literal, word or name of an aggregate report, taken in one run.
#![tactic(auto)]

ghost use Rattle.std.specs.Prelude.{◌≡◌, ◌+◌, ◌<◌};
ghost use Rattle.report_taken.specs.code.Taking.{largest};
ghost use Rattle.report_runs.specs.code.Runs.{far, onward, Matches, OpenPiece, LeadsOn, LeavesPiece, EndsPiece, RunsPiece, RunsName, EndsName, Advances, AdvancesBy};

use report_kept::{ReaderState, Turn};
use report_steps::{Leaf, Refusal};

// Behind this many octets they are taken one by one, since a count has 64 bits.
const FAR: u64 = 18446744073709551000;

// How many octets are used, and the state then.
#[derive(Clone, Copy)]
pub struct Run {
    pub used: usize,
    pub state: ReaderState,
}

// How many octets of a name are used, and how long it and its last label are then.
#[derive(Clone, Copy)]
struct NameRun {
    used: usize,
    length: u16,
    label: u8,
}

// The state behind some octets of a node.
fn move_on(s: ReaderState, taken: u64, at: u8, length: u16, label: u8) -> ReaderState
    ensures { result ≡ onward taken at length label s }
{
    ReaderState {
        taken,
        refused: 0,
        at,
        length,
        label,
        ..s
    }
}

// How many octets go on within a text behind `at` octets; its last octet does not.
fn count_matching<'a>(text: &'a [u8], at: u8, rest: &'a [u8]) -> u8
    ensures { Matches text.now at rest.now result }
{
    if 116 <= at {
        return 0;
    }
    for k in 0..116 {
        let i = k as usize;
        if rest.len() <= i {
            return k;
        }
        let Ok(Leaf::More(())) = report_words::step_behind(text, at + k, rest[i]) else {
            return k;
        };
    }
    116
}

// The number of the literal or word that is open.
fn find_open(s: ReaderState) -> Option<u8>
    ensures { OpenPiece s result }
{
    let node = s.node;
    let which = s.which;
    if report_step::cannot_be(node, s.identifiers) {
        None
    } else if node < 36 {
        Some(node)
    } else if node < 52 && which != 0 && which <= report_choices::count_words(node) {
        Some(report_choices::find_first(node) + (which - 1))
    } else {
        None
    }
}

// Behind a literal that only leads on: it hands out no row, writes nothing and sets no flag.
fn lead_on(s: ReaderState) -> Turn
    ensures { LeadsOn s result }
{
    let next = report_literals::find_next(s.node, s.disposition, s.dkim, s.identifiers, s.left);
    report_kept::go_on(report_kept::arrive(s, next))
}

// Behind the literal or word that is open; those before and within an identifier are the ones that come often.
fn leave_piece(s: ReaderState) -> Result<Turn, Refusal>
    ensures { LeavesPiece s result }
{
    let node = s.node;
    let which = s.which;
    if 22 <= node && node < 28 {
        Ok(lead_on(s))
    } else if node < 36 {
        report_literals::leave_literal(s)
    } else if which == 0 {
        Err(Refusal::Outside)
    } else {
        Ok(report_choices::leave_word(s, which - 1))
    }
}

// A run within a text, and the octet behind it, where that ends the text and no row is handed out.
fn end_piece(text: &[u8], run: Run, rest: &[u8], row: &mut [u8]) -> Run
    requires { run.state.taken < largest }
    ensures { EndsPiece text.now run rest.now row.old result row.new }
{
    let used = run.used;
    let s = run.state;
    if rest.len() <= used {
        return run;
    }
    let Ok(Leaf::Ended) = report_words::step_behind(text, s.at, rest[used]) else {
        return run;
    };
    let Ok(turn) = leave_piece(s) else {
        return run;
    };
    if turn.gives {
        return run;
    }
    report_store::put(row, turn.written);
    Run {
        used: used + 1,
        state: report_taken::count_on(turn.state, s.taken + 1),
    }
}

// Octets of a literal or a word.
fn run_piece<'a>(
    texts: &'a [u8],
    begins: &'a [u16],
    s: ReaderState,
    rest: &'a [u8],
    row: &mut [u8],
) -> Run
    requires { s.taken < far }
    ensures { RunsPiece texts.now begins.now s rest.now row.old result row.new }
{
    let at = s.at;
    let Some(number) = find_open(s) else {
        return Run { used: 0, state: s };
    };
    let text = octets_pieces::find_piece(texts, begins, number);
    let k = count_matching(text, at, rest);
    let run = Run {
        used: k as usize,
        state: move_on(s, s.taken + k as u64, at + k, s.length, s.label),
    };
    end_piece(text, run, rest, row)
}

// Octets of a name, into the row from a place on: how many, and how long the name and its last label are then.
fn copy_name(length: u16, label: u8, place: u16, rest: &[u8], row: &mut [u8]) -> NameRun
    ensures { RunsName length label place rest.now row.old result row.new }
{
    let mut run = NameRun {
        used: 0,
        length,
        label,
    };
    for k in 0..253 {
        if rest.len() <= k {
            return run;
        }
        let x = rest[k];
        let Ok(Leaf::More(name)) = report_leaves::step_name(run.length, run.label, x) else {
            return run;
        };
        report_store::put_one(row, place as usize + run.length as usize, x);
        run = NameRun {
            used: k + 1,
            length: name.length,
            label: name.label,
        };
    }
    run
}

// A run within a name, and the octet behind it, where that ends the name.
fn end_name(run: Run, rest: &[u8]) -> Run
    requires { run.state.taken < largest }
    ensures { EndsName run rest.now result }
{
    let used = run.used;
    let s = run.state;
    if rest.len() <= used {
        return run;
    }
    let Ok(Leaf::Ended) = report_leaves::step_name(s.length, s.label, rest[used]) else {
        return run;
    };
    Run {
        used: used + 1,
        state: report_taken::count_on(report_names::leave_name(s), s.taken + 1),
    }
}

// Octets of a name that is kept.
fn run_name(s: ReaderState, rest: &[u8], row: &mut [u8]) -> Run
    requires { s.taken < far }
    ensures { Advances s rest.now row.old result row.new }
{
    let node = s.node;
    let identifiers = s.identifiers;
    if node < 60 || 64 <= node || report_step::cannot_be(node, identifiers) {
        return Run { used: 0, state: s };
    }
    let place = report_names::find_name(node, identifiers);
    let run = copy_name(s.length, s.label, place, rest, row);
    let used = run.used;
    let within = Run {
        used,
        state: move_on(s, s.taken + used as u64, s.at, run.length, run.label),
    };
    end_name(within, rest)
}

// As many octets of a part as one literal, word or name has of it, with the table of literals and words lent, and the row's 8,432 octets.
pub fn advance<'a>(
    texts: &'a [u8],
    begins: &'a [u16],
    s: ReaderState,
    rest: &'a [u8],
    row: &mut [u8],
) -> Run
    ensures { AdvancesBy texts.now begins.now s rest.now row.old result row.new }
{
    if s.refused != 0 || FAR <= s.taken {
        Run { used: 0, state: s }
    } else if s.node < 52 {
        run_piece(texts, begins, s, rest, row)
    } else {
        run_name(s, rest, row)
    }
}
