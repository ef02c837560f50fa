// An accepted answer.
#![tactic(auto)]

ghost use Rattle.evaluation_keep.specs.code.Accepting.{AcceptsInRoom};

use domain::Octet;
use evaluation::Evaluation;
use txt::Reply;

// The most names that one message can need: eight for each walk.
const MOST_NAMES: usize = 136;

// The evaluation with the reply kept, where there is room, to the name that a walk and a place mark, moved on from where it stood.
pub fn accept(e: Evaluation, walk: usize, place: Octet, r: Reply) -> Evaluation
    ensures { AcceptsInRoom e walk place r result }
{
    if MOST_NAMES <= e.count {
        return e;
    }
    let mut kept = e.kept;
    walk_keep::keep_reply(&e.domains, &e.numbers, walk, place, r, e.count, &mut kept);
    let count = e.count + 1;
    let terms = e.terms;
    let stood = e.position;
    let mut stored = e.stored;
    let stands = verdict_advance::advance(
        &e.domains,
        &e.numbers,
        &kept,
        count,
        terms,
        stood,
        r,
        &mut stored,
    );
    // Field by field: `..e` was tried, and a sheet's run then needs 20 KiB more of stack, past what the header says.
    let mut after = e;
    after.asked = false;
    after.kept = kept;
    after.count = count;
    after.stored = stored;
    after.position = stands;
    after
}
