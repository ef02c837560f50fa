// Where the next step is.
#![tactic(auto)]

ghost use Rattle.evaluation_first.specs.code.Pointing.{Points};

use evaluation::Evaluation;

// An evaluation at its next step, with the name asked that it lacks there: where it stands, or where it begins.
pub fn point(e: Evaluation) -> Evaluation
    ensures { Points e result }
{
    let mut after = e;
    after.asked = true;
    if e.handed {
        return after;
    }
    let mut stored = e.stored;
    let position = verdict_advance::begin(&e.domains, &e.numbers, &e.kept, 0, e.terms, &mut stored);
    after.handed = true;
    after.count = 0;
    after.stored = stored;
    after.position = position;
    after
}
