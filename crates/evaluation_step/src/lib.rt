// The next step.
#![tactic(auto)]

ghost use Rattle.evaluation.specs.Promises.{DoesNext};

use evaluation::{Evaluation, Step, Stepped, Verdict};
use verdict_judgement::Judged;

// The next step.
pub fn next(e: Evaluation) -> Stepped
    ensures { DoesNext e result }
{
    if !e.started {
        return Stepped {
            evaluation: e,
            step: Step::Refused(evaluation_state::refuse(7, 0)),
        };
    }
    let at = evaluation_first::point(e);
    let terms = at.terms;
    let position = at.position;
    match verdict_conclude::judge(&at.domains, &at.numbers, &at.stored, terms, position) {
        Judged::Missing { walk, place } => Stepped {
            evaluation: at,
            step: Step::Ask { walk, place },
        },
        Judged::Done(judgement) => {
            let count = evaluation_result::count_answers(at.count);
            Stepped {
                evaluation: e,
                step: Step::Verdict(Verdict { judgement, count }),
            }
        }
    }
}
