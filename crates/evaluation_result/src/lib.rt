// The result.
#![tactic(auto)]

ghost use Rattle.std.specs.Prelude.{◌≡◌, min};
ghost use Rattle.evaluation.specs.Promises.{DoesResult};

use evaluation::{Evaluation, Verdict};
use octets::Refusal;
use verdict_judgement::Judged;

// The most names that one message can need: eight for each walk.
const MOST_NAMES: usize = 136;

// How many answers an evaluation holds that has counted so many: there is room for no more.
pub fn count_answers(count: usize) -> usize
    ensures { result ≡ min count 136 }
{
    count.min(MOST_NAMES)
}

// The result.
pub fn result(e: Evaluation) -> Result<Verdict, Refusal>
    ensures { DoesResult e result }
{
    if !e.started || !e.handed {
        return Err(evaluation_state::refuse(7, 0));
    }
    match verdict_conclude::judge(&e.domains, &e.numbers, &e.stored, e.terms, e.position) {
        Judged::Missing { .. } => Err(evaluation_state::refuse(7, 0)),
        Judged::Done(judgement) => Ok(Verdict {
            judgement,
            count: count_answers(e.count),
        }),
    }
}
