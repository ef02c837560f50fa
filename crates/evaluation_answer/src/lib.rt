// An answer for the name now asked.
#![tactic(auto)]

ghost use Rattle.asking.specs.Asking.{given};
ghost use Rattle.book.specs.Book.{answer};
ghost use Rattle.evaluation.specs.Promises.{Does};
ghost use Rattle.evaluation.specs.GivenBack.{acceptance_back};

use evaluation::{Changed, Evaluation};
use txt::Status;

// An answer for the name now asked.
pub fn answer(
    e: Evaluation,
    name: &[u8],
    status: Status,
    bytes: &[u8],
    scratch: &mut [u8],
) -> Changed
    ensures { Does e (answer name.now status bytes.now scratch.old) result.evaluation (given (acceptance_back result.acceptance) scratch.new) }
{
    let live = evaluation_keep::is_live(e.started, e.handed, e.asked, e.count);
    match evaluation_keep::find_asked(&e.domains, &e.numbers, e.terms, e.position, live, name) {
        None => evaluation_state::refused(e, 5, 0),
        Some(asked) => match txt_take::take_answer(status, bytes, scratch) {
            Err(f) => evaluation_state::refused(e, f.number, f.place),
            Ok(r) => Changed {
                evaluation: evaluation_accept::accept(e, asked.walk, asked.place, r),
                acceptance: Ok(()),
            },
        },
    }
}
