// For programs in other languages that send their own lookups: the next step, and an answer.
#![tactic(auto)]

ghost use Rattle.book.specs.Book.{answer};
ghost use Rattle.txt.specs.Answers.{status_numbered};
ghost use Rattle.evaluation_numbers.specs.Numbers.{Accepts, Steps};

use evaluation_numbers::{Called, State};

// The next step.
#[unsafe(no_mangle)]
pub extern "C" fn waslidhaj_next(state: State) -> Called
    ensures { Steps state result }
{
    let e = evaluation_lent::hold(state);
    let stepped = evaluation_step::next(e);
    let step = stepped.step;
    let given = evaluation_given::number_step(step);
    evaluation_lent::go_on(state, stepped.evaluation, given)
}

// An answer for the name now asked. What is lent nowhere overlaps: the C header's `waslidhaj_answer` sees to it.
#[unsafe(no_mangle)]
pub extern "C" fn waslidhaj_answer_apart(
    state: State,
    name: &[u8],
    status: u8,
    bytes: &[u8],
    scratch: &mut [u8],
) -> Called
    ensures { Accepts state (answer name.now (status_numbered status) bytes.now scratch.old) result scratch.new }
{
    let e = evaluation_lent::hold(state);
    let kind = txt_codes::read_status(status);
    let changed = evaluation_answer::answer(e, name, kind, bytes, scratch);
    let acceptance = changed.acceptance;
    let given = evaluation_given::number_acceptance(acceptance);
    evaluation_lent::go_on(state, changed.evaluation, given)
}
