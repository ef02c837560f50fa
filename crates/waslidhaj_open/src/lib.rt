// For programs in other languages that send their own lookups: a message is opened, and its identifiers are added.
#![tactic(auto)]

ghost use Rattle.std.specs.Prelude.{[]};
ghost use Rattle.book.specs.Start.{opening};
ghost use Rattle.book.specs.Book.{add};
ghost use Rattle.evaluation.specs.Promises.{opened_view};
ghost use Rattle.evaluation_numbers.specs.Numbers.{Opened, Accepts};

use evaluation_numbers::{Called, State};

// Opens an evaluation of a message without identifiers.
#[unsafe(no_mangle)]
pub extern "C" fn waslidhaj_open(state: State, author: &[u8], existence: u8, support: u8) -> Called
    ensures { Opened state (opened_view (opening author.now existence support)) result }
{
    let e = evaluation_lent::hold(state);
    let changed = evaluation_open::open(e, author, existence, support);
    let acceptance = changed.acceptance;
    let given = evaluation_given::number_acceptance(acceptance);
    evaluation_lent::go_on(state, changed.evaluation, given)
}

// Adds an identifier.
#[unsafe(no_mangle)]
pub extern "C" fn waslidhaj_add(state: State, kind: u8, outcome: u8, domain: &[u8]) -> Called
    ensures { Accepts state (add (record { kind = kind; outcome = outcome; domain = domain.now })) result [] }
{
    let e = evaluation_lent::hold(state);
    let changed = evaluation_add::add(e, kind, outcome, domain);
    let acceptance = changed.acceptance;
    let given = evaluation_given::number_acceptance(acceptance);
    evaluation_lent::go_on(state, changed.evaluation, given)
}
