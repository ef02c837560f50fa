// The opening of a sheet's message, and the adding of its identifiers, one after another.
#![tactic(auto)]

ghost use Rattle.std.specs.Prelude.{◌≡◌, []};
ghost use Rattle.verdict.specs.Message.{Message};
ghost use Rattle.asking.specs.Asking.{given};
ghost use Rattle.book.specs.Start.{adding_each, started};
ghost use Rattle.book.specs.Book.{add};
ghost use Rattle.evaluation.specs.code.Machine.{keeps_opened};
ghost use Rattle.evaluation.specs.code.View.{view};
ghost use Rattle.evaluation.specs.Promises.{Does};
ghost use Rattle.evaluation.specs.GivenBack.{acceptance_back};
ghost use Rattle.records_fields.specs.code.Layout.{identifier_at, identifiers_on, message_on};
ghost use Rattle.sheet_open.specs.code.OpeningSheet.{OpensWith};

use evaluation::{Changed, Evaluation};

// Adds the identifier of a record where it lies.
fn add_at(e: Evaluation, t: &[u8]) -> Changed
    ensures { Does e (add (identifier_at t.now)) result.evaluation (given (acceptance_back result.acceptance) []) }
{
    let body = records_fields::body(t);
    let kind = records_fields::octet_at(body, 0, 0);
    let outcome = records_fields::octet_at(body, 1, 0);
    evaluation_add::add(e, kind, outcome, text_parts::skip(body, 2))
}

// Adds the identifiers of a sheet of so many records, up to the first refusal.
fn add_each(e: Evaluation, records: usize, sheet: &[u8]) -> Changed
    ensures { (m : Message) → view e ≡ keeps_opened m → OpensWith (adding_each m (identifiers_on records sheet.now)) result }
{
    let mut now = e;
    let mut t = records_fields::after_record(sheet);
    let mut more = records;
    while 1 < more && records_find::is_identifier(t) {
        let added = add_at(now, t);
        let adding = added.acceptance;
        if let Err(_) = adding {
            return added;
        }
        now = added.evaluation;
        let rest = records_fields::after_record(t);
        t = rest;
        more = more - 1;
    }
    Changed {
        evaluation: now,
        acceptance: Ok(()),
    }
}

// Opens the evaluation of a sheet of so many records, and adds its identifiers.
pub fn open(records: usize, sheet: &[u8]) -> Changed
    ensures { OpensWith (started (message_on records sheet.now)) result }
{
    let opened = evaluation_open::open(
        evaluation_state::empty(),
        text_parts::skip(records_fields::body(sheet), 2),
        records_fields::octet_at(sheet, 4, 0),
        records_fields::octet_at(sheet, 5, 0),
    );
    let opening = opened.acceptance;
    if let Err(_) = opening {
        return opened;
    }
    add_each(opened.evaluation, records, sheet)
}
