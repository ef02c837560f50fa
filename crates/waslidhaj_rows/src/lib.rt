// For programs in other languages: a day's list of rows is cleared, and verdicts are entered. The texts and the rows lent to the
// last two nowhere overlap: the C header's `waslidhaj_clear` and `waslidhaj_enter` see to it.
#![tactic(auto)]

ghost use Rattle.std.specs.Prelude.{◌≡◌};
ghost use Rattle.rows.specs.History.{clear, enter};
ghost use Rattle.rows_day.specs.Day.{never_cleared, Does};
ghost use Rattle.rows_check.specs.code.Check.{refusal_in};

use octets::Refusal;
use rows::{Entry, Row};
use rows_day::{Changed, DayList};

// A list that was never cleared.
#[unsafe(no_mangle)]
pub extern "C" fn waslidhaj_new_list() -> DayList
    ensures { result ≡ never_cleared }
{
    DayList {
        cleared: 0,
        domain: [0; 253],
        length: 0,
    }
}

// A day's end: the list is cleared, and named for a policy domain.
#[unsafe(no_mangle)]
pub extern "C" fn waslidhaj_clear_apart(list: DayList, domain: &[u8], rows: &mut [Row]) -> Changed
    ensures { Does (clear domain.now) list rows.old result rows.new }
{
    match rows_check::named(domain) {
        Ok(named) => {
            rows_note::empty(rows);
            rows_check::answered(named, Ok(()))
        }
        Err(refusal) => Changed { list, refusal },
    }
}

// A verdict is entered, or refused.
fn enter<'a>(
    list: DayList,
    entry: Entry,
    domain: &'a [u8],
    authors: &'a [u8],
    sets: &'a [u8],
    rows: &mut [Row],
) -> Result<(), Refusal>
    ensures { Does (enter entry (record { authors = authors.now; sets = sets.now }) domain.now) list rows.old (record { list = list; refusal = refusal_in result }) rows.new }
{
    rows_check::check(list, entry, domain, authors, sets)?;
    rows_note::note(rows, rows_check::seen_in(entry))
}

// A verdict is entered, with the domain of its applied record and the lists beside the rows.
#[unsafe(no_mangle)]
pub extern "C" fn waslidhaj_enter_apart<'a>(
    list: DayList,
    entry: Entry,
    domain: &'a [u8],
    authors: &'a [u8],
    sets: &'a [u8],
    rows: &mut [Row],
) -> Changed
    ensures { Does (enter entry (record { authors = authors.now; sets = sets.now }) domain.now) list rows.old result rows.new }
{
    let answer = enter(list, entry, domain, authors, sets, rows);
    rows_check::answered(list, answer)
}
