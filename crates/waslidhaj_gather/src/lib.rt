// For programs in other languages: a day's rows, gathered for a report.
#![tactic(auto)]

ghost use Rattle.std.specs.Prelude.{◌≡◌};
ghost use Rattle.rows.specs.Rows.{on_list};
ghost use Rattle.rows_gather.specs.code.Gathered.{rows_in};

use rows::Row;
use rows_gather::Gathered;

// The rows of a list, gathered for a report.
#[unsafe(no_mangle)]
pub extern "C" fn waslidhaj_gather(rows: &[Row]) -> Gathered
    ensures { rows_in result ≡ on_list rows.now }
{
    let mut g = rows_gather::none();
    for row in &rows[..rows_match::listed(rows.len())] {
        rows_gather::add(&mut g, *row);
    }
    g
}
