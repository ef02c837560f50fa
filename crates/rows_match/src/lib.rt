// What is done with one row of a day's list, by value.
#![tactic(auto)]

ghost use Rattle.std.specs.Prelude.{◌≡◌, min, leb};
ghost use Rattle.rows.specs.Rows.{is_free, same_seen, is_match, with_count};
ghost use Rattle.rows_match.specs.code.Match.{noted};

use rows::{Row, Seen};

// The most rows of a list, and the most that a count can be.
const MOST_ROWS: usize = 256;

const MOST_COUNT: u32 = u32::MAX;

// Whether a row is free.
pub fn is_free(row: Row) -> bool
    ensures { result ≡ is_free row }
{
    row.count == 0
}

// Whether the same was seen: two flags are the same where both are set or neither is.
fn same_seen(a: Seen, b: Seen) -> bool
    ensures { result ≡ same_seen a b }
{
    a.source == b.source
        && a.disposition == b.disposition
        && (a.dkim != 0) == (b.dkim != 0)
        && (a.spf != 0) == (b.spf != 0)
        && a.author == b.author
        && a.set == b.set
}

// Whether a row isn't free and is for what was seen.
pub fn is_match(row: Row, seen: Seen) -> bool
    ensures { result ≡ is_match seen row }
{
    !is_free(row) && same_seen(seen, row.seen)
}

// Whether a row's count cannot be raised.
pub fn is_full(row: Row) -> bool
    ensures { result ≡ leb 4294967295 row.count }
{
    MOST_COUNT <= row.count
}

// A free row is taken for what was seen; any other counts one more, if it can.
pub fn noted(row: Row, seen: Seen) -> Row
    ensures { result ≡ noted seen row }
{
    if is_free(row) {
        Row { seen, count: 1 }
    } else if is_full(row) {
        row
    } else {
        Row {
            count: row.count + 1,
            ..row
        }
    }
}

// A row with its count at 0.
pub fn emptied(row: Row) -> Row
    ensures { result ≡ with_count 0 row }
{
    Row { count: 0, ..row }
}

// How many of the rows lent are part of the list.
pub fn listed(lent: usize) -> usize
    ensures { result ≡ min 256 lent }
{
    MOST_ROWS.min(lent)
}
