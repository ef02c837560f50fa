// A day's rows as one text: 32 octets a row, by which the report is written from lent octets alone.
#![tactic(auto)]

ghost use Rattle.std.specs.Prelude.{◌≡◌, [], ◌∷◌, ◌++◌, ◌+◌, ◌<◌, ◌≤◌, length, drop};
ghost use Rattle.octets_append.specs.code.Appending.{Appends};
ghost use Rattle.rows_gather.specs.code.Gathered.{number_from, number_octets, row_octets, rows_in, no_rows, with_row};

use rows::Row;

// The rows of a list one after the other, and how many they are.
#[repr(C)]
#[derive(Clone, Copy)]
pub struct Gathered {
    pub count: usize,
    pub octets: [u8; 8192],
}

// The most rows, and how many octets each has.
const MOST_ROWS: usize = 256;

const ROW_OCTETS: usize = 32;

// A number of four octets, the low one first; past the end of the text stand zeros.
pub fn number_at(t: &[u8], at: usize) -> u32
    ensures { result ≡ number_from (drop at t.now) }
{
    let s = text_parts::skip(t, at);
    u32::from_le_bytes([
        records_fields::octet_at(s, 0, 0),
        records_fields::octet_at(s, 1, 0),
        records_fields::octet_at(s, 2, 0),
        records_fields::octet_at(s, 3, 0),
    ])
}

// A number's four octets from a place of lent memory on, and the place after them.
fn put_number(n: u32, at: usize, out: &mut [u8]) -> usize
    ensures { Appends (number_octets n) at out.old result out.new }
{
    octets_append::append(&n.to_le_bytes(), at, out)
}

// A row's octets from a place of lent memory on, and the place after them.
fn put_row(row: Row, at: usize, out: &mut [u8]) -> usize
    requires { at + 32 ≤ length out.old }
    ensures { Appends (row_octets row) at out.old result out.new }
{
    let seen = row.seen;
    let flags = [seen.disposition, seen.dkim, seen.spf, seen.spare];
    let after_source = octets_append::append(&seen.source, at, out);
    let after_flags = octets_append::append(&flags, after_source, out);
    let after_author = put_number(seen.author, after_flags, out);
    let after_set = put_number(seen.set, after_author, out);
    put_number(row.count, after_set, out)
}

// No row.
pub fn none() -> Gathered
    ensures { result ≡ no_rows }
{
    Gathered {
        count: 0,
        octets: [0; 8192],
    }
}

// One row more, where fewer than 256 are there: it is read behind them.
pub fn add(g: &mut Gathered, row: Row)
    ensures whole { g.new ≡ with_row row g.old }
    ensures rows { g.old.count < 256 → rows_in g.new ≡ rows_in g.old ++ (row ∷ []) }
    ensures count { g.old.count < 256 → g.new.count ≡ g.old.count + 1 }
{
    if g.count < MOST_ROWS {
        put_row(row, ROW_OCTETS * g.count, &mut g.octets);
        g.count += 1;
    }
}
