// What an octet of a report writes into the open row, and whether five groups 0 stand before an address's open one.
#![tactic(auto)]

ghost use Rattle.std.specs.Prelude.{◌≡◌, [], ◌∷◌, ◌+◌, ◌*◌, ◌<◌, get_or};
ghost use Rattle.report_source.specs.code.Sources.{five_zeros};
ghost use Rattle.report_kept.specs.Layout.{singles, pairs};
ghost use Rattle.report_kept.specs.code.View.{before_in, laid_at, write};

use report_kept::Written;

// One octet, where the row has the place.
pub fn put_one(row: &mut [u8], at: usize, x: u8)
    ensures { row.new ≡ laid_at at (x ∷ []) row.old }
{
    if at < row.len() {
        row[at] = x;
    }
}

// All that is written.
pub fn put(row: &mut [u8], w: Written)
    ensures { row.new ≡ write w row.old }
{
    match w {
        Written::Nothing => {}
        Written::One(at, a) => put_one(row, at as usize, a),
        Written::Two(at, a, b) => {
            put_one(row, at as usize, a);
            put_one(row, at as usize + 1, b);
        }
        Written::Three(at, a, b, c) => {
            put_one(row, at as usize, a);
            put_one(row, at as usize + 1, b);
            put_one(row, at as usize + 2, c);
        }
        Written::Four(at, a, b, c, d) => {
            put_one(row, at as usize, a);
            put_one(row, at as usize + 1, b);
            put_one(row, at as usize + 2, c);
            put_one(row, at as usize + 3, d);
        }
    }
}

// A group of two.
fn pair_at(row: &[u8], at: usize) -> u16
    requires { at < 16 }
    ensures { result ≡ get_or row.now at 0 * 256 + get_or row.now (at + 1) 0 }
{
    let first = records_fields::octet_at(row, at, 0);
    let second = records_fields::octet_at(row, at + 1, 0);
    first as u16 * 256 + second as u16
}

fn five_octets(row: &[u8]) -> bool
    ensures { result ≡ five_zeros (singles 5 row.now) }
{
    let a = records_fields::octet_at(row, 12, 0);
    let b = records_fields::octet_at(row, 13, 0);
    let c = records_fields::octet_at(row, 14, 0);
    let d = records_fields::octet_at(row, 15, 0);
    let e = records_fields::octet_at(row, 16, 0);
    a as u16 + b as u16 + c as u16 + d as u16 + e as u16 == 0
}

fn five_groups(row: &[u8]) -> bool
    ensures { result ≡ five_zeros (pairs 5 row.now) }
{
    let a = pair_at(row, 0);
    let b = pair_at(row, 2);
    let c = pair_at(row, 4);
    let d = pair_at(row, 6);
    let e = pair_at(row, 8);
    a as u32 + b as u32 + c as u32 + d as u32 + e as u32 == 0
}

// Whether the numbers before an address's open one are five, all 0.
pub fn five_before(kind: u8, numbers: u8, row: &[u8]) -> bool
    ensures { result ≡ five_zeros (before_in kind numbers row.now) }
{
    if numbers != 5 {
        false
    } else if kind == 1 {
        five_octets(row)
    } else {
        five_groups(row)
    }
}
