// Texts and numbers from a place of lent memory on.
#![tactic(auto)]

ghost use Rattle.std.specs.Prelude.{◌≡◌, length};
ghost use Rattle.octets.specs.Octets.{lower};
ghost use Rattle.octets.specs.Decimal.{decimal};
ghost use Rattle.octets.specs.Lent.{Writes};
ghost use Rattle.octets_append.specs.code.Appending.{Appends};

use octets::Refusal;

// A text from a place of lent memory on, and the place after it.
pub fn append(text: &[u8], at: usize, out: &mut [u8]) -> usize
    ensures { Appends text.now at out.old result out.new }
{
    if out.len() < at {
        at
    } else {
        at + octets_write::write(text, &mut out[at..]).unwrap_or(0)
    }
}

// A text in lower case from a place of lent memory on, and the place after it.
pub fn append_lower(text: &[u8], at: usize, out: &mut [u8]) -> usize
    ensures { Appends (lower text.now) at out.old result out.new }
{
    if out.len() < at {
        at
    } else {
        at + octets_write::write_lower(text, &mut out[at..]).unwrap_or(0)
    }
}

// How many decimal digits a number has.
pub fn decimal_length(x: u64) -> usize
    ensures { result ≡ length (decimal x) }
{
    x.checked_ilog10().unwrap_or(0) as usize + 1
}

// A number in decimal into the front of lent memory.
fn write_decimal(x: u64, out: &mut [u8]) -> Result<usize, Refusal>
    ensures { Writes (decimal x) out.old result out.new }
{
    let digits = decimal_length(x);
    if out.len() < digits {
        return octets_write::too_short(digits);
    }
    let mut rest = x;
    for i in (0..digits).rev() {
        out[i] = b'0' + (rest % 10) as u8;
        rest /= 10;
    }
    Ok(digits)
}

// A number in decimal from a place of lent memory on, and the place after it.
pub fn append_decimal(x: u64, at: usize, out: &mut [u8]) -> usize
    ensures { Appends (decimal x) at out.old result out.new }
{
    if out.len() < at {
        at
    } else {
        at + write_decimal(x, &mut out[at..]).unwrap_or(0)
    }
}
