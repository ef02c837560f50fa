// The source address of a report's row, from a place of lent memory on: one that is IPv4 mapped dotted, any other in hexadecimal groups.
#![tactic(auto)]

ghost use Rattle.std.specs.Prelude.{◌≡◌, ◌++◌, ◌+◌, ◌*◌, ◌/◌, ◌≤◌, length, get_or, take, drop};
ghost use Rattle.octets.specs.Octets.{octets};
ghost use Rattle.octets_pieces.specs.code.Putting.{Puts};
ghost use Rattle.report.specs.Xml.{hex_octet, hex_digits, address};
ghost use Rattle.report_sources.specs.code.Parts.{four_digits, dotted};

// How many of a group's four digits are leading zeros; the last is none.
fn leading_zeros(high: u8, low: u8) -> usize
    ensures { (result ≤ 3) × (drop result (four_digits high low) ≡ hex_digits 4 (high * 256 + low)) }
{
    if 15 < high {
        0
    } else if 0 < high {
        1
    } else if 15 < low {
        2
    } else {
        3
    }
}

// A hexadecimal digit.
fn digit(d: u8) -> u8
    ensures { result ≡ hex_octet d }
{
    records_fields::octet_at(b"0123456789abcdef", d as usize, 0)
}

// The first group of octets, and a mark after it where another follows.
fn put_group(t: &[u8], at: usize, out: &mut [u8]) -> usize
    ensures { Puts (hex_digits 4 (get_or t.now 0 0 * 256 + get_or t.now 1 0) ++ take (length t.now / 4) (octets ":")) at out.old result out.new }
{
    let high = records_fields::octet_at(t, 0, 0);
    let low = records_fields::octet_at(t, 1, 0);
    let text = [
        digit(high / 16),
        digit(high % 16),
        digit(low / 16),
        digit(low % 16),
        58,
    ];
    let from = leading_zeros(high, low);
    octets_pieces::put(text_parts::part(&text, from, 4 + t.len() / 4), at, out)
}

// Octets in decimal, parted by dots.
fn put_dotted(s: &[u8], at: usize, out: &mut [u8]) -> usize
    ensures { Puts (dotted s.now) at out.old result out.new × (length (dotted s.now) ≤ 4 * length s.now) }
{
    let dot = [46];
    let mut t = s;
    let mut end = at;
    // By what is left, since a mark follows only where another octet does.
    while 0 < t.len() {
        let number = records_fields::octet_at(t, 0, 0) as u64;
        let rest = &t[1..];
        let mark = text_parts::part(&dot, 0, rest.len());
        end = octets_pieces::put_decimal_then(number, mark, end, out);
        t = rest;
    }
    end
}

// An address: one that is mapped dotted, any other in groups.
pub fn put_address(source: &[u8], at: usize, out: &mut [u8]) -> usize
    ensures { Puts (address source.now) at out.old result out.new × (length (address source.now) ≤ 21 * length source.now) × (length source.now ≤ 16 → length (address source.now) ≤ 39) }
{
    let mapped = [0, 0, 0, 0, 0, 0, 0, 0, 0, 0, 255, 255];
    if text_parts::same_octets(text_parts::part(source, 0, 12), &mapped) {
        return put_dotted(text_parts::skip(source, 12), at, out);
    }
    let mut t = source;
    let mut end = at;
    // By what is left: a group of two octets, and a mark where another group follows.
    while 1 < t.len() {
        end = put_group(t, end, out);
        t = &t[2..];
    }
    end
}
