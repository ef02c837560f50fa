// Texts that are put together in lent memory: constant pieces of one table by their numbers, and any other text or number between them.
#![tactic(auto)]

ghost use Rattle.std.specs.Prelude.{◌≡◌, ◌++◌, map};
ghost use mathlib.Core.List.{flatten};
ghost use Rattle.octets.specs.Octets.{lower};
ghost use Rattle.octets.specs.Decimal.{decimal};
ghost use Rattle.octets_pieces.specs.code.Pieces.{piece, pieces};
ghost use Rattle.octets_pieces.specs.code.Putting.{Puts};

// The piece of that number: a table's texts stand one after the other, and `begins` has where each begins and where the last ends.
pub fn find_piece<'a>(texts: &'a [u8], begins: &[u16], n: u8) -> &'a [u8]
    ensures { result.now ≡ piece texts.now begins.now n }
{
    let i = usize::from(n);
    if i + 1 < begins.len() {
        text_parts::part(texts, usize::from(begins[i]), usize::from(begins[i + 1]))
    } else {
        &[]
    }
}

// A text from a place of lent memory on, and the place after it, counted on where there is no room.
pub fn put(text: &[u8], at: usize, out: &mut [u8]) -> usize
    ensures { Puts text.now at out.old result out.new }
{
    octets_append::append(text, at, out);
    at.wrapping_add(text.len())
}

// The same of a text in lower case.
pub fn put_lower(text: &[u8], at: usize, out: &mut [u8]) -> usize
    ensures { Puts (lower text.now) at out.old result out.new }
{
    octets_append::append_lower(text, at, out);
    at.wrapping_add(text.len())
}

// The same of a number in decimal.
pub fn put_decimal(x: u64, at: usize, out: &mut [u8]) -> usize
    ensures { Puts (decimal x) at out.old result out.new }
{
    octets_append::append_decimal(x, at, out);
    at.wrapping_add(octets_append::decimal_length(x))
}

// Texts one after the other from a place of lent memory on, and the place after the last.
pub fn put_all(texts: &[&[u8]], at: usize, out: &mut [u8]) -> usize
    ensures { Puts (flatten (map (λ t. t.now) texts.now)) at out.old result out.new }
{
    let mut end = at;
    for text in texts {
        end = put(text, end, out);
    }
    end
}

// The pieces of a list of numbers from a place of lent memory on, and the place after them.
pub fn put_pieces(texts: &[u8], begins: &[u16], list: &[u8], at: usize, out: &mut [u8]) -> usize
    ensures { Puts (pieces texts.now begins.now list.now) at out.old result out.new }
{
    let mut end = at;
    for &n in list {
        end = put(find_piece(texts, begins, n), end, out);
    }
    end
}

// A text and what follows it from a place of lent memory on, and the place after both.
pub fn put_then(text: &[u8], rest: &[u8], at: usize, out: &mut [u8]) -> usize
    ensures { Puts (text.now ++ rest.now) at out.old result out.new }
{
    let middle = put(text, at, out);
    put(rest, middle, out)
}

// A text in lower case, and what follows it.
pub fn put_lower_then(text: &[u8], rest: &[u8], at: usize, out: &mut [u8]) -> usize
    ensures { Puts (lower text.now ++ rest.now) at out.old result out.new }
{
    let middle = put_lower(text, at, out);
    put(rest, middle, out)
}

// A number in decimal, and what follows it.
pub fn put_decimal_then(x: u64, rest: &[u8], at: usize, out: &mut [u8]) -> usize
    ensures { Puts (decimal x ++ rest.now) at out.old result out.new }
{
    let middle = put_decimal(x, at, out);
    put(rest, middle, out)
}
