// The texts of an aggregate report with their entities, from a place of lent memory on; and what refusal 19 asks.
#![tactic(auto)]

ghost use Rattle.std.specs.Prelude.{◌≡◌, ◌++◌};
ghost use Rattle.octets_pieces.specs.code.Putting.{Puts};
ghost use Rattle.report.specs.Xml.{entity, with_entities};
ghost use Rattle.report.specs.Report.{good_text};

use text_class::Class;

// An octet of a text: `&`, `<` and `>` as entities.
fn put_entity(b: u8, at: usize, out: &mut [u8]) -> usize
    ensures { Puts (entity b) at out.old result out.new }
{
    let itself = [b];
    let text: &[u8] = match b {
        b'&' => b"&amp;",
        b'<' => b"&lt;",
        b'>' => b"&gt;",
        _ => &itself,
    };
    octets_pieces::put(text, at, out)
}

// A text with its entities, and what follows it.
pub fn put_escaped_then(text: &[u8], rest: &[u8], at: usize, out: &mut [u8]) -> usize
    ensures { Puts (with_entities text.now ++ rest.now) at out.old result out.new }
{
    let mut end = at;
    for &b in text {
        end = put_entity(b, end, out);
    }
    octets_pieces::put(rest, end, out)
}

// Whether a text may be written: refusal 19 is due where it may not.
pub fn is_text(text: &[u8]) -> bool
    ensures { result ≡ good_text text.now }
{
    text.len() <= 4096 && text.len() <= text_front::front_length(text, Class::Between(32, 126))
}
