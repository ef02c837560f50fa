// The front part of a text that is of a class, what follows it, and trimming.
#![tactic(auto)]

ghost use Rattle.std.specs.Prelude.{◌≡◌, not, eqb, length};
ghost use Rattle.octets.specs.Octets.{made_of, one_of, front, after, trim_end, trim};
ghost use Rattle.text_class.specs.code.Classes.{in_class};

use text_class::Class;

// How many octets of a class stand at the front of a text.
pub fn front_length(s: &[u8], class: Class) -> usize
    ensures { result ≡ length (front (in_class class) s.now) }
{
    for (i, x) in s.iter().enumerate() {
        if !text_class::is_in(*x, class) {
            return i;
        }
    }
    s.len()
}

// Where the first `mark` stands in a text, or the text's length.
pub fn find_octet(s: &[u8], mark: u8) -> usize
    ensures { result ≡ length (front (λ x. not (eqb x mark)) s.now) }
{
    front_length(s, Class::Not(mark))
}

// Whether an octet is one of a text's.
#[tactic(auto, using(crate::proofs::MarkLaws::one_of_marks))]
pub fn is_one_of(b: u8, marks: &[u8]) -> bool
    ensures { result ≡ one_of marks.now b }
{
    marks.contains(&b)
}

// The longest front part of a text that is of a class.
pub fn front(s: &[u8], class: Class) -> &[u8]
    ensures { result.now ≡ front (in_class class) s.now }
{
    &s[..front_length(s, class)]
}

// And what follows it.
pub fn after(s: &[u8], class: Class) -> &[u8]
    ensures { result.now ≡ after (in_class class) s.now }
{
    text_parts::skip(s, front_length(s, class))
}

// Whether a text is of one to `most` octets, all of a class.
#[tactic(auto, using(octets::proofs::PartLaws::all_front), unfolding(octets::specs::Octets::made_of))]
pub fn is_made_of(s: &[u8], class: Class, most: usize) -> bool
    ensures { result ≡ made_of most (in_class class) s.now }
{
    !s.is_empty() && s.len() <= most && s.len() <= front_length(s, class)
}

// A text without the blanks at its end.
pub fn trim_end(s: &[u8]) -> &[u8]
    ensures { result.now ≡ trim_end s.now }
{
    let mut end = s.len();
    while 0 < end && text_class::is_blank(s[end - 1]) {
        end -= 1;
    }
    &s[..end]
}

// A text without the blanks at its ends.
pub fn trim(s: &[u8]) -> &[u8]
    ensures { result.now ≡ trim s.now }
{
    after(trim_end(s), Class::Blank)
}
