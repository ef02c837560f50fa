// Classes of octets.
#![tactic(auto)]

ghost use Rattle.std.specs.Prelude.{◌≡◌};
ghost use Rattle.octets.specs.Octets.{between, is_letter, is_digit, is_blank};
ghost use Rattle.text_class.specs.code.Classes.{in_class};

// A class of octets.
#[derive(Clone, Copy)]
pub enum Class {
    // space and tab
    Blank,
    Letter,
    // letters and digits
    Alphanumeric,
    // from one octet to another
    Between(u8, u8),
    // letters, digits, and three marks
    Word(u8, u8, u8),
    // all but one
    Not(u8),
}

// Whether an octet is one from `low` to `high`.
#[tactic(auto, unfolding(octets::specs::Octets::between))]
pub fn is_between(b: u8, low: u8, high: u8) -> bool
    ensures { result ≡ between low high b }
{
    low <= b && b <= high
}

// Whether an octet is a letter.
#[tactic(auto, unfolding(octets::specs::Octets::is_letter, octets::specs::Octets::between))]
pub fn is_letter(b: u8) -> bool
    ensures { result ≡ is_letter b }
{
    b.is_ascii_alphabetic()
}

// Whether an octet is a digit.
#[tactic(auto, unfolding(octets::specs::Octets::is_digit, octets::specs::Octets::between))]
pub fn is_digit(b: u8) -> bool
    ensures { result ≡ is_digit b }
{
    b.is_ascii_digit()
}

// Whether an octet is space or tab.
#[tactic(auto, unfolding(octets::specs::Octets::is_blank, octets::specs::Octets::one_of, octets::specs::Octets::any))]
pub fn is_blank(b: u8) -> bool
    ensures { result ≡ is_blank b }
{
    matches!(b, b' ' | b'\t')
}

// Whether an octet is in a class.
pub fn is_in(b: u8, class: Class) -> bool
    ensures { result ≡ in_class class b }
{
    match class {
        Class::Blank => is_blank(b),
        Class::Letter => is_letter(b),
        Class::Alphanumeric => is_letter(b) || is_digit(b),
        Class::Between(low, high) => is_between(b, low, high),
        Class::Word(x, y, z) => is_word(b, x, y, z),
        Class::Not(mark) => b != mark,
    }
}

// Whether an octet is a letter, a digit or one of three marks.
#[tactic(auto, unfolding(octets::specs::Octets::one_of, octets::specs::Octets::any))]
fn is_word(b: u8, x: u8, y: u8, z: u8) -> bool
    ensures { result ≡ in_class (Class.Word x y z) b }
{
    is_letter(b) || is_digit(b) || b == x || b == y || b == z
}
