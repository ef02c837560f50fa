// The tags of a policy text.
#![tactic(auto)]

ghost use Rattle.std.specs.Prelude.{◌≡◌};
ghost use Rattle.policy.specs.Tags.{is_version};
ghost use Rattle.policy_tags.specs.code.TagValues.{later_parts, value_of, is_value};
ghost use Rattle.policy_tags.specs.code.TagNames.{tag_value};

use text_class::Class;

// Where the parts after the first begin, where the text is a policy record.
pub fn later_parts(text: &[u8]) -> Option<usize>
    ensures { result ≡ later_parts text.now }
{
    let first = text_front::front(text, Class::Not(b';'));
    if is_version(first) {
        Some(first.len() + 1)
    } else {
        None
    }
}

// Whether the first part of a text is that of a policy record.
fn is_version(part: &[u8]) -> bool
    ensures { result ≡ is_version part.now }
{
    let trimmed = text_front::trim_end(part);
    octets_write::same_text(text_front::front(trimmed, Class::Letter), b"v")
        && text_parts::same_octets(value_of(trimmed), b"DMARC1")
}

// The value of a part, trimmed, that is a well-formed tag; empty where it is none, as docs/CLAIMS.md names it: no such value is empty.
pub fn tag_value(part: &[u8]) -> &[u8]
    ensures { result.now ≡ tag_value part.now }
{
    let value = value_of(part);
    if text_front::front_length(part, Class::Letter) != 0 && is_value(value) {
        value
    } else {
        &[]
    }
}

// What follows letters, blanks, `=` and blanks; empty where there is no `=`.
fn value_of(part: &[u8]) -> &[u8]
    ensures { result.now ≡ value_of part.now }
{
    let rest = text_front::after(text_front::after(part, Class::Letter), Class::Blank);
    match rest {
        [first, value @ ..] => {
            if *first == b'=' {
                text_front::after(value, Class::Blank)
            } else {
                &[]
            }
        }
        [] => &[],
    }
}

// One or more octets 32 to 126.
#[tactic(auto, using(octets::proofs::PartLaws::all_front), unfolding(crate::specs::code::TagValues::is_value))]
fn is_value(value: &[u8]) -> bool
    ensures { result ≡ is_value value.now }
{
    !value.is_empty() && value.len() <= text_front::front_length(value, Class::Between(32, 126))
}
