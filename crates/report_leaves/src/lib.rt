// One octet of a text, an id or a name of an aggregate report, by value: what it says, and how far the value is after it.
#![tactic(auto)]

ghost use Rattle.std.specs.Prelude.{◌≡◌, ◌-◌};
ghost use Rattle.parsing_steps.specs.Stepping.{step_of};
ghost use Rattle.report_form.specs.ReportForm.{Said};
ghost use Rattle.report_form.specs.code.ReportReading.{text_octet, spelled_octet};
ghost use Rattle.report_states.specs.Standing.{in_entity, text_left, id_left};
ghost use Rattle.report_leaves.specs.code.Leaves.{said, entity_meant, text_at, NameTurns};

use report_steps::{Leaf, Refusal};

// How many octets of a text are read, and how far the open entity is, 0 for none.
#[derive(Clone, Copy)]
pub struct TextPlace {
    pub length: u16,
    pub at: u8,
}

// How many octets of a domain or selector are read, and how many of them of its last label.
#[derive(Clone, Copy)]
pub struct NamePlace {
    pub length: u16,
    pub label: u8,
}

// Whether an octet can stand in a text as it is, or begin an entity there.
#[tactic(auto, using(crate::proofs::LeafLaws::text_same))]
fn is_text_octet(x: u8) -> bool
    ensures { result ≡ text_octet x }
{
    text_class::is_between(x, b' ', b'~') && x != b'<' && x != b'>'
}

// An octet within an entity: where it is then, 0 behind its end; none where it is refused.
fn step_entity(at: u8, x: u8) -> Option<u8>
    ensures { step_of (in_entity {R = Said} (at - 1)) x ≡ entity_meant result }
{
    match (at, x) {
        (0 | 1, b'a') => Some(2),
        (0 | 1, b'l' | b'g') => Some(5),
        (2, b'm') => Some(3),
        (3, b'p') => Some(4),
        (4, b';') => Some(0),
        (5, b't') => Some(4),
        _ => None,
    }
}

// An octet of a text behind `length` octets, within an entity or not.
pub fn step_text(length: u16, at: u8, x: u8) -> Result<Leaf<TextPlace>, Refusal>
    ensures { step_of (text_left {R = Said} length at) x ≡ said text_at tt result }
{
    if at != 0 {
        return match step_entity(at, x) {
            Some(next) => Ok(Leaf::More(TextPlace { length, at: next })),
            None => Err(Refusal::Outside),
        };
    }
    if x == b'<' {
        return if length != 0 {
            Ok(Leaf::Ended)
        } else {
            Err(Refusal::Outside)
        };
    }
    if length < 4096 && is_text_octet(x) {
        Ok(Leaf::More(TextPlace {
            length: length + 1,
            at: u8::from(x == b'&'),
        }))
    } else {
        Err(Refusal::Outside)
    }
}

// An octet of an id behind `length` octets: how many there are then.
pub fn step_id(length: u16, x: u8) -> Result<Leaf<u16>, Refusal>
    ensures { step_of (id_left {R = Said} length) x ≡ said id_left tt result }
{
    if x == b'<' {
        return if length != 0 {
            Ok(Leaf::Ended)
        } else {
            Err(Refusal::Outside)
        };
    }
    if length < 64 && x.is_ascii_alphanumeric() {
        Ok(Leaf::More(length + 1))
    } else {
        Err(Refusal::Outside)
    }
}

// Whether an octet can stand in a label in lower case.
#[tactic(auto, using(crate::proofs::LeafLaws::spelled_same))]
fn is_spelled(x: u8) -> bool
    ensures { result ≡ spelled_octet x }
{
    x.is_ascii_lowercase() || x.is_ascii_digit() || x == b'-' || x == b'_'
}

// An octet of a domain or selector behind `length` octets, `label` of them of its last label: a dot stands behind a label, and has
// room for an octet after it.
pub fn step_name(length: u16, label: u8, x: u8) -> Result<Leaf<NamePlace>, Refusal>
    ensures { NameTurns length label x result }
{
    if x == b'<' {
        return if label != 0 {
            Ok(Leaf::Ended)
        } else {
            Err(Refusal::Outside)
        };
    }
    if x == b'.' {
        return if label != 0 && length < 252 {
            Ok(Leaf::More(NamePlace {
                length: length + 1,
                label: 0,
            }))
        } else {
            Err(Refusal::Outside)
        };
    }
    if length < 253 && label < 63 && is_spelled(x) {
        Ok(Leaf::More(NamePlace {
            length: length + 1,
            label: label + 1,
        }))
    } else {
        Err(Refusal::Outside)
    }
}
