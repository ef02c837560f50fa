// The domain rule.
#![tactic(auto)]

ghost use Rattle.std.specs.Prelude.{◌≡◌, true, not, ◌<◌, ◌≤◌, eqb, length};
ghost use Rattle.octets.specs.Octets.{all, front};
ghost use Rattle.domain.specs.Domain.{labels, good_label, is_domain, label_count};
ghost use Rattle.domain_rule.specs.code.Checking.{checked};
ghost use Rattle.domain_rule.specs.code.Scanning.{Classes, some_label, short_label};

use domain::{Labels, Octet};
use text_class::Class;

// The class of each octet in a domain, 16 to a row: 0 in a label, 1 a dot, 2 another.
const CLASSES: [u8; 256] = *b"\
    \x02\x02\x02\x02\x02\x02\x02\x02\x02\x02\x02\x02\x02\x02\x02\x02\
    \x02\x02\x02\x02\x02\x02\x02\x02\x02\x02\x02\x02\x02\x02\x02\x02\
    \x02\x02\x02\x02\x02\x02\x02\x02\x02\x02\x02\x02\x02\x00\x01\x02\
    \x00\x00\x00\x00\x00\x00\x00\x00\x00\x00\x02\x02\x02\x02\x02\x02\
    \x02\x00\x00\x00\x00\x00\x00\x00\x00\x00\x00\x00\x00\x00\x00\x00\
    \x00\x00\x00\x00\x00\x00\x00\x00\x00\x00\x00\x02\x02\x02\x02\x00\
    \x02\x00\x00\x00\x00\x00\x00\x00\x00\x00\x00\x00\x00\x00\x00\x00\
    \x00\x00\x00\x00\x00\x00\x00\x00\x00\x00\x00\x02\x02\x02\x02\x02\
    \x02\x02\x02\x02\x02\x02\x02\x02\x02\x02\x02\x02\x02\x02\x02\x02\
    \x02\x02\x02\x02\x02\x02\x02\x02\x02\x02\x02\x02\x02\x02\x02\x02\
    \x02\x02\x02\x02\x02\x02\x02\x02\x02\x02\x02\x02\x02\x02\x02\x02\
    \x02\x02\x02\x02\x02\x02\x02\x02\x02\x02\x02\x02\x02\x02\x02\x02\
    \x02\x02\x02\x02\x02\x02\x02\x02\x02\x02\x02\x02\x02\x02\x02\x02\
    \x02\x02\x02\x02\x02\x02\x02\x02\x02\x02\x02\x02\x02\x02\x02\x02\
    \x02\x02\x02\x02\x02\x02\x02\x02\x02\x02\x02\x02\x02\x02\x02\x02\
    \x02\x02\x02\x02\x02\x02\x02\x02\x02\x02\x02\x02\x02\x02\x02\x02";

// The number of labels, where no octet is wrong and no label empty: from the end on, with no branch for each octet.
fn scan(s: &[u8], classes: &[u8; 256]) -> Option<Labels>
    requires { Classes classes.now × (length s.now ≤ 253) }
    ensures { (n : Labels) → result ≡ Some n → (all some_label (labels s.now) ≡ true) × (n.0 ≡ label_count s.now) }
{
    let mut wrong = 0;
    let mut dots = 0;
    let mut after = 1;
    for i in (0..s.len()).rev() {
        let class = usize::from(classes[usize::from(s[i])]);
        wrong += (class + after) / 2;
        dots += class;
        after = class;
    }
    if wrong + after == 0 {
        Some(Labels(dots + 1))
    } else {
        None
    }
}

// Whether no label is of more than 63 octets; a text that is no longer needs no look.
fn is_short(s: &[u8]) -> bool
    requires { length s.now ≤ 253 }
    ensures { result ≡ true → all short_label (labels s.now) ≡ true }
{
    if s.len() <= 63 {
        return true;
    }
    let mut over: usize = 0;
    let mut run: usize = 0;
    for i in (0..s.len()).rev() {
        run = if s[i] == b'.' { 0 } else { run + 1 };
        over += run / 64;
    }
    over == 0
}

// Whether a label is of 1 to 63 letters, digits, - and _.
fn is_label(s: &[u8]) -> bool
    ensures { result ≡ good_label s.now }
{
    text_front::is_made_of(s, Class::Word(b'-', b'_', b'_'), 63)
}

// The domain rule, label by label.
fn check_labels(s: &[u8]) -> Result<Labels, Octet>
    ensures { result ≡ checked s.now }
{
    let mut begin = 0;
    let mut labels = 1;
    loop {
        let rest = &s[begin..];
        let size = text_front::find_octet(rest, b'.');
        if !is_label(&rest[..size]) {
            return Err(Octet(begin));
        }
        if size == rest.len() {
            break;
        }
        begin += size + 1;
        labels += 1;
    }
    if s.len() <= 253 {
        Ok(Labels(labels))
    } else {
        Err(Octet(253))
    }
}

// The domain rule, by its table. A text that breaks it is gone through again, for the place.
pub fn check(s: &[u8]) -> Result<Labels, Octet>
    ensures { result ≡ checked s.now }
{
    if 253 < s.len() {
        return check_labels(s);
    }
    match scan(s, &CLASSES) {
        Some(labels) if is_short(s) => Ok(labels),
        _ => check_labels(s),
    }
}

// Whether a text keeps the domain rule.
pub fn is_domain(s: &[u8]) -> bool
    ensures { result ≡ is_domain s.now }
{
    check(s).is_ok()
}
