// The report addresses of a rua text.
#![tactic(auto)]

ghost use Rattle.std.specs.Prelude.{◌≡◌};
ghost use Rattle.policy.specs.Reports.{uri_octet, uri_octets, after_scheme, valid_entry, has_valid_entry};

use text_class::Class;

// Whether a comma list has a valid entry.
pub fn has_valid_entry(list: &[u8]) -> bool
    ensures { result ≡ has_valid_entry list.now }
{
    list.split(|b| *b == b',')
        .any(|entry| is_valid_entry(text_front::trim(entry)))
}

// A scheme, `:`, and a URI's octets.
#[tactic(auto, using(crate::proofs::ReportLaws::entry_none, crate::proofs::ReportLaws::entry_first))]
pub fn is_valid_entry(entry: &[u8]) -> bool
    ensures { result ≡ valid_entry entry.now }
{
    match entry {
        [first, rest @ ..] => {
            text_class::is_letter(*first)
                && is_after_scheme(text_front::after(rest, Class::Word(b'+', b'-', b'.')))
        }
        [] => false,
    }
}

// `:`, and one or more of a URI's octets.
#[tactic(auto, using(crate::proofs::ReportLaws::scheme_none, crate::proofs::ReportLaws::scheme_first))]
fn is_after_scheme(s: &[u8]) -> bool
    ensures { result ≡ after_scheme s.now }
{
    match s {
        [first, rest @ ..] => *first == b':' && !rest.is_empty() && is_uri(rest),
        [] => false,
    }
}

// A URI's octets, or `%` with two hex digits, to the end.
fn is_uri(s: &[u8]) -> bool
    ensures { result ≡ uri_octets s.now }
{
    let mut owed = 0u8;
    for x in s {
        if 0 < owed {
            if !x.is_ascii_hexdigit() {
                return false;
            }
            owed -= 1;
        } else if *x == b'%' {
            owed = 2;
        } else if !is_uri_octet(*x) {
            return false;
        }
    }
    owed == 0
}

// An unreserved or reserved octet of RFC 3986, but `!`.
#[tactic(auto, unfolding(policy::specs::Reports::uri_octet, octets::specs::Octets::octets))]
fn is_uri_octet(b: u8) -> bool
    ensures { result ≡ uri_octet b }
{
    text_class::is_letter(b)
        || text_class::is_digit(b)
        || text_front::is_one_of(b, b"-._~:/?#[]@$&'()*+,;=")
}
