// The fields of a sheet's record.
#![tactic(auto, unfolding(records::specs::Sheet::status_of, crate::specs::code::Layout::status_or_error, crate::specs::code::Layout::status_in))]

ghost use Rattle.std.specs.Prelude.{◌≡◌, ◌≤◌, get_or};
ghost use Rattle.octets.specs.Framing.{size_of, body_of, after_record};
ghost use Rattle.records_fields.specs.code.Layout.{name_in, status_in, bytes_in};

use txt::Status;

// An octet of a text, or another where there is none.
pub fn octet_at(s: &[u8], at: usize, other: u8) -> u8
    ensures { result ≡ get_or s.now at other }
{
    s.get(at).copied().unwrap_or(other)
}

// The length of a record's body.
pub fn size(t: &[u8]) -> usize
    ensures { (result ≡ size_of t.now) × (result ≤ 65535) }
{
    let high = usize::from(octet_at(t, 2, 0));
    let low = usize::from(octet_at(t, 3, 0));
    high * 256 + low
}

// A record's body, as far as the text goes.
pub fn body(t: &[u8]) -> &[u8]
    ensures { result.now ≡ body_of t.now }
{
    text_parts::part(t, 4, 4 + size(t))
}

// What follows a record.
pub fn after_record(t: &[u8]) -> &[u8]
    ensures { result.now ≡ after_record t.now }
{
    text_parts::skip(t, 4 + size(t))
}

// The name in an answer's body, without a final dot.
pub fn name_in(body: &[u8]) -> &[u8]
    ensures { result.now ≡ name_in body.now }
{
    let name = text_parts::part(body, 2, 2 + usize::from(octet_at(body, 1, 0)));
    domain_taken::without_dot(name)
}

// The status of an answer's body; error for an empty one.
pub fn status(body: &[u8]) -> Status
    ensures { result ≡ status_in body.now }
{
    match octet_at(body, 0, 2) {
        0 => Status::Records,
        1 => Status::NoRecords,
        _ => Status::Error,
    }
}

// The bytes of an answer's body.
pub fn bytes(body: &[u8]) -> &[u8]
    ensures { result.now ≡ bytes_in body.now }
{
    text_parts::skip(body, 2 + usize::from(octet_at(body, 1, 0)))
}
