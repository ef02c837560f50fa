// What a sheet's record is, by its mark and its body.
#![tactic(auto)]

ghost use Rattle.std.specs.Prelude.{◌≡◌, not};
ghost use Rattle.octets.specs.Octets.{octets, is_nothing};
ghost use Rattle.records.specs.Sheet.{entry_in, entry_of};
ghost use Rattle.records_read.specs.code.Kinds.{record_kind};

// What a record is.
#[derive(Clone, Copy)]
pub enum RecordKind {
    Author,
    Identifier,
    Answer,
    Wrong,
}

// Whether a body is that of an answer.
fn is_answer(body: &[u8]) -> bool
    ensures { result ≡ not (is_nothing (entry_in (octets "AN") body.now)) }
{
    let status = records_fields::octet_at(body, 0, 3);
    let end = 2 + usize::from(records_fields::octet_at(body, 1, 0));
    if 2 < status || body.len() < end || !domain_rule::is_domain(records_fields::name_in(body)) {
        return false;
    }
    status == 0 || body.len() == end
}

// What a record is.
pub fn read_kind(t: &[u8]) -> RecordKind
    ensures { result ≡ record_kind (entry_of t.now) }
{
    let content = records_fields::body(t);
    let mark = text_parts::part(t, 0, 2);
    if content.len() < 2 {
        RecordKind::Wrong
    } else if text_parts::same_octets(mark, b"AU") {
        RecordKind::Author
    } else if text_parts::same_octets(mark, b"ID") {
        RecordKind::Identifier
    } else if text_parts::same_octets(mark, b"AN") && is_answer(content) {
        RecordKind::Answer
    } else {
        RecordKind::Wrong
    }
}
