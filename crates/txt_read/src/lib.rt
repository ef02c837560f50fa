// An answer's octets: whether they can be read, and the text of one record.
#![tactic(auto)]

ghost use Rattle.std.specs.Prelude.{◌≡◌};
ghost use Rattle.txt.specs.Answers.{rdata_text, texts_of, texts_read};
ghost use Rattle.txt_read.specs.code.Steps.{is_there, front_of};

// The most that one answer has, and the scratch that is to be lent for it.
const ANSWER_OCTETS: usize = 4096;

const ANSWER_RECORDS: usize = 16;

// The record at the front.
pub fn read_front(bytes: &[u8]) -> Option<usize>
    ensures { result ≡ front_of bytes.now }
{
    if bytes.len() < 4 || bytes[0] != b'T' || bytes[1] != b'X' {
        return None;
    }
    let n = usize::from(bytes[2]) * 256 + usize::from(bytes[3]);
    if n <= bytes.len() - 4 { Some(n) } else { None }
}

// Whether RDATA is character-strings, at least one, that fill it.
fn is_text(rdata: &[u8]) -> bool
    ensures { result ≡ is_there (rdata_text rdata.now) }
{
    if rdata.is_empty() {
        return false;
    }
    let mut rest = rdata;
    while let [size, ..] = rest {
        let next = usize::from(*size) + 1;
        if rest.len() < next {
            return false;
        }
        rest = &rest[next..];
    }
    true
}

// Whether octets are at most so many records and nothing else.
fn are_records(bytes: &[u8], budget: usize) -> bool
    ensures { result ≡ is_there (texts_of budget bytes.now) }
{
    if bytes.is_empty() {
        return true;
    }
    if budget == 0 {
        return false;
    }
    let Some(n) = read_front(bytes) else {
        return false;
    };
    let end = n + 4;
    // The rest of the answer is read as an answer again.
    is_text(&bytes[4..end]) && are_records(&bytes[end..], budget - 1)
}

// Whether an answer's octets can be read within the limits.
pub fn is_readable(bytes: &[u8]) -> bool
    ensures { result ≡ is_there (texts_read bytes.now) }
{
    bytes.len() <= ANSWER_OCTETS && are_records(bytes, ANSWER_RECORDS)
}
