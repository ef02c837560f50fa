// What a row's two numbers name in the lists beside the rows: whether refusal 28 is due.
#![tactic(auto)]

ghost use Rattle.std.specs.Prelude.{◌≡◌, false, not, eqb};
ghost use Rattle.octets.specs.Octets.{is_nothing};
ghost use Rattle.octets.specs.Framing.{is_whole};
ghost use Rattle.rows.specs.Lists.{body_or_empty, first_body, reported, set_in, named_by};
ghost use Rattle.rows_named.specs.code.Naming.{records_after, takes, passes_set};

// The list from the record at a place on.
pub fn record_at(list: &[u8], n: u32) -> &[u8]
    ensures { result.now ≡ records_after n list.now }
{
    let mut t = list;
    for _ in 0..n {
        if t.is_empty() {
            return t;
        }
        t = records_fields::after_record(t);
    }
    t
}

// Whether a list begins with a whole record.
pub fn is_whole(t: &[u8]) -> bool
    ensures { result ≡ is_whole t.now }
{
    4 + records_fields::size(t) <= t.len()
}

// The body of the record at the front; of one that runs past the end nothing is there.
pub fn front_body(t: &[u8]) -> &[u8]
    ensures { result.now ≡ body_or_empty (first_body t.now) }
{
    if is_whole(t) {
        records_fields::body(t)
    } else {
        &[]
    }
}

// Whether an identifier is of SPF.
fn is_spf(body: &[u8]) -> bool
    ensures { result ≡ eqb (reported body.now).kind 0 }
{
    records_fields::octet_at(body, 0, 255) == 0
}

// Whether document 01 takes an identifier, its domain aside.
fn is_taken(index: usize, seen: bool, body: &[u8]) -> bool
    ensures { result ≡ takes index seen (reported body.now) }
{
    index < 16
        && records_fields::octet_at(body, 0, 255) < 2
        && records_fields::octet_at(body, 1, 255) < 3
        && !(is_spf(body) && seen)
}

// Whether a set is one that document 01 would not refuse 3 or 4.
pub fn is_set(body: &[u8]) -> bool
    ensures { result ≡ passes_set 0 false (set_in body.now) }
{
    let mut t = body;
    let mut index: usize = 0;
    let mut seen = false;
    while !t.is_empty() {
        let first = front_body(t);
        if !is_taken(index, seen, first) {
            return false;
        }
        seen = seen || is_spf(first);
        t = records_fields::after_record(t);
        index += 1;
    }
    true
}

// Whether both numbers name something: 28 is due where they don't.
pub fn is_named<'a>(authors: &'a [u8], sets: &'a [u8], author: u32, set: u32) -> bool
    ensures { result ≡ not (is_nothing (named_by (record { authors = authors.now; sets = sets.now }) author set)) }
{
    // The sets are not gone through where the author is not there.
    if !is_whole(record_at(authors, author)) {
        return false;
    }
    let named = record_at(sets, set);
    is_whole(named) && is_set(records_fields::body(named))
}
