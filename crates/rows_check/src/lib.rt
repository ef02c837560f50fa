// What is done with a day's list by value, its rows apart: it is named, and a verdict is checked before a row is looked for.
#![tactic(auto)]

ghost use Rattle.std.specs.Prelude.{◌≡◌};
ghost use Rattle.octets.specs.Refusing.{refusal};
ghost use Rattle.rows.specs.Rows.{is_judged, seen_in, serves};
ghost use Rattle.rows_day.specs.Day.{domain_in};
ghost use Rattle.rows_check.specs.code.Check.{named, checked, refusal_in};

use octets::Refusal;
use rows::{Entry, Finding, Seen};
use rows_day::{Changed, DayList};

// The numbers of the results that count, and of the one disposition that applies no policy.
const PASS: u8 = 1;

const FAIL: u8 = 2;

const DEFER: u8 = 3;

// A refusal of that number, whose place is 0.
fn refusal(number: u8) -> Refusal
    ensures { result ≡ refusal number 0 }
{
    Refusal { number, place: 0 }
}

// A list, and what a call answers: why it was refused; number 0 is no refusal.
pub fn answered(list: DayList, answer: Result<(), Refusal>) -> Changed
    ensures { result ≡ record { list = list; refusal = refusal_in answer } }
{
    match answer {
        Ok(()) => Changed {
            list,
            refusal: refusal(0),
        },
        Err(refusal) => Changed { list, refusal },
    }
}

// The list that is named for a policy domain, or refusal 11.
pub fn named(domain: &[u8]) -> Result<DayList, Refusal>
    ensures { result ≡ named domain.now }
{
    let d = domain_taken::without_dot(domain);
    if !domain_rule::is_domain(d) {
        return Err(refusal(11));
    }
    let mut name = [0u8; 253];
    // It fits: no domain is longer.
    let _ = octets_write::write_lower(d, &mut name);
    Ok(DayList {
        cleared: 1,
        domain: name,
        length: d.len() as u16,
    })
}

// Whether a list was cleared, and named for a domain.
fn serves(list: DayList, domain: &[u8]) -> bool
    ensures { result ≡ serves (domain_in list) domain.now }
{
    let name = text_parts::part(&list.domain, 0, usize::from(list.length));
    list.cleared != 0 && octets_write::same_text(domain_taken::without_dot(domain), name)
}

// Whether a finding is a pass or fail.
fn is_judged(f: Finding) -> bool
    ensures { result ≡ is_judged f }
{
    f.disposition < DEFER && (f.result == PASS || f.result == FAIL)
}

// What refuses a verdict before a row is looked for: 14, 27 or 28.
pub fn check<'a>(
    list: DayList,
    entry: Entry,
    domain: &'a [u8],
    authors: &'a [u8],
    sets: &'a [u8],
) -> Result<(), Refusal>
    ensures { result ≡ checked (domain_in list) entry (record { authors = authors.now; sets = sets.now }) domain.now }
{
    if !is_judged(entry.finding) {
        Err(refusal(14))
    } else if !serves(list, domain) {
        Err(refusal(27))
    } else if !rows_named::is_named(authors, sets, entry.author, entry.set) {
        Err(refusal(28))
    } else {
        Ok(())
    }
}

// What is gathered of an entry.
pub fn seen_in(entry: Entry) -> Seen
    ensures { result ≡ seen_in entry }
{
    // A variable, since the check takes no array straight from one struct into another.
    let source = entry.source;
    Seen {
        source,
        disposition: entry.finding.disposition,
        dkim: u8::from(entry.finding.dkim != 0),
        spf: u8::from(entry.finding.spf != 0),
        spare: 0,
        author: entry.author,
        set: entry.set,
    }
}
