// Refusal 8: the first wrong record of a sheet.
#![tactic(auto)]

ghost use Rattle.std.specs.Prelude.{◌≡◌, ◌≤◌, length, Option};
ghost use Rattle.octets.specs.Refusing.{refusal, or_refuse};
ghost use Rattle.records.specs.Sheet.{Entry, entry_of, answered_before};
ghost use Rattle.records_fields.specs.code.Layout.{listed, Checks};
ghost use Rattle.records_read.specs.code.Kinds.{record_kind};
ghost use Rattle.records_check.specs.code.Scanning.{names_before, phase_read, phase_entered, next_as};

use records::Phase;
use records_read::RecordKind;

// The most octets that a sheet has.
const SHEET_OCTETS: usize = 65536;

// Whether a record answers a name that one of so many records answers.
fn is_answered<'a>(kind: RecordKind, records: usize, t: &'a [u8], sheet: &'a [u8]) -> bool
    requires kind_value { kind ≡ record_kind (entry_of t.now) }
    requires sheet_len { length (listed records sheet.now) ≡ records }
    ensures { (e : Entry) → entry_of t.now ≡ Some e → result ≡ answered_before (names_before records sheet.now) e }
{
    let RecordKind::Answer = kind else {
        return false;
    };
    let name = records_fields::name_in(records_fields::body(t));
    !records_find::find(records, name, sheet).is_empty()
}

// What may come after a record of a kind.
fn next_phase(phase: Phase, kind: RecordKind, place: usize) -> Result<Phase, usize>
    ensures { (o : Option Entry) → kind ≡ record_kind o → next_as result ≡ or_refuse (phase_read phase o) (refusal 8 place) }
{
    match (kind, phase) {
        (RecordKind::Author, Phase::Author) => Ok(Phase::Identifiers),
        (RecordKind::Identifier, Phase::Identifiers) => Ok(Phase::Identifiers),
        (RecordKind::Answer, Phase::Identifiers) => Ok(Phase::Answers),
        (RecordKind::Answer, Phase::Answers) => Ok(Phase::Answers),
        _ => Err(place),
    }
}

// Checks the record at the front of what follows so many records.
fn check_record<'a>(
    records: usize,
    phase: Phase,
    t: &'a [u8],
    sheet: &'a [u8],
) -> Result<Phase, usize>
    requires sheet_len { length (listed records sheet.now) ≡ records }
    requires t_in_bounds { length t.now ≤ length sheet.now }
    ensures { next_as result ≡ phase_entered records phase t.now sheet.now }
{
    let place = sheet.len() - t.len();
    let end = 4 + records_fields::size(t);
    if SHEET_OCTETS < place + end.min(t.len()) {
        return Err(SHEET_OCTETS);
    }
    if t.len() < end {
        return Err(place);
    }
    let kind = records_read::read_kind(t);
    if is_answered(kind, records, t, sheet) {
        return Err(place);
    }
    next_phase(phase, kind, place)
}

// Whether a sheet is whole, and how many records it has; or where it is broken.
pub fn check_sheet(sheet: &[u8]) -> Result<usize, usize>
    ensures { Checks sheet.now result }
{
    if sheet.is_empty() {
        return Err(0);
    }
    let mut t = sheet;
    let mut records = 0;
    let mut phase = Phase::Author;
    while !t.is_empty() {
        phase = check_record(records, phase, t, sheet)?;
        t = records_fields::after_record(t);
        records += 1;
    }
    Ok(records)
}
