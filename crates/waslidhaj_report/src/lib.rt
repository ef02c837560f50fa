// For programs in other languages: an aggregate report, and its mail subject.
#![tactic(auto)]

ghost use Rattle.std.specs.Prelude.{◌≡◌};
ghost use Rattle.octets.specs.Lent.{WritesByNumbers};
ghost use Rattle.publishing.specs.Numbers.{settings_in};
ghost use Rattle.rows_day.specs.Day.{listing};
ghost use Rattle.report.specs.Report.{report};
ghost use Rattle.report.specs.Subject.{subject};
ghost use Rattle.rows_gather.specs.code.Gathered.{rows_in};

use octets::WrittenNumbers;
use publishing::RecordNumbers;
use rows_day::DayList;
use rows_gather::Gathered;

// A report into the front of lent memory, which none of the texts overlaps (the C header's `waslidhaj_report` sees to it).
#[unsafe(no_mangle)]
pub extern "C" fn waslidhaj_report_apart<'a>(
    list: DayList,
    gathered: Gathered,
    numbers: RecordNumbers,
    authors: &'a [u8],
    sets: &'a [u8],
    organization: &'a [u8],
    email: &'a [u8],
    contact: &'a [u8],
    id: &'a [u8],
    begin: u64,
    end: u64,
    out: &mut [u8],
) -> WrittenNumbers
    ensures { WritesByNumbers (report (listing list (rows_in gathered)) (record { authors = authors.now; sets = sets.now }) (record { organization = organization.now; email = email.now; contact = contact.now; id = id.now; begin = begin; end = end }) (settings_in numbers)) out.old result out.new }
{
    let settings = publishing_numbers::settings_in(numbers);
    let written = report_write::write_report(
        list,
        settings,
        gathered.count,
        &gathered.octets,
        authors,
        sets,
        organization,
        email,
        contact,
        id,
        begin,
        end,
        out,
    );
    octets_write::number_written(written)
}

// A report's mail subject into the front of lent memory, likewise.
#[unsafe(no_mangle)]
pub extern "C" fn waslidhaj_subject_apart<'a>(
    receiver: &'a [u8],
    domain: &'a [u8],
    id: &'a [u8],
    out: &mut [u8],
) -> WrittenNumbers
    ensures { WritesByNumbers (subject receiver.now domain.now id.now) out.old result out.new }
{
    octets_write::number_written(report_subject::write_subject(receiver, domain, id, out))
}
