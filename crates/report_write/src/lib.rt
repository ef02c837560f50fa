// An aggregate report into the front of lent memory.
#![tactic(auto)]

ghost use Rattle.std.specs.Prelude.{◌≡◌, min};
ghost use mathlib.Core.List.{map, flatten};
ghost use Rattle.octets.specs.Lent.{WritesIf};
ghost use Rattle.octets_pieces.specs.code.Putting.{Puts};
ghost use Rattle.rows_day.specs.Day.{listing};
ghost use Rattle.report.specs.Report.{report};
ghost use Rattle.rows_gather.specs.code.Gathered.{row_of, rows_of};
ghost use Rattle.report_write.specs.code.Records.{counted_element, Short, AllShort, IsBrief, AllBrief, text_of, WritesBrief};

use octets::Refusal;
use policy::Settings;
use rows_day::DayList;

// The longest report: where there is so much room, none is counted first.
const LONGEST: usize = 2592802;

// The element of a row that has a count.
fn put_counted(row: &[u8], authors: &[u8], sets: &[u8], at: usize, out: &mut [u8]) -> usize
    ensures { Puts (counted_element (record { authors = authors.now; sets = sets.now }) (row_of row.now)) at out.old result out.new × Short (row_of row.now) × IsBrief (row_of row.now) }
{
    if rows_gather::number_at(row, 28) == 0 {
        at
    } else {
        report_rows::put_record(row, authors, sets, at, out)
    }
}

// The elements of so many rows.
fn put_records(
    count: usize,
    rows: &[u8],
    authors: &[u8],
    sets: &[u8],
    at: usize,
    out: &mut [u8],
) -> usize
    ensures { Puts (flatten (map (counted_element (record { authors = authors.now; sets = sets.now })) (rows_of count rows.now))) at out.old result out.new × AllShort (rows_of count rows.now) × AllBrief (rows_of count rows.now) }
{
    let mut t = rows;
    let mut end = at;
    for _ in 0..count {
        end = put_counted(t, authors, sets, end, out);
        t = text_parts::skip(t, 32);
    }
    end
}

// A report into the front of lent memory, and its length, counted on where there is no room.
fn put_report(
    domain: &[u8],
    s: Settings,
    count: usize,
    rows: &[u8],
    authors: &[u8],
    sets: &[u8],
    organization: &[u8],
    email: &[u8],
    contact: &[u8],
    id: &[u8],
    begin: u64,
    end: u64,
    out: &mut [u8],
) -> usize
    ensures { Puts (text_of domain.now s (record { authors = authors.now; sets = sets.now }) (record { organization = organization.now; email = email.now; contact = contact.now; id = id.now; begin = begin; end = end }) (rows_of count rows.now)) 0 out.old result out.new × AllShort (rows_of count rows.now) × AllBrief (rows_of count rows.now) }
{
    let first = octets_pieces::put(
        b"<?xml version=\"1.0\" encoding=\"UTF-8\"?><feedback xmlns=\"urn:ietf:params:xml:ns:dmarc-2.0\">",
        0,
        out,
    );
    let second = report_head::put_metadata(
        organization,
        email,
        contact,
        id,
        begin,
        end,
        first,
        out,
    );
    let third = report_head::put_published(domain, s, second, out);
    let last = put_records(count, rows, authors, sets, third, out);
    octets_pieces::put(b"</feedback>", last, out)
}

// A report into the front of lent memory, if there is room.
fn write_text(
    domain: &[u8],
    s: Settings,
    count: usize,
    rows: &[u8],
    authors: &[u8],
    sets: &[u8],
    organization: &[u8],
    email: &[u8],
    contact: &[u8],
    id: &[u8],
    begin: u64,
    end: u64,
    out: &mut [u8],
) -> Result<usize, Refusal>
    ensures { WritesBrief (rows_of count rows.now) (text_of domain.now s (record { authors = authors.now; sets = sets.now }) (record { organization = organization.now; email = email.now; contact = contact.now; id = id.now; begin = begin; end = end }) (rows_of count rows.now)) out.old result out.new }
{
    if out.len() < LONGEST {
        let mut none = [0u8; 1];
        let needed = put_report(
            domain,
            s,
            count,
            rows,
            authors,
            sets,
            organization,
            email,
            contact,
            id,
            begin,
            end,
            &mut none,
        );
        if out.len() < needed {
            return octets_write::too_short(needed);
        }
    }
    Ok(put_report(
        domain,
        s,
        count,
        rows,
        authors,
        sets,
        organization,
        email,
        contact,
        id,
        begin,
        end,
        out,
    ))
}

// A report into the front of lent memory, of the first so many rows of a list.
pub fn write_report(
    list: DayList,
    s: Settings,
    count: usize,
    rows: &[u8],
    authors: &[u8],
    sets: &[u8],
    organization: &[u8],
    email: &[u8],
    contact: &[u8],
    id: &[u8],
    begin: u64,
    end: u64,
    out: &mut [u8],
) -> Result<usize, Refusal>
    ensures { WritesIf (report (listing list (rows_of (min count 256) rows.now)) (record { authors = authors.now; sets = sets.now }) (record { organization = organization.now; email = email.now; contact = contact.now; id = id.now; begin = begin; end = end }) s) out.old result out.new }
{
    if list.cleared == 0 {
        return Err(Refusal {
            number: 27,
            place: 0,
        });
    }
    let domain = text_parts::part(&list.domain, 0, usize::from(list.length));
    let most = count.min(256);
    report_check::check(
        domain,
        most,
        rows,
        authors,
        sets,
        organization,
        email,
        contact,
        id,
        begin,
        end,
    )?;
    write_text(
        domain,
        s,
        most,
        rows,
        authors,
        sets,
        organization,
        email,
        contact,
        id,
        begin,
        end,
        out,
    )
}
