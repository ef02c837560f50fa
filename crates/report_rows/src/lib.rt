// A record element of an aggregate report, from a row's 32 octets and the lists beside the rows.
#![tactic(auto)]

ghost use Rattle.std.specs.Prelude.{◌≡◌, ◌≤◌, length};
ghost use Rattle.octets_pieces.specs.code.Putting.{Puts};
ghost use Rattle.report.specs.Report.{row_element, record_element};
ghost use Rattle.rows_gather.specs.code.Gathered.{row_of};
ghost use Rattle.report_rows.specs.code.Lines.{author_at, set_at, line_of};

use rows::Seen;

// The author domain of a row.
pub fn author_of<'a>(row: &[u8], authors: &'a [u8]) -> &'a [u8]
    ensures { result.now ≡ author_at authors.now (row_of row.now).seen.author }
{
    let number = rows_gather::number_at(row, 20);
    domain_taken::without_dot(records_fields::body(rows_named::record_at(authors, number)))
}

// The set of identifiers of a row.
pub fn set_of<'a>(row: &[u8], sets: &'a [u8]) -> &'a [u8]
    ensures { result.now ≡ set_at sets.now (row_of row.now).seen.set }
{
    let number = rows_gather::number_at(row, 24);
    records_fields::body(rows_named::record_at(sets, number))
}

// The element `row`.
fn put_row(row: &[u8], at: usize, out: &mut [u8]) -> usize
    ensures { Puts (row_element (row_of row.now)) at out.old result out.new × (length (row_element (row_of row.now)) ≤ 204) }
{
    let seen = Seen {
        source: [0; 16],
        disposition: records_fields::octet_at(row, 16, 0),
        dkim: records_fields::octet_at(row, 17, 0),
        spf: records_fields::octet_at(row, 18, 0),
        spare: 0,
        author: 0,
        set: 0,
    };
    let count = rows_gather::number_at(row, 28) as u64;
    let first = octets_pieces::put(b"<row><source_ip>", at, out);
    let second = report_sources::put_address(text_parts::part(row, 0, 16), first, out);
    let third = octets_pieces::put(b"</source_ip><count>", second, out);
    let fourth = octets_pieces::put_decimal_then(count, b"</count>", third, out);
    let last = report_record::put_evaluated(seen, fourth, out);
    octets_pieces::put(b"</row>", last, out)
}

// The element `record`.
pub fn put_record(row: &[u8], authors: &[u8], sets: &[u8], at: usize, out: &mut [u8]) -> usize
    ensures { Puts (record_element (line_of (record { authors = authors.now; sets = sets.now }) (row_of row.now))) at out.old result out.new × (length (row_element (row_of row.now)) ≤ 204) }
{
    let first = octets_pieces::put(b"<record>", at, out);
    let second = put_row(row, first, out);
    let third = octets_pieces::put(b"<identifiers><header_from>", second, out);
    let fourth = octets_pieces::put_lower_then(
        author_of(row, authors),
        b"</header_from></identifiers>",
        third,
        out,
    );
    let last = report_results::put_results(set_of(row, sets), fourth, out);
    octets_pieces::put(b"</record>", last, out)
}
