// The element `auth_results` of a record, from a set of identifiers: those of DKIM first, then that of SPF.
#![tactic(auto)]

ghost use Rattle.std.specs.Prelude.{◌≡◌, true, false};
ghost use Rattle.octets_pieces.specs.code.Putting.{Puts};
ghost use Rattle.rows.specs.Lists.{reported, set_in};
ghost use Rattle.report.specs.Report.{auth_results};
ghost use Rattle.report_results.specs.code.Kinds.{kind_element, each_of};

// The selector of an identifier.
pub fn selector_in(body: &[u8]) -> &[u8]
    ensures { result.now ≡ (reported body.now).selector }
{
    let length = records_fields::octet_at(body, 2, 255) as usize;
    domain_taken::without_dot(text_parts::part(body, 3, 3 + length))
}

// The domain of an identifier.
pub fn domain_in(body: &[u8]) -> &[u8]
    ensures { result.now ≡ (reported body.now).domain }
{
    let length = records_fields::octet_at(body, 2, 255) as usize;
    domain_taken::without_dot(text_parts::skip(body, 3 + length))
}

// The element of an identifier that is of DKIM, or of SPF; of another nothing.
fn put_of_kind(dkim: bool, body: &[u8], at: usize, out: &mut [u8]) -> usize
    ensures { Puts (kind_element dkim (reported body.now)) at out.old result out.new }
{
    let kind = records_fields::octet_at(body, 0, 255);
    let outcome = records_fields::octet_at(body, 1, 255);
    if dkim {
        if kind == 1 {
            report_record::put_dkim(domain_in(body), selector_in(body), outcome, at, out)
        } else {
            at
        }
    } else if kind == 0 {
        report_record::put_spf(domain_in(body), outcome, at, out)
    } else {
        at
    }
}

// The elements of a set's identifiers that are of DKIM, or of SPF.
fn put_each(dkim: bool, set: &[u8], at: usize, out: &mut [u8]) -> usize
    ensures { Puts (each_of dkim (set_in set.now)) at out.old result out.new }
{
    let mut t = set;
    let mut end = at;
    while !t.is_empty() {
        end = put_of_kind(dkim, rows_named::front_body(t), end, out);
        t = records_fields::after_record(t);
    }
    end
}

// The element `auth_results`.
pub fn put_results(set: &[u8], at: usize, out: &mut [u8]) -> usize
    ensures { Puts (auth_results (set_in set.now)) at out.old result out.new }
{
    let first = octets_pieces::put(b"<auth_results>", at, out);
    let second = put_each(true, set, first, out);
    let last = put_each(false, set, second, out);
    octets_pieces::put(b"</auth_results>", last, out)
}
