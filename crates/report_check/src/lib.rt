// What refuses an aggregate report: 18, 28, 19 and 11, in this order.
#![tactic(auto)]

ghost use Rattle.std.specs.Prelude.{◌≡◌};
ghost use Rattle.octets.specs.Refusing.{refusal};
ghost use Rattle.report.specs.Report.{good_texts, good_file};
ghost use Rattle.rows_gather.specs.code.Gathered.{rows_of};
ghost use Rattle.report_check.specs.code.Faults.{first_fault};

use octets::Refusal;
use report_judge::Test;
use text_class::Class;

// Whether the reporter's texts may be written.
fn are_texts(organization: &[u8], email: &[u8], contact: &[u8]) -> bool
    ensures { result ≡ good_texts organization.now email.now contact.now }
{
    !organization.is_empty()
        && !email.is_empty()
        && report_texts::is_text(organization)
        && report_texts::is_text(email)
        && report_texts::is_text(contact)
}

// Whether the policy domain, the id and the times may be written.
fn is_file(domain: &[u8], id: &[u8], begin: u64, end: u64) -> bool
    ensures { result ≡ good_file domain.now id.now begin end }
{
    domain_rule::is_domain(domain)
        && text_front::is_made_of(id, Class::Alphanumeric, 64)
        && begin <= end
}

// A refusal of that number, whose place is 0.
fn refused(number: u8) -> Result<(), Refusal>
    ensures { result ≡ Err (refusal number 0) }
{
    Err(Refusal { number, place: 0 })
}

// The first refusal that is due of a list that was cleared.
pub fn check(
    domain: &[u8],
    count: usize,
    rows: &[u8],
    authors: &[u8],
    sets: &[u8],
    organization: &[u8],
    email: &[u8],
    contact: &[u8],
    id: &[u8],
    begin: u64,
    end: u64,
) -> Result<(), Refusal>
    ensures { result ≡ first_fault domain.now (record { authors = authors.now; sets = sets.now }) (rows_of count rows.now) (record { organization = organization.now; email = email.now; contact = contact.now; id = id.now; begin = begin; end = end }) }
{
    if report_judge::are_passing(Test::Free, count, rows, authors, sets) {
        refused(18)
    } else if !report_judge::are_passing(Test::Named, count, rows, authors, sets) {
        refused(28)
    } else if !are_texts(organization, email, contact) {
        refused(19)
    } else if !is_file(domain, id, begin, end) {
        refused(11)
    } else if !report_judge::are_passing(Test::Ruled, count, rows, authors, sets) {
        refused(11)
    } else {
        Ok(())
    }
}
