// The report file name.
#![tactic(auto)]

ghost use Rattle.std.specs.Prelude.{◌≡◌};
ghost use Rattle.std.specs.Option.{option_copied};
ghost use Rattle.octets.specs.Lent.{WritesIf};
ghost use Rattle.octets_pieces.specs.code.Putting.{Puts};
ghost use Rattle.reporting.specs.FileName.{given_id, good_id_if_any, good_report, file_name_text, file_name};

use octets::Refusal;
use text_class::Class;

// Whether an id, if there is one, is of 1 to 64 letters and digits.
#[tactic(auto, unfolding(reporting::specs::FileName::good_id_if_any, reporting::specs::FileName::good_id, reporting::specs::FileName::alphanumeric))]
fn is_id(id: Option<&[u8]>) -> bool
    ensures { result ≡ good_id_if_any (option_copied id.entry) }
{
    match id {
        Some(id) => text_front::is_made_of(id, Class::Alphanumeric, 64),
        None => true,
    }
}

// Whether a report's file name can be written: refusal 11 is due where it cannot.
#[tactic(auto, unfolding(reporting::specs::FileName::good_report))]
fn is_report<'a>(
    receiver: &'a [u8],
    policy_domain: &'a [u8],
    begin: u64,
    end: u64,
    id: Option<&'a [u8]>,
) -> bool
    ensures { result ≡ good_report receiver.now policy_domain.now begin end (option_copied id.entry) }
{
    domain_rule::is_domain(receiver)
        && domain_rule::is_domain(policy_domain)
        && is_id(id)
        && begin <= end
}

// A file name into the front of lent memory, and its length, counted on where there is no room.
fn put_name<'a>(
    receiver: &'a [u8],
    policy_domain: &'a [u8],
    begin: u64,
    end: u64,
    id: Option<&'a [u8]>,
    out: &mut [u8],
) -> usize
    ensures { Puts (file_name_text receiver.now policy_domain.now begin end (option_copied id.entry)) 0 out.old result out.new }
{
    let second = octets_pieces::put_lower_then(receiver, b"!", 0, out);
    let times = octets_pieces::put_lower_then(policy_domain, b"!", second, out);
    let last = octets_pieces::put_decimal_then(begin, b"!", times, out);
    match id {
        Some(id) => {
            let ending = octets_pieces::put_decimal_then(end, b"!", last, out);
            octets_pieces::put_then(id, b".xml", ending, out)
        }
        None => octets_pieces::put_decimal_then(end, b".xml", last, out),
    }
}

// A report's file name into the front of lent memory. The id comes with a flag, as the C interface has it.
pub fn write_file_name<'a>(
    receiver: &'a [u8],
    policy_domain: &'a [u8],
    begin: u64,
    end: u64,
    named: bool,
    id: &'a [u8],
    out: &mut [u8],
) -> Result<usize, Refusal>
    ensures { WritesIf (file_name receiver.now policy_domain.now begin end (given_id named id.now)) out.old result out.new }
{
    let reporter = domain_taken::without_dot(receiver);
    let reported = domain_taken::without_dot(policy_domain);
    let given = named.then_some(id);
    if !is_report(reporter, reported, begin, end, given) {
        return Err(Refusal {
            number: 11,
            place: 0,
        });
    }
    let mut none = [0u8; 1];
    let n = put_name(reporter, reported, begin, end, given, &mut none);
    if out.len() < n {
        return octets_write::too_short(n);
    }
    Ok(put_name(reporter, reported, begin, end, given, out))
}
