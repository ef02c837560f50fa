// The names of a check: whether a name is one, and writing one.
#![tactic(auto)]

ghost use Rattle.std.specs.Prelude.{◌≡◌};
ghost use Rattle.octets.specs.Octets.{same_text};
ghost use Rattle.octets.specs.Lent.{Writes};
ghost use Rattle.domain.specs.Domain.{without_dot};
ghost use Rattle.alignment_stored.specs.code.Stored.{slot};
ghost use Rattle.address.specs.Address.{confirming_name};
ghost use Rattle.address_check.specs.Numbers.{mark_in};
ghost use Rattle.address_check.specs.code.Pairs.{both};

use domain::Octet;
use octets::Refusal;

// Whether a name is the confirming name, in either case.
fn is_confirming<'a>(name: &'a [u8], policy: &'a [u8], host: &'a [u8]) -> bool
    ensures { result ≡ same_text name.now (confirming_name policy.now host.now) }
{
    let size = policy.len();
    if name.len() < size || name.len() - size < 16 {
        return false;
    }
    let next = size + 16;
    if !octets_write::same_text(text_parts::part(name, 0, size), policy) {
        return false;
    }
    if !octets_write::same_text(text_parts::part(name, size, next), b"._report._dmarc.") {
        return false;
    }
    octets_write::same_text(text_parts::part(name, next, name.len()), host)
}

// Whether a name, with a final dot or without, is the one that a walk and a place mark.
pub fn is_marked<'a>(
    name: &'a [u8],
    policy: &'a [u8],
    host: &'a [u8],
    walk: usize,
    place: Octet,
) -> bool
    ensures { result ≡ same_text (without_dot name.now) (mark_in (both policy.now host.now) walk place) }
{
    let given = domain_taken::without_dot(name);
    match walk {
        0 => domain_names::is_name(given, policy, place),
        1 => domain_names::is_name(given, host, place),
        _ => is_confirming(given, policy, host),
    }
}

// The confirming name of stored domains, into the front of lent memory.
fn write_confirming<'a>(
    domains: &'a [u8],
    numbers: &'a [u16],
    out: &mut [u8],
) -> Result<usize, Refusal>
    ensures { Writes (confirming_name (slot domains.now numbers.now 0) (slot domains.now numbers.now 1)) out.old result out.new }
{
    let policy = alignment_stored::slot(domains, numbers, 0);
    let host = alignment_stored::slot(domains, numbers, 1);
    let n = policy.len() + 16 + host.len();
    if out.len() < n {
        return octets_write::too_short(n);
    }
    let first = octets_append::append(policy, 0, out);
    let second = octets_append::append(b"._report._dmarc.", first, out);
    Ok(octets_append::append(host, second, out))
}

// The name that a walk and a place mark among stored domains, into the front of lent memory.
pub fn write_name<'a>(
    domains: &'a [u8],
    numbers: &'a [u16],
    walk: usize,
    place: Octet,
    out: &mut [u8],
) -> Result<usize, Refusal>
    ensures { Writes (mark_in (both (slot domains.now numbers.now 0) (slot domains.now numbers.now 1)) walk place) out.old result out.new }
{
    if 1 < walk {
        write_confirming(domains, numbers, out)
    } else {
        let d = alignment_stored::slot(domains, numbers, walk);
        domain_names::write_name(d, place, out)
    }
}
