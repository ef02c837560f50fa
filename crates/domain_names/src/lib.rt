// The name asked at a target.
#![tactic(auto)]

ghost use Rattle.std.specs.Prelude.{◌≡◌, drop};
ghost use Rattle.octets.specs.Octets.{same_text};
ghost use Rattle.octets.specs.Lent.{Writes};
ghost use Rattle.domain.specs.Domain.{asked_name};

use domain::Octet;
use octets::Refusal;

// The asked name of the target that begins at a place, into the front of lent memory.
pub fn write_name(s: &[u8], at: Octet, out: &mut [u8]) -> Result<usize, Refusal>
    ensures { Writes (asked_name (drop at.0 s.now)) out.old result out.new }
{
    let from = domain_labels::clip(s, at).0;
    let n = 7 + (s.len() - from);
    if out.len() < n {
        return octets_write::too_short(n);
    }
    let next = octets_append::append(b"_dmarc.", 0, out);
    Ok(octets_append::append_lower(&s[from..], next, out))
}

// Whether a name is the asked name of the target that begins at a place, in either case.
pub fn is_name<'a>(name: &'a [u8], s: &'a [u8], at: Octet) -> bool
    ensures { result ≡ same_text name.now (asked_name (drop at.0 s.now)) }
{
    7 <= name.len()
        && octets_write::same_text(&name[..7], b"_dmarc.")
        && octets_write::same_text(&name[7..], &s[domain_labels::clip(s, at).0..])
}
