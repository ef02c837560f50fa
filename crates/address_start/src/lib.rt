// The start of a check, and a refusal.
#![tactic(auto)]

ghost use Rattle.std.specs.Prelude.{◌≡◌, [], ◌≤◌, length};
ghost use Rattle.octets.specs.Octets.{lower};
ghost use Rattle.octets.specs.Refusing.{refusal};
ghost use Rattle.asking.specs.Asking.{given};
ghost use Rattle.address.specs.Checks.{start};
ghost use Rattle.address_check.specs.code.Machine.{keeps_started};
ghost use Rattle.address_check.specs.Promises.{DoesCheck};
ghost use Rattle.address_check.specs.code.View.{view, acceptance_back};
ghost use Rattle.address_check.specs.code.Pairs.{both};

use address_check::{Check, CheckChanged};
use octets::Refusal;

// A check that was refused something, as it was.
pub fn refused(c: Check, number: u8, place: usize) -> CheckChanged
    ensures { result ≡ record { check = c; acceptance = Err (refusal number place) } }
{
    CheckChanged {
        check: c,
        acceptance: Err(Refusal { number, place }),
    }
}

// A check of two domains, at its first name or its outcome.
fn hold(c: Check, policy: &[u8], host: &[u8]) -> Check
    requires { (length policy.now ≤ 253) × (length host.now ≤ 253) }
    ensures { view result ≡ keeps_started (both (lower policy.now) (lower host.now)) }
{
    let mut domains = c.domains;
    octets_append::append_lower(policy, 0, &mut domains);
    octets_append::append_lower(host, 253, &mut domains);
    let mut numbers = c.numbers;
    numbers[0] = policy.len() as u16;
    numbers[1] = host.len() as u16;
    let first = alignment_stored::slot(&domains, &numbers, 0);
    let second = alignment_stored::slot(&domains, &numbers, 1);
    let point = address_walks::begin(&domains, &c.kept, 0, first, second);
    let mut after = c;
    after.started = 1;
    after.asked = 0;
    after.confirmed = 0;
    after.domains = domains;
    after.numbers = numbers;
    after.count = 0;
    after.point = point;
    after
}

// Starts the check of a rua entry for a policy domain.
pub fn start(c: Check, policy: &[u8], entry: &[u8]) -> CheckChanged
    ensures { DoesCheck c (start policy.now entry.now) result.check (given (acceptance_back result.acceptance) []) }
{
    let d = domain_taken::without_dot(policy);
    if !domain_rule::is_domain(d) {
        return refused(c, 11, 0);
    }
    let Some(h) = address_entry::host(entry) else {
        return refused(c, 23, 0);
    };
    CheckChanged {
        check: hold(c, d, h),
        acceptance: Ok(()),
    }
}
