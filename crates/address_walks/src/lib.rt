// The two walks of a check, one after the other, and where the check then stands.
#![tactic(auto)]

ghost use Rattle.std.specs.Prelude.{◌≡◌, drop};
ghost use Rattle.lookup.specs.Lookup.{Answers};
ghost use Rattle.txt.specs.declared.Reply.{Reply};
ghost use Rattle.walk_known.specs.code.Kept.{kept_answers};
ghost use Rattle.walk_progress.specs.code.Stops.{reached_in};
ghost use Rattle.address_check.specs.code.Cursor.{confirm_on, host_reached, policy_reached, begin_on, answered_on};
ghost use Rattle.address_check.specs.code.View.{cursor_in};
ghost use Rattle.address_check.specs.code.Pairs.{both};

use address::Agreement;
use address_check::{CheckPoint, PointKind};
use domain::Octet;
use txt::Reply;
use walk_progress::Reach;

// Not inside: the confirming name is asked, unless it is too long.
fn confirm(policy: &[u8], host: &[u8]) -> CheckPoint
    ensures { (β : Answers Reply) → cursor_in (both policy.now host.now) result ≡ confirm_on β (both policy.now host.now) }
{
    if policy.len() <= 237 && host.len() <= 237 - policy.len() {
        address_point::confirming()
    } else {
        address_point::settle(Agreement::PlainNo)
    }
}

// The host's walk has come so far; where the policy domain's organizational domain begins in it.
fn after_host<'a>(policy: &'a [u8], host: &'a [u8], organization: Octet, w: Reach) -> CheckPoint
    ensures { (β : Answers Reply) → cursor_in (both policy.now host.now) result ≡ host_reached β (both policy.now host.now) (drop organization.0 policy.now) (reached_in host.now w) }
{
    match w {
        Reach::Stops(stop) => address_point::on(address_point::HOST, organization, stop),
        Reach::Failed => address_point::settle(Agreement::NotKnown),
        Reach::Done(o) => {
            let own = text_parts::skip(host, o.begin.0);
            let other = text_parts::skip(policy, organization.0);
            if text_parts::same_octets(own, other) {
                address_point::settle(Agreement::Inside)
            } else {
                confirm(policy, host)
            }
        }
    }
}

// The policy domain's walk has come so far.
fn after_policy<'a>(
    domains: &'a [u8],
    kept: &'a [u16],
    count: usize,
    policy: &'a [u8],
    host: &'a [u8],
    w: Reach,
) -> CheckPoint
    ensures { cursor_in (both policy.now host.now) result ≡ policy_reached (kept_answers domains.now count kept.now) (both policy.now host.now) (reached_in policy.now w) }
{
    match w {
        Reach::Stops(stop) => address_point::on(address_point::POLICY, Octet(0), stop),
        Reach::Failed => address_point::settle(Agreement::NotKnown),
        Reach::Done(o) => {
            let reached = walk_reach::reach(domains, kept, count, host);
            after_host(policy, host, o.begin, reached)
        }
    }
}

// From the start.
pub fn begin<'a>(
    domains: &'a [u8],
    kept: &'a [u16],
    count: usize,
    policy: &'a [u8],
    host: &'a [u8],
) -> CheckPoint
    ensures { cursor_in (both policy.now host.now) result ≡ begin_on (kept_answers domains.now count kept.now) (both policy.now host.now) }
{
    if text_parts::same_octets(host, policy) {
        return address_point::settle(Agreement::Inside);
    }
    let reached = walk_reach::reach(domains, kept, count, policy);
    after_policy(domains, kept, count, policy, host, reached)
}

// From where it stood, with the reply that a walk waited for.
pub fn advance<'a>(
    domains: &'a [u8],
    kept: &'a [u16],
    count: usize,
    policy: &'a [u8],
    host: &'a [u8],
    p: CheckPoint,
    r: Reply,
) -> CheckPoint
    ensures { cursor_in (both policy.now host.now) result ≡ answered_on (kept_answers domains.now count kept.now) (both policy.now host.now) (cursor_in (both policy.now host.now) p) r }
{
    let stop = walk_stop::read_stop(p.stop);
    match address_point::read_kind(p.kind) {
        PointKind::Policy => {
            let reached = walk_reach::reach_after(domains, kept, count, policy, stop, r);
            after_policy(domains, kept, count, policy, host, reached)
        }
        PointKind::Host => {
            let reached = walk_reach::reach_after(domains, kept, count, host, stop, r);
            after_host(policy, host, p.organization, reached)
        }
        PointKind::Confirming => p,
        PointKind::PlainNo => p,
        PointKind::Inside => p,
        PointKind::Confirmed => p,
        PointKind::Replaced => p,
        PointKind::NotKnown => p,
    }
}
