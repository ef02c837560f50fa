// The policy and the disposition.
#![tactic(auto, unfolding(verdict::specs::Verdict::same_policy, verdict::specs::Verdict::policy_by_existence, verdict::specs::Verdict::policy_before_step, verdict::specs::Verdict::one_step_down, verdict::specs::Verdict::policy_of, verdict::specs::Verdict::result_with, verdict::specs::Verdict::failing_disposition, verdict::specs::Verdict::disposition_of))]

ghost use Rattle.std.specs.Prelude.{◌≡◌};
ghost use Rattle.verdict.specs.Verdict.{policy_by_existence, policy_before_step, one_step_down, policy_of, result_with, failing_disposition, disposition_of};

use policy::{Policy, Settings};
use verdict::{AppliedPolicy, Disposition, Existence, Result};

// The policy of a record that is not the author's own.
fn policy_by_existence(e: Existence, s: Settings) -> AppliedPolicy
    ensures { result ≡ policy_by_existence e s }
{
    let existing = force_policies::existing_policy(s);
    let missing = force_policies::missing_policy(s);
    match e {
        Existence::Exists => AppliedPolicy::Known(existing),
        Existence::Missing => AppliedPolicy::Known(missing),
        Existence::Unknown if existing == missing => AppliedPolicy::Known(existing),
        Existence::Unknown => AppliedPolicy::Unknown,
    }
}

// A policy, one step down.
fn lower_policy(p: AppliedPolicy) -> AppliedPolicy
    ensures { result ≡ one_step_down p }
{
    match p {
        AppliedPolicy::Known(known) => AppliedPolicy::Known(policy_words::step_down(known)),
        AppliedPolicy::Unknown => AppliedPolicy::Unknown,
    }
}

// The policy before t is looked at.
fn full_policy(own: bool, e: Existence, s: Settings) -> AppliedPolicy
    ensures { result ≡ policy_before_step own e s }
{
    if own {
        AppliedPolicy::Known(force_policies::own_policy(s))
    } else {
        policy_by_existence(e, s)
    }
}

// The policy.
pub fn find_policy(own: bool, e: Existence, s: Settings) -> AppliedPolicy
    ensures { result ≡ policy_of own e s }
{
    let full = full_policy(own, e, s);
    if s.t { lower_policy(full) } else { full }
}

// A result with a policy that may be unknown.
pub fn with_policy(p: AppliedPolicy, r: Result) -> Result
    ensures { result ≡ result_with p r }
{
    match r {
        Result::Fail if matches!(p, AppliedPolicy::Unknown) => Result::Temperror,
        _ => r,
    }
}

// What is done with a message that fails.
fn dispose_failing(support: bool, p: AppliedPolicy) -> Disposition
    ensures { result ≡ failing_disposition support p }
{
    match p {
        AppliedPolicy::Known(Policy::Reject) if !support => Disposition::Apply(Policy::Quarantine),
        AppliedPolicy::Known(known) => Disposition::Apply(known),
        AppliedPolicy::Unknown => Disposition::Defer,
    }
}

// What is done with a message.
pub fn dispose(support: bool, p: AppliedPolicy, r: Result) -> Disposition
    ensures { result ≡ disposition_of support p r }
{
    match r {
        Result::Fail => dispose_failing(support, p),
        Result::Temperror => Disposition::Defer,
        _ => Disposition::Apply(Policy::None),
    }
}
