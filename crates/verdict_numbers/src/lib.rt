// The numbers of a verdict.
#![tactic(auto)]

ghost use Rattle.std.specs.Prelude.{◌≡◌};
ghost use Rattle.rows.specs.Rows.{result_number, disposition_number};

use policy::Policy;
use verdict::{Disposition, Result};

// The number of a result.
pub fn number_result(r: Result) -> u8
    ensures { result ≡ result_number r }
{
    match r {
        Result::None => 0,
        Result::Pass => 1,
        Result::Fail => 2,
        Result::Temperror => 3,
        Result::Permerror => 4,
    }
}

// The number of a disposition that applies a policy.
pub fn number_policy(p: Policy) -> u8
    ensures { result ≡ disposition_number (Disposition.Apply p) }
{
    match p {
        Policy::None => 0,
        Policy::Quarantine => 1,
        Policy::Reject => 2,
    }
}

// The number of a disposition.
pub fn number_disposition(d: Disposition) -> u8
    ensures { result ≡ disposition_number d }
{
    match d {
        Disposition::Apply(p) => number_policy(p),
        Disposition::Defer => 3,
    }
}
