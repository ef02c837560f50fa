// The next step of a check, and its result.
#![tactic(auto)]

ghost use Rattle.std.specs.Prelude.{◌≡◌, [], ◌+◌, min, if◌then◌else◌};
ghost use Rattle.octets.specs.Octets.{is_set};
ghost use Rattle.asking.specs.Asking.{given};
ghost use Rattle.address.specs.Checks.{next, result as the_result};
ghost use Rattle.address_check.specs.Promises.{DoesCheck};
ghost use Rattle.address_check.specs.code.View.{step_back, resulting_back};

use address_check::{Check, CheckOutcome, CheckStep, CheckStepped, MOST_REPLIES};
use address_point::CheckAhead;
use octets::Refusal;

// Refused where a call comes too early.
const TOO_EARLY: Refusal = Refusal {
    number: 7,
    place: 0,
};

// How many names were answered: those of the walks, and the confirming name.
fn count_names(count: usize, confirmed: u8) -> usize
    ensures { result ≡ min count 16 + (if is_set confirmed then 1 else 0) }
{
    let walked = count.min(MOST_REPLIES);
    if confirmed == 0 { walked } else { walked + 1 }
}

// The next step.
pub fn next(c: Check) -> CheckStepped
    ensures { DoesCheck c next result.check (given (step_back result.check result.step) []) }
{
    if c.started == 0 {
        return CheckStepped {
            check: c,
            step: CheckStep::Refused(TOO_EARLY),
        };
    }
    match address_point::look(c.point) {
        CheckAhead::Name { walk, place } => {
            let mut after = c;
            after.asked = 1;
            CheckStepped {
                check: after,
                step: CheckStep::Ask { walk, place },
            }
        }
        CheckAhead::Outcome(agreement) => {
            let count = count_names(c.count, c.confirmed);
            CheckStepped {
                check: c,
                step: CheckStep::Outcome(CheckOutcome { agreement, count }),
            }
        }
    }
}

// The result.
pub fn result(c: Check) -> Result<CheckOutcome, Refusal>
    ensures { DoesCheck c the_result c (given (resulting_back result) []) }
{
    if c.started == 0 {
        return Err(TOO_EARLY);
    }
    match address_point::look(c.point) {
        CheckAhead::Name { walk: _, place: _ } => Err(TOO_EARLY),
        CheckAhead::Outcome(agreement) => {
            let count = count_names(c.count, c.confirmed);
            Ok(CheckOutcome { agreement, count })
        }
    }
}
