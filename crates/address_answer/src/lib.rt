// An answer for the name now asked.
#![tactic(auto)]

ghost use Rattle.asking.specs.Asking.{given};
ghost use Rattle.address.specs.Checks.{answer};
ghost use Rattle.address_check.specs.Promises.{DoesCheck};
ghost use Rattle.address_check.specs.code.View.{acceptance_back};

use address_asked::WaitedFor;
use address_check::{Check, CheckChanged};
use txt::Status;

// An answer for the name now asked.
pub fn answer(
    c: Check,
    name: &[u8],
    status: Status,
    bytes: &[u8],
    scratch: &mut [u8],
) -> CheckChanged
    ensures { DoesCheck c (answer name.now status bytes.now scratch.old) result.check (given (acceptance_back result.acceptance) scratch.new) }
{
    let point = c.point;
    let live = address_asked::is_live(c.started, c.asked, c.count, point);
    match address_asked::find_asked(&c.domains, &c.numbers, point, live, name) {
        WaitedFor::Nothing => address_start::refused(c, 5, 0),
        WaitedFor::Walk { walk, place } => match txt_take::take_answer(status, bytes, scratch) {
            Err(f) => address_start::refused(c, f.number, f.place),
            Ok(r) => CheckChanged {
                check: address_accept::accept(c, walk, place, r),
                acceptance: Ok(()),
            },
        },
        WaitedFor::Confirming => {
            let host = alignment_stored::slot(&c.domains, &c.numbers, 1);
            match address_texts::take_confirming(status, bytes, host, scratch) {
                Err(f) => address_start::refused(c, f.number, f.place),
                Ok(a) => CheckChanged {
                    check: address_accept::settle(c, a),
                    acceptance: Ok(()),
                },
            }
        }
    }
}
