// For programs in other languages that send their own lookups: the check of a report address. What is lent nowhere overlaps:
// the C header's functions see to it.
#![tactic(auto)]

ghost use Rattle.std.specs.Prelude.{◌≡◌, []};
ghost use Rattle.octets.specs.Lent.{written, left, written_numbers};
ghost use Rattle.txt.specs.Answers.{status_numbered};
ghost use Rattle.address.specs.Checks.{start, next, answer, result as the_result};
ghost use Rattle.address_check.specs.Numbers.{check_name};
ghost use Rattle.address_check.specs.Promises.{Gives};

use address_check::{Check, CheckCalled, CheckGiven};
use domain::Octet;
use octets::WrittenNumbers;

// Starts the check of a rua entry for a policy domain.
#[unsafe(no_mangle)]
pub extern "C" fn waslidhaj_check_start_by_value(
    check: Check,
    policy: &[u8],
    entry: &[u8],
) -> CheckCalled
    ensures { Gives check (start policy.now entry.now) result [] }
{
    let changed = address_start::start(check, policy, entry);
    CheckCalled {
        check: changed.check,
        given: address_given::number_acceptance(changed.acceptance),
    }
}

// The next step.
#[unsafe(no_mangle)]
pub extern "C" fn waslidhaj_check_next_by_value(check: Check) -> CheckCalled
    ensures { Gives check next result [] }
{
    let stepped = address_next::next(check);
    CheckCalled {
        check: stepped.check,
        given: address_given::number_step(stepped.step),
    }
}

// An answer for the name now asked.
#[unsafe(no_mangle)]
pub extern "C" fn waslidhaj_check_answer_by_value(
    check: Check,
    name: &[u8],
    status: u8,
    bytes: &[u8],
    scratch: &mut [u8],
) -> CheckCalled
    ensures { Gives check (answer name.now (status_numbered status) bytes.now scratch.old) result scratch.new }
{
    let kind = txt_codes::read_status(status);
    let changed = address_answer::answer(check, name, kind, bytes, scratch);
    CheckCalled {
        check: changed.check,
        given: address_given::number_acceptance(changed.acceptance),
    }
}

// The result.
#[unsafe(no_mangle)]
pub extern "C" fn waslidhaj_check_result_by_value(check: Check) -> CheckGiven
    ensures { Gives check the_result (record { check = check; given = result }) [] }
{
    address_given::number_resulting(address_next::result(check))
}

// The name that a walk and a place mark, into the front of lent memory.
#[unsafe(no_mangle)]
pub extern "C" fn waslidhaj_check_name_by_value(
    check: Check,
    walk: usize,
    place: Octet,
    out: &mut [u8],
) -> WrittenNumbers
    ensures { (result ≡ written_numbers (written (check_name check walk place) out.old)) × (out.new ≡ left (check_name check walk place) out.old) }
{
    let written = address_names::write_name(&check.domains, &check.numbers, walk, place, out);
    octets_write::number_written(written)
}
