// For programs in other languages: what is read of an evaluation, which stays as it is.
#![tactic(auto)]

ghost use Rattle.std.specs.Prelude.{◌≡◌, drop};
ghost use Rattle.octets.specs.Octets.{lower};
ghost use Rattle.octets.specs.Lent.{written, left, written_numbers};
ghost use Rattle.alignment_stored.specs.code.Stored.{slot};
ghost use Rattle.evaluation.specs.GivenBack.{marked};
ghost use Rattle.evaluation_numbers.specs.Numbers.{held_of, Results, Fields, Enters};

use domain::Octet;
use evaluation_numbers::{FoundNumbers, GivenNumbers, State};
use octets::WrittenNumbers;

// The result.
#[unsafe(no_mangle)]
pub extern "C" fn waslidhaj_result(state: State) -> GivenNumbers
    ensures { Results state result }
{
    let e = evaluation_lent::hold(state);
    evaluation_given::number_resulting(evaluation_result::result(e))
}

// The Identity-Alignment field into the front of lent memory.
#[unsafe(no_mangle)]
pub extern "C" fn waslidhaj_field(state: State, out: &mut [u8]) -> GivenNumbers
    ensures { Fields state out.old result out.new }
{
    let e = evaluation_lent::hold(state);
    evaluation_given::number_field(evaluation_field::field(e, out))
}

// The name that a walk and a place mark, into the front of lent memory.
#[unsafe(no_mangle)]
pub extern "C" fn waslidhaj_name(
    state: State,
    walk: usize,
    place: Octet,
    out: &mut [u8],
) -> WrittenNumbers
    ensures { (result ≡ written_numbers (written (marked (held_of state) walk place) out.old)) × (out.new ≡ left (marked (held_of state) walk place) out.old) }
{
    let written = evaluation_state::write_name(&state.domains, &state.numbers, walk, place, out);
    octets_write::number_written(written)
}

// The domain of the applied record, by where it begins in the author domain, into the front of lent memory.
#[unsafe(no_mangle)]
pub extern "C" fn waslidhaj_domain(state: State, begin: Octet, out: &mut [u8]) -> WrittenNumbers
    ensures { (result ≡ written_numbers (written (lower (drop begin.0 (slot (held_of state).domains (held_of state).numbers 0))) out.old)) × (out.new ≡ left (lower (drop begin.0 (slot (held_of state).domains (held_of state).numbers 0))) out.old) }
{
    let written = evaluation_state::write_domain(&state.domains, &state.numbers, 0, begin, out);
    octets_write::number_written(written)
}

// What is entered in a day's rows.
#[unsafe(no_mangle)]
pub extern "C" fn waslidhaj_finding(state: State) -> FoundNumbers
    ensures { Enters state result }
{
    let e = evaluation_lent::hold(state);
    evaluation_given::number_found(evaluation_finding::finding(e))
}
