// What is entered in a day's rows of an evaluation that stands at its verdict.
#![tactic(auto)]

ghost use Rattle.std.specs.Prelude.{◌≡◌};
ghost use Rattle.octets.specs.Octets.{Octets};
ghost use Rattle.verdict_judgement.specs.code.Judging.{stored_message};
ghost use Rattle.verdict_judgement.specs.Reading.{verdict_in};
ghost use Rattle.rows.specs.Rows.{finding_of};
ghost use Rattle.evaluation_finding.specs.code.Entering.{Finds};

use domain::Octet;
use evaluation::{Evaluation, Verdict};
use octets::Refusal;
use rows::Finding;
use verdict_judgement::{Judgement, Terms};

// What a verdict says to a day's list, and where the domain of its applied record begins in the author domain (its end where
// there is none).
#[derive(Clone, Copy)]
pub struct Found {
    pub finding: Finding,
    pub begin: Octet,
}

// A verdict on a stored message, in numbers, as it is entered.
fn enter(numbers: &[u16], t: Terms, j: Judgement) -> Found
    ensures { (domains : Octets) → result ≡ record { finding = finding_of (stored_message domains numbers.now t) (verdict_in (stored_message domains numbers.now t) j); begin = j.begin } }
{
    let m = evaluation_methods::find_methods(numbers, t.identifiers, j.alignments);
    Found {
        finding: Finding {
            result: verdict_numbers::number_result(j.result),
            disposition: verdict_numbers::number_disposition(j.disposition),
            dkim: octets_write::number_flag(m.dkim.aligned),
            spf: octets_write::number_flag(m.spf.aligned),
        },
        begin: j.begin,
    }
}

// What is entered of an evaluation, or why nothing is.
pub fn finding(e: Evaluation) -> Result<Found, Refusal>
    ensures { Finds e result }
{
    let v = evaluation_result::result(e)?;
    Ok(enter(&e.numbers, e.terms, v.judgement))
}
