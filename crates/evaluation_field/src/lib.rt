// The Identity-Alignment field of a verdict.
#![tactic(auto)]

ghost use Rattle.std.specs.Prelude.{◌≡◌};
ghost use Rattle.octets.specs.Octets.{Octets};
ghost use Rattle.octets.specs.Lent.{WritesIf};
ghost use Rattle.verdict_judgement.specs.code.Judging.{stored_message};
ghost use Rattle.verdict_judgement.specs.Reading.{verdict_in};
ghost use Rattle.asking.specs.Asking.{given};
ghost use Rattle.book.specs.Book.{field, back_of, passed_or_failed, field_of};
ghost use Rattle.evaluation.specs.Promises.{Does};

use evaluation::Evaluation;
use octets::Refusal;
use verdict_judgement::{Judgement, Terms};

// Whether a result is pass or fail.
#[tactic(auto, unfolding(book::specs::Book::passed_or_failed))]
fn is_pass_or_fail(r: verdict::Result) -> bool
    ensures { result ≡ passed_or_failed r }
{
    matches!(r, verdict::Result::Pass | verdict::Result::Fail)
}

// The field of a verdict into the front of lent memory.
fn write_methods(numbers: &[u16], t: Terms, j: Judgement, out: &mut [u8]) -> Result<usize, Refusal>
    ensures { (domains : Octets) → WritesIf (field_of (stored_message domains numbers.now t) (verdict_in (stored_message domains numbers.now t) j)) out.old result out.new }
{
    if !is_pass_or_fail(j.result) || t.identifiers == 0 {
        return Err(evaluation_state::refuse(9, 0));
    }
    let m = evaluation_methods::find_methods(numbers, t.identifiers, j.alignments);
    reporting_field::write_field(m.dkim, m.spf, out)
}

// The Identity-Alignment field into the front of lent memory.
pub fn field(e: Evaluation, out: &mut [u8]) -> Result<usize, Refusal>
    ensures { Does e (field out.old) e (given (back_of result) out.new) }
{
    let v = evaluation_result::result(e)?;
    write_methods(&e.numbers, e.terms, v.judgement, out)
}
