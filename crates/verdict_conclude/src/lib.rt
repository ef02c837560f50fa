// The verdict by what is stored.
#![tactic(auto)]

ghost use Rattle.std.specs.Prelude.{◌≡◌, drop};
ghost use Rattle.lookup.specs.Lookup.{has};
ghost use Rattle.alignment_stored.specs.code.Stored.{slot};
ghost use Rattle.verdict.specs.Verdict.{unjudged};
ghost use Rattle.verdict_judgement.specs.code.Judging.{stored_message, tally_result, judgement, Concludes};
ghost use Rattle.verdict_cursor.specs.code.Cursor.{stands};
ghost use Rattle.verdict_cursor.specs.code.Standing.{verdict_by, cursor_in};
ghost use Rattle.verdict_cursor.specs.code.Positions.{place_in};

use alignment_settle::Tally;
use domain::Octet;
use verdict::{AppliedPolicy, Result};
use verdict_ahead::Ahead;
use verdict_cursor::{Position, Ruling};
use verdict_judgement::{Judged, Judgement, Terms};

// The result that the alignments give.
#[tactic(auto, unfolding(verdict_judgement::specs::code::Judging::tally_result))]
fn find_result(t: Tally) -> Result
    ensures { result ≡ tally_result t }
{
    if t.aligned {
        Result::Pass
    } else if t.unknown || t.temporary {
        Result::Temperror
    } else {
        Result::Fail
    }
}

// The verdict with a result and a policy.
fn conclude(
    support: bool,
    begin: Octet,
    res: Result,
    policy: AppliedPolicy,
    alignments: usize,
) -> Judgement
    ensures { result ≡ judgement support begin res policy alignments }
{
    Judgement {
        result: res,
        begin,
        policy,
        disposition: verdict_policies::dispose(support, policy, res),
        alignments,
    }
}

// The verdict that judges no identifier.
fn judge_none<'a>(
    domains: &'a [u8],
    numbers: &'a [u16],
    t: Terms,
    at: Octet,
    res: Result,
    policy: AppliedPolicy,
) -> Judgement
    ensures { Concludes domains.now numbers.now t (has (unjudged (stored_message domains.now numbers.now t) (drop at.0 (slot domains.now numbers.now 0)) res policy)) (Judged.Done result) }
{
    let author = alignment_stored::slot(domains, numbers, 0);
    let begin = domain_labels::clip(author, at);
    conclude(t.support, begin, res, policy, 0)
}

// The verdict by the alignments.
fn judge_each<'a>(
    domains: &'a [u8],
    numbers: &'a [u16],
    stored: &'a [u16],
    t: Terms,
    ruling: Ruling,
) -> Judgement
    ensures { Concludes domains.now numbers.now t (has (verdict_by domains.now numbers.now t stored.now ruling)) (Judged.Done result) }
{
    let author = alignment_stored::slot(domains, numbers, 0);
    let begin = domain_labels::clip(author, ruling.begin);
    let tally = verdict_tally::tally(domains, numbers, stored, t, ruling.settings);
    let result = verdict_policies::with_policy(ruling.policy, find_result(tally));
    conclude(t.support, begin, result, ruling.policy, tally.digits)
}

// Where an evaluation stands: at a target without an answer, or at the verdict.
pub fn judge<'a>(
    domains: &'a [u8],
    numbers: &'a [u16],
    stored: &'a [u16],
    t: Terms,
    at: Position,
) -> Judged
    ensures { Concludes domains.now numbers.now t (stands (stored_message domains.now numbers.now t) (cursor_in domains.now numbers.now t stored.now (place_in at))) result }
{
    match verdict_ahead::look_ahead(t, at) {
        Ahead::Target { walk, place } => Judged::Missing { walk, place },
        Ahead::Unjudged {
            begin,
            result,
            policy,
        } => Judged::Done(judge_none(domains, numbers, t, begin, result, policy)),
        Ahead::Aligning(ruling) => Judged::Done(judge_each(domains, numbers, stored, t, ruling)),
    }
}
