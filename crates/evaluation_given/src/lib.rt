// What calls give, as numbers for programs in other languages.
#![tactic(auto)]

ghost use Rattle.std.specs.Prelude.{◌≡◌};
ghost use Rattle.evaluation_numbers.specs.Numbers.{policy_number, verdict_numbers, accepted_numbers, ask_numbers, judged_numbers, refused_numbers, acceptance_numbers, step_numbers, resulting_numbers, field_numbers, found_numbers};

use domain::Octet;
use evaluation::{Step, Verdict};
use evaluation_finding::Found;
use evaluation_numbers::{FoundNumbers, GivenNumbers, VerdictNumbers};
use octets::Refusal;
use rows::Finding;
use verdict::AppliedPolicy;

// The number of an applied record's policy.
fn number_applied(p: AppliedPolicy) -> u8
    ensures { result ≡ policy_number p }
{
    match p {
        AppliedPolicy::Known(known) => verdict_numbers::number_policy(known),
        AppliedPolicy::Unknown => 3,
    }
}

// A verdict.
fn number_verdict(v: Verdict) -> VerdictNumbers
    ensures { result ≡ verdict_numbers v }
{
    let j = v.judgement;
    VerdictNumbers {
        result: verdict_numbers::number_result(j.result),
        policy: number_applied(j.policy),
        disposition: verdict_numbers::number_disposition(j.disposition),
        begin: j.begin,
        alignments: j.alignments,
        count: v.count,
    }
}

// Numbers of a kind, with nothing more.
fn blank(kind: u8) -> GivenNumbers
    ensures { result ≡ record { kind = kind; walk = 0; place = record { 0 = 0 }; length = 0; verdict = record { result = 3; policy = 3; disposition = 3; begin = record { 0 = 0 }; alignments = 0; count = 0 }; refusal = record { number = 0; place = 0 } } }
{
    GivenNumbers {
        kind,
        walk: 0,
        place: Octet(0),
        length: 0,
        verdict: VerdictNumbers {
            result: 3,
            policy: 3,
            disposition: 3,
            begin: Octet(0),
            alignments: 0,
            count: 0,
        },
        refusal: Refusal {
            number: 0,
            place: 0,
        },
    }
}

// Accepted, with the octets written.
fn accept(length: usize) -> GivenNumbers
    ensures { result ≡ accepted_numbers length }
{
    GivenNumbers { length, ..blank(0) }
}

// A name to ask.
fn ask(walk: usize, place: Octet) -> GivenNumbers
    ensures { result ≡ ask_numbers walk place }
{
    GivenNumbers {
        walk,
        place,
        ..blank(1)
    }
}

// A verdict given.
fn judge(v: Verdict) -> GivenNumbers
    ensures { result ≡ judged_numbers v }
{
    GivenNumbers {
        verdict: number_verdict(v),
        ..blank(2)
    }
}

// A refusal.
fn refuse(f: Refusal) -> GivenNumbers
    ensures { result ≡ refused_numbers f }
{
    GivenNumbers {
        refusal: f,
        ..blank(3)
    }
}

// What an opening, an adding or an answer gives.
pub fn number_acceptance(a: Result<(), Refusal>) -> GivenNumbers
    ensures { result ≡ acceptance_numbers a }
{
    match a {
        Ok(()) => accept(0),
        Err(f) => refuse(f),
    }
}

// What the next step gives.
pub fn number_step(s: Step) -> GivenNumbers
    ensures { result ≡ step_numbers s }
{
    match s {
        Step::Ask { walk, place } => ask(walk, place),
        Step::Verdict(v) => judge(v),
        Step::Refused(f) => refuse(f),
    }
}

// What the result gives.
pub fn number_resulting(x: Result<Verdict, Refusal>) -> GivenNumbers
    ensures { result ≡ resulting_numbers x }
{
    match x {
        Ok(v) => judge(v),
        Err(due) => refuse(due),
    }
}

// What the field gives.
pub fn number_field(w: Result<usize, Refusal>) -> GivenNumbers
    ensures { result ≡ field_numbers w }
{
    match w {
        Ok(n) => accept(n),
        Err(f) => refuse(f),
    }
}

// What is entered in a day's rows.
pub fn number_found(x: Result<Found, Refusal>) -> FoundNumbers
    ensures { result ≡ found_numbers x }
{
    match x {
        Ok(Found { finding, begin }) => FoundNumbers {
            kind: 2,
            finding,
            begin,
            refusal: Refusal {
                number: 0,
                place: 0,
            },
        },
        Err(refusal) => FoundNumbers {
            kind: 3,
            finding: Finding {
                result: 0,
                disposition: 0,
                dkim: 0,
                spf: 0,
            },
            begin: Octet(0),
            refusal,
        },
    }
}
