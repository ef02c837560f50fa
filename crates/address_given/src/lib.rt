// What the calls of a check give, as numbers for programs in other languages.
#![tactic(auto)]

ghost use Rattle.std.specs.Prelude.{◌≡◌};
ghost use Rattle.octets.specs.Refusing.{refusal};
ghost use Rattle.address_check.specs.declared.Check.{Check};
ghost use Rattle.address_check.specs.Numbers.{agreement_number, instead_of, given_outcome, given_refused, Tells};
ghost use Rattle.address_check.specs.code.View.{step_back, resulting_back, acceptance_back};

use address::Agreement;
use address_check::{CheckGiven, CheckOutcome, CheckStep};
use domain::Octet;
use octets::Refusal;
use policy::Bounds;

// Numbers of a kind, with nothing more.
fn blank(kind: u8) -> CheckGiven
    ensures { result ≡ record { kind = kind; agreement = 0; walk = 0; place = record { 0 = 0 }; begin = 0; length = 0; count = 0; refusal = refusal 0 0 } }
{
    CheckGiven {
        kind,
        agreement: 0,
        walk: 0,
        place: Octet(0),
        begin: 0,
        length: 0,
        count: 0,
        refusal: Refusal {
            number: 0,
            place: 0,
        },
    }
}

// A refusal.
fn refuse(f: Refusal) -> CheckGiven
    ensures { result ≡ given_refused f }
{
    let mut given = blank(3);
    given.refusal = f;
    given
}

// The number of an agreement.
fn number_agreement(a: Agreement) -> u8
    ensures { result ≡ agreement_number a }
{
    match a {
        Agreement::NotKnown => 0,
        Agreement::PlainNo => 1,
        Agreement::Inside => 2,
        Agreement::Confirmed => 3,
        Agreement::Replaced(_) => 4,
    }
}

// Where the text stands that takes the address's place.
fn find_instead(a: Agreement) -> Bounds
    ensures { result ≡ instead_of a }
{
    let Agreement::Replaced(bounds) = a else {
        return Bounds {
            begin: 0,
            length: 0,
        };
    };
    bounds
}

// An outcome.
fn tell(o: CheckOutcome) -> CheckGiven
    ensures { result ≡ given_outcome o.agreement o.count }
{
    let agreement = o.agreement;
    let instead = find_instead(agreement);
    let mut given = blank(2);
    given.agreement = number_agreement(agreement);
    given.begin = instead.begin;
    given.length = instead.length;
    given.count = o.count;
    given
}

// What a start or an answer gives.
pub fn number_acceptance(a: Result<(), Refusal>) -> CheckGiven
    ensures { (e : Check) → Tells e result (acceptance_back a) }
{
    match a {
        Ok(()) => blank(0),
        Err(f) => refuse(f),
    }
}

// What the next step gives.
pub fn number_step(s: CheckStep) -> CheckGiven
    ensures { (e : Check) → Tells e result (step_back e s) }
{
    match s {
        CheckStep::Ask { walk, place } => {
            let mut given = blank(1);
            given.walk = walk;
            given.place = place;
            given
        }
        CheckStep::Outcome(o) => tell(o),
        CheckStep::Refused(f) => refuse(f),
    }
}

// What the result gives.
pub fn number_resulting(x: Result<CheckOutcome, Refusal>) -> CheckGiven
    ensures { (e : Check) → Tells e result (resulting_back x) }
{
    match x {
        Ok(o) => tell(o),
        Err(f) => refuse(f),
    }
}
