// The check of one report address, as calls hand it on: what it holds, what each call promises, and demand 3 of it.
#![tactic(auto)]

use address::Agreement;
use domain::Octet;
use octets::Refusal;
use policy::Bounds;
use walk_stop::KeptStop;

// The most replies that the two walks need, and for which there is room.
pub const MOST_REPLIES: usize = 16;

// Where a check stands: on the policy domain's walk, on the host's, at the confirming name, or at an outcome.
#[derive(Clone, Copy)]
pub enum PointKind {
    Policy,
    Host,
    Confirming,
    PlainNo,
    Inside,
    Confirmed,
    Replaced,
    NotKnown,
}

// The number of that, with where the policy domain's organizational domain begins in it, where the open walk stops, and the
// place in the scratch. What its kind does not have is not read.
#[repr(C)]
#[derive(Clone, Copy)]
pub struct CheckPoint {
    pub kind: u8,
    pub organization: Octet,
    pub stop: KeptStop,
    pub instead: Bounds,
}

// Three flags (0 is no): whether it was started, whether a name is asked, and whether the confirming name was answered. The
// policy domain and the host in slots of 253 octets, their lengths, the answers accepted on the walks, and where the check
// stands. It is numbers alone, as programs in other languages have it: any octets are one.
#[repr(C)]
#[derive(Clone, Copy)]
pub struct Check {
    pub started: u8,
    pub asked: u8,
    pub confirmed: u8,
    pub domains: [u8; 506],
    pub numbers: [u16; 2],
    pub kept: [u16; 48],
    pub count: usize,
    pub point: CheckPoint,
}

// Whether the address agreed, and how many names were asked for it.
#[derive(Clone, Copy)]
pub struct CheckOutcome {
    pub agreement: Agreement,
    pub count: usize,
}

// The next step: ask this name, given by its walk and place (walk 2 is the confirming name); give the outcome; or a
// refusal.
#[derive(Clone, Copy)]
pub enum CheckStep {
    Ask { walk: usize, place: Octet },
    Outcome(CheckOutcome),
    Refused(Refusal),
}

// What the next step gives: the check goes on from here.
#[derive(Clone, Copy)]
pub struct CheckStepped {
    pub check: Check,
    pub step: CheckStep,
}

// What a start or an answer gives: the check goes on from here.
#[derive(Clone, Copy)]
pub struct CheckChanged {
    pub check: Check,
    pub acceptance: Result<(), Refusal>,
}

// What a call gives, by numbers, for programs in other languages. Kind: accepted 0; ask the name of this walk and place 1;
// the outcome 2; refused 3. Agreement: not known 0, a plain no 1, inside 2, confirmed 3, replaced 4, by the rua text of
// this length that begins at this place in the scratch.
#[repr(C)]
#[derive(Clone, Copy)]
pub struct CheckGiven {
    pub kind: u8,
    pub agreement: u8,
    pub walk: usize,
    pub place: Octet,
    pub begin: usize,
    pub length: usize,
    pub count: usize,
    pub refusal: Refusal,
}

// The check to go on with, and what the call gives.
#[repr(C)]
#[derive(Clone, Copy)]
pub struct CheckCalled {
    pub check: Check,
    pub given: CheckGiven,
}
