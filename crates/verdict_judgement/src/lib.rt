// A message as it is stored, and a verdict in numbers: definitions.
#![tactic(auto)]

use domain::Octet;
use verdict::{AppliedPolicy, Disposition, Existence, Result};

// What is stored of a message beside its domains and their numbers.
#[derive(Clone, Copy)]
pub struct Terms {
    pub existence: Existence,
    pub support: bool,
    pub identifiers: usize,
}

// A verdict in numbers: where the applied record's domain begins in the author domain (its end where there is none), and the
// alignments as digits to base 4, the first identifier's lowest.
#[derive(Clone, Copy)]
pub struct Judgement {
    pub result: Result,
    pub begin: Octet,
    pub policy: AppliedPolicy,
    pub disposition: Disposition,
    pub alignments: usize,
}

// Where an evaluation stands: at a target without an answer, by its walk and place, or at the verdict.
#[derive(Clone, Copy)]
pub enum Judged {
    Missing { walk: usize, place: Octet },
    Done(Judgement),
}
