// The evaluation of one message, as calls hand it on: what it holds, what each call promises, and demand 3.
#![tactic(auto)]

use domain::Octet;
use octets::Refusal;
use verdict_cursor::Position;
use verdict_judgement::{Judgement, Terms};

// A message (its domains in slots of 253 octets, and three numbers for each), its accepted answers, and, once a name was
// given to ask, what is stored of its walks and where it stands.
#[derive(Clone, Copy)]
pub struct Evaluation {
    pub started: bool,
    pub handed: bool,
    pub asked: bool,
    pub domains: [u8; 4301],
    pub numbers: [u16; 51],
    pub terms: Terms,
    pub kept: [u16; 408],
    pub count: usize,
    pub stored: [u16; 17],
    pub position: Position,
}

// A verdict, and how many names were asked for it.
#[derive(Clone, Copy)]
pub struct Verdict {
    pub judgement: Judgement,
    pub count: usize,
}

// The next step: ask this name, given by its walk and place; give the verdict; or a refusal.
#[derive(Clone, Copy)]
pub enum Step {
    Ask { walk: usize, place: Octet },
    Verdict(Verdict),
    Refused(Refusal),
}

// What the next step gives: the evaluation goes on from here.
#[derive(Clone, Copy)]
pub struct Stepped {
    pub evaluation: Evaluation,
    pub step: Step,
}

// What an opening, an adding or an answer gives: the evaluation goes on from here.
#[derive(Clone, Copy)]
pub struct Changed {
    pub evaluation: Evaluation,
    pub acceptance: Result<(), Refusal>,
}
