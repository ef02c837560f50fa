// How far a walk has gone, as code says it: definitions.
#![tactic(auto)]

use domain::{Labels, Octet};
use domain_labels::Target;
use policy::Settings;
use std::ops::ControlFlow;

// A record that applies by a walk: where its domain begins, and what it sets.
#[derive(Clone, Copy)]
pub struct Applicable {
    pub begin: Octet,
    pub settings: Settings,
}

// What a walk without an error gives: where the organizational domain begins, and the record that applies, if one does.
#[derive(Clone, Copy)]
pub struct Organization {
    pub begin: Octet,
    pub applicable: Option<Applicable>,
}

// Where an open walk stops: the last record found so far, if any, the target whose answer it lacks, and how many targets come
// after it.
#[derive(Clone, Copy)]
pub struct Stop {
    pub last: Option<Applicable>,
    pub target: Target,
    pub more: Labels,
}

// How far a walk goes over the answers taken: to a target without one, to an error, or to its end.
#[derive(Clone, Copy)]
pub enum Reach {
    Stops(Stop),
    Failed,
    Done(Organization),
}

// What a reply makes of a walk: it is over, or goes on with the last record found.
pub type Turned = ControlFlow<Reach, Option<Applicable>>;
