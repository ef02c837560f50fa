// What programs in other languages hand over and get: an evaluation and what its calls give, all of it numbers.
#![tactic(auto)]

use domain::{Labels, Octet};
use domain_labels::Target;
use octets::Refusal;
use rows::Finding;
use verdict_cursor::KeptRuling;

// An evaluation between two calls. Any octets are one.
#[repr(C)]
#[derive(Clone, Copy)]
pub struct State {
    pub started: u8,
    pub handed: u8,
    pub asked: u8,
    pub existence: u8,
    pub support: u8,
    pub kind: u8,
    pub found: u8,
    pub domains: [u8; 4301],
    pub numbers: [u16; 51],
    pub kept: [u16; 408],
    pub stored: [u16; 17],
    pub identifiers: usize,
    pub count: usize,
    pub ruling: KeptRuling,
    pub walk: usize,
    pub begin: Octet,
    pub settings: usize,
    pub target: Target,
    pub more: Labels,
}

// A verdict, and how many names were asked for it. Result: none 0, pass 1, fail 2, temperror 3, permerror 4; policy: none 0,
// quarantine 1, reject 2, unknown 3; disposition: as the policy, defer 3; alignments: two bits each, the first lowest.
#[repr(C)]
#[derive(Clone, Copy)]
pub struct VerdictNumbers {
    pub result: u8,
    pub policy: u8,
    pub disposition: u8,
    pub begin: Octet,
    pub alignments: usize,
    pub count: usize,
}

// What a call gives. Kind: accepted 0, with the octets written; ask the name of this walk and place 1; verdict 2; refused 3.
#[repr(C)]
#[derive(Clone, Copy)]
pub struct GivenNumbers {
    pub kind: u8,
    pub walk: usize,
    pub place: Octet,
    pub length: usize,
    pub verdict: VerdictNumbers,
    pub refusal: Refusal,
}

// The evaluation to go on with, and what the call gives.
#[repr(C)]
#[derive(Clone, Copy)]
pub struct Called {
    pub state: State,
    pub given: GivenNumbers,
}

// What is entered in a day's rows. Kind: a verdict 2, refused 3.
#[repr(C)]
#[derive(Clone, Copy)]
pub struct FoundNumbers {
    pub kind: u8,
    pub finding: Finding,
    pub begin: Octet,
    pub refusal: Refusal,
}
