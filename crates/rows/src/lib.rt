// Daily rows of one policy domain: definitions and claims. All of it is numbers, and every octet has a field, so that programs in
// other languages can lend it. A flag is set where it is not 0.
#![tactic(auto)]

// What is gathered of a verdict. The last two are places in the lists handed in beside the rows: of the author domain, and of the
// set of identifiers. What is spare is neither matched nor read.
#[repr(C)]
#[derive(Clone, Copy)]
pub struct Seen {
    pub source: [u8; 16],
    pub disposition: u8,
    pub dkim: u8,
    pub spf: u8,
    pub spare: u8,
    pub author: u32,
    pub set: u32,
}

// A row of a day's list: what was seen, and how often.
#[repr(C)]
#[derive(Clone, Copy)]
pub struct Row {
    pub seen: Seen,
    pub count: u32,
}

// What a verdict says to a day's list: result and disposition by their numbers, and whether each method aligned.
#[repr(C)]
#[derive(Clone, Copy)]
pub struct Finding {
    pub result: u8,
    pub disposition: u8,
    pub dkim: u8,
    pub spf: u8,
}

// What is entered: where the message came from, what was found, and the places of its author domain and of its set of identifiers.
#[repr(C)]
#[derive(Clone, Copy)]
pub struct Entry {
    pub source: [u8; 16],
    pub finding: Finding,
    pub author: u32,
    pub set: u32,
}
