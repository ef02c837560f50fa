// A policy record: what it sets.
#![tactic(auto)]

// What a domain owner asks for.
#[derive(Clone, Copy, PartialEq, Eq)]
pub enum Policy {
    None,
    Quarantine,
    Reject,
}

// The setting of p, sp or np.
#[derive(Clone, Copy)]
pub enum Setting {
    Absent,
    Invalid,
    Set(Policy),
}

// The alignment mode of adkim or aspf.
#[derive(Clone, Copy)]
pub enum Mode {
    Relaxed,
    Strict,
}

// The setting of psd: y, n or u.
#[derive(Clone, Copy)]
pub enum Psd {
    Yes,
    No,
    Unset,
}

// What a policy record sets, a field for each tag.
#[derive(Clone, Copy)]
pub struct Settings {
    pub p: Setting,
    pub sp: Setting,
    pub np: Setting,
    pub adkim: Mode,
    pub aspf: Mode,
    pub psd: Psd,
    pub t: bool,
    // whether rua has a valid entry
    pub reports: bool,
}

// Where a part stands in a text: the octet at which it begins, and how many octets it has.
#[repr(C)]
#[derive(Clone, Copy)]
pub struct Bounds {
    pub begin: usize,
    pub length: usize,
}
