// A policy record written from its settings, and what programs in other languages hand over and get.
// Settings by numbers. p, sp and np: none 0, quarantine 1, reject 2, absent 3; adkim and aspf: r 0, s 1; psd: u 0, y 1, n 2; t: n 0, y 1.
#![tactic(auto)]

#[repr(C)]
#[derive(Clone, Copy, Default)]
pub struct RecordNumbers {
    pub p: u8,
    pub sp: u8,
    pub np: u8,
    pub adkim: u8,
    pub aspf: u8,
    pub psd: u8,
    pub t: u8,
}

// What reading gave: whether the text is a policy record, its settings, whether rua has a valid entry, and where the rua text stands.
#[repr(C)]
#[derive(Clone, Copy, Default)]
pub struct RecordRead {
    pub is_record: bool,
    pub numbers: RecordNumbers,
    pub reports: bool,
    pub rua_begin: usize,
    pub rua_length: usize,
}
