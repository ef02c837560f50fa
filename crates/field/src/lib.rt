// The Identity-Alignment field as it is read.
#![tactic(auto)]

use octets::Refusal;

// The methods that a field names; neither for `none`.
#[derive(Clone, Copy)]
pub struct NamedMethods {
    pub dkim: bool,
    pub spf: bool,
}

// What a reader answers, by numbers, for programs in other languages; a refusal of number 0 is none, and a method is named 1 or not 0. Refused, both
// are 1.
#[repr(C)]
#[derive(Clone, Copy)]
pub struct FieldNumbers {
    pub refusal: Refusal,
    pub dkim: u8,
    pub spf: u8,
}
