// Domains: the rule that each keeps, its labels, the targets of a walk, and the names asked.
#![tactic(auto)]

// A number of labels, counted from the right.
#[repr(C)]
#[derive(Clone, Copy)]
pub struct Labels(pub usize);

// An octet's place in a domain.
#[repr(C)]
#[derive(Clone, Copy)]
pub struct Octet(pub usize);

// What one pass over a domain finds: where its last 1, 2, .. 8 labels begin, how many labels it has, and the rounds of
// the pass.
#[derive(Clone, Copy)]
pub struct Starts {
    pub begins: [Octet; 8],
    pub labels: Labels,
    pub rounds: usize,
}
