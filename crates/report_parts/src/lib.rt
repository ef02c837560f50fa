// What a reader of aggregate reports tells programs in other languages: definitions, and the claim on parts.
#![tactic(auto)]

ghost use Rattle.std.specs.Prelude.{◌≡◌};
ghost use Rattle.report_parts.specs.code.Telling.{told_by};

use report_kept::ReaderState;

// The event: 0 all is used, 1 a row is handed out, 2 refused; the refusal's number and place where it is 2; the row's count
// where it is 1. All others are 0.
#[repr(C)]
#[derive(Clone, Copy)]
pub struct Told {
    pub event: u64,
    pub number: u64,
    pub place: u64,
    pub count: u64,
}

// Behind a part: the state then, how many octets of the part are used, and what there is to tell.
#[repr(C)]
#[derive(Clone, Copy)]
pub struct PartTold {
    pub state: ReaderState,
    pub used: usize,
    pub told: Told,
}

// Behind a declared end: the state then, and whether the text was whole, event 0, or the refusal.
#[repr(C)]
#[derive(Clone, Copy)]
pub struct EndTold {
    pub state: ReaderState,
    pub told: Told,
}

// What there is to tell of a state, a row handed out or not.
pub fn tell(gives: bool, s: ReaderState) -> Told
    ensures { result ≡ told_by gives s }
{
    if gives {
        return Told {
            event: 1,
            number: 0,
            place: 0,
            count: s.count,
        };
    }
    if s.refused == 0 {
        return Told {
            event: 0,
            number: 0,
            place: 0,
            count: 0,
        };
    }
    Told {
        event: 2,
        number: s.refused,
        place: s.taken,
        count: 0,
    }
}
