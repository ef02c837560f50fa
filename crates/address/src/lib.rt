// Whether an outside report address agreed to receive reports, and the book of such checks: definitions and theorems, no code.
#![tactic(auto)]

use policy::Bounds;

// Whether a report address agreed: that is not known; a plain no; it is inside; it is confirmed, as it is or with the rua
// text at a place in the scratch instead. Not known comes first, so that what says nothing reads so.
#[derive(Clone, Copy)]
pub enum Agreement {
    NotKnown,
    PlainNo,
    Inside,
    Confirmed,
    Replaced(Bounds),
}
