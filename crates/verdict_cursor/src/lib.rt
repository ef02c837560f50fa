// Where an evaluation stands between calls: definitions.
#![tactic(auto)]

use domain::Octet;
use policy::Settings;
use verdict::AppliedPolicy;
use walk_progress::Stop;
use walk_stop::KeptStop;

// The applied record where its settings are in force: where its domain begins in the author domain, the settings, and the
// policy that they give.
#[derive(Clone, Copy)]
pub struct Ruling {
    pub begin: Octet,
    pub settings: Settings,
    pub policy: AppliedPolicy,
}

// Where an evaluation stands: at the author's own name; on the author's walk, to find a record or to complete it; on an
// identifier's walk; or at the verdict, without a record that applies, with one that cannot be used, or by the alignments.
#[derive(Clone, Copy)]
pub enum Place {
    OwnName,
    Author(Stop),
    Completing {
        ruling: Ruling,
        stop: Stop,
    },
    Identifier {
        ruling: Ruling,
        walk: usize,
        stop: Stop,
    },
    NotKnown,
    NoRecord,
    NotUsable(Octet),
    Judged(Ruling),
}

// Which place it is.
#[derive(Clone, Copy)]
pub enum PlaceKind {
    OwnName,
    Author,
    Completing,
    Identifier,
    NotKnown,
    NoRecord,
    NotUsable,
    Judged,
}

// An applied record as it is kept, its settings and policy as numbers.
#[repr(C)]
#[derive(Clone, Copy)]
pub struct KeptRuling {
    pub begin: Octet,
    pub settings: usize,
    pub policy: usize,
}

// A place as an evaluation keeps it. What its kind of place does not have is not read.
#[derive(Clone, Copy)]
pub struct Position {
    pub kind: PlaceKind,
    pub ruling: KeptRuling,
    pub walk: usize,
    pub stop: KeptStop,
}
