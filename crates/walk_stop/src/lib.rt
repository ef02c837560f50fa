// Where an open walk stops, as plain numbers to keep, and such numbers read.
#![tactic(auto)]

ghost use Rattle.std.specs.Prelude.{◌≡◌};
ghost use Rattle.walk_stop.specs.code.KeptStops.{stop_in, blank_stop};

use domain::{Labels, Octet};
use domain_labels::Target;
use walk_progress::{Applicable, Stop};

// Whether a record was found so far (0 is no), where that one's domain begins, its settings as a number, the target that
// lacks an answer, and how many targets come after it.
#[repr(C)]
#[derive(Clone, Copy)]
pub struct KeptStop {
    pub found: u8,
    pub begin: Octet,
    pub settings: usize,
    pub target: Target,
    pub more: Labels,
}

// Where no walk is open.
pub fn no_stop() -> KeptStop
    ensures { result ≡ blank_stop }
{
    KeptStop {
        found: 0,
        begin: Octet(0),
        settings: 0,
        target: Target {
            begin: Octet(0),
            wider: Octet(0),
        },
        more: Labels(0),
    }
}

// Where a walk stops, to keep.
pub fn keep_stop(s: Stop) -> KeptStop
    ensures { stop_in result ≡ s }
{
    match s.last {
        None => KeptStop {
            target: s.target,
            more: s.more,
            ..no_stop()
        },
        Some(record) => KeptStop {
            found: 1,
            begin: record.begin,
            settings: txt_codes::encode_settings(record.settings),
            target: s.target,
            more: s.more,
        },
    }
}

// Where a walk stops, as it was kept.
pub fn read_stop(k: KeptStop) -> Stop
    ensures { result ≡ stop_in k }
{
    let last = if k.found == 0 {
        None
    } else {
        Some(Applicable {
            begin: k.begin,
            settings: txt_codes::decode_settings(k.settings),
        })
    };
    Stop {
        last,
        target: k.target,
        more: k.more,
    }
}
