// One turn of a walk, and the number stored of it.
#![tactic(auto)]

ghost use Rattle.std.specs.Prelude.{◌≡◌};
ghost use Rattle.txt.specs.declared.Reply.{Reply};
ghost use Rattle.walk_progress.specs.code.Progress.{stored_in};
ghost use Rattle.walk_progress.specs.code.Reaching.{progress_of};
ghost use Rattle.walk_progress.specs.code.Stops.{reached_in, stored_of, Turns};
ghost use Rattle.walk_turn.specs.code.Storing.{within_253};

use domain_labels::Target;
use policy::{Psd, Settings};
use std::ops::ControlFlow;
use txt::Reply;
use walk_progress::{Applicable, Reach, Turned};

// A walk after a record at a target.
fn turn_found(d: &[u8], at: Target, last: Option<Applicable>, settings: Settings) -> Turned
    ensures { Turns d.now at last (Reply.Record settings) result }
{
    let record = Applicable {
        begin: at.begin,
        settings,
    };
    match settings.psd {
        Psd::Yes => ControlFlow::Break(walk_end::end_suffix(d, at, last, settings)),
        Psd::No => ControlFlow::Break(walk_end::end_at(Some(record))),
        Psd::Unset => ControlFlow::Continue(Some(record)),
    }
}

// A walk after a reply at a target.
pub fn turn(d: &[u8], at: Target, last: Option<Applicable>, r: Reply) -> Turned
    ensures { Turns d.now at last r result }
{
    match r {
        Reply::Error => ControlFlow::Break(Reach::Failed),
        Reply::NoRecord => ControlFlow::Continue(last),
        Reply::Record(settings) => turn_found(d, at, last, settings),
    }
}

// The number stored of a walk: 0 while it is open, 1 after an error, else two more than where the organizational domain
// begins; 0 too where that is past 253.
pub fn stored_number(d: &[u8], w: Reach) -> u16
    ensures { stored_of result ≡ within_253 (stored_in d.now (progress_of (reached_in d.now w))) }
{
    match w {
        Reach::Stops(_) => 0,
        Reach::Failed => 1,
        Reach::Done(o) => {
            let place = domain_labels::clip(d, o.begin).0;
            if place <= 253 { (2 + place) as u16 } else { 0 }
        }
    }
}
