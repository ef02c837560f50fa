// The walk up a domain, as far as the kept answers let it go.
#![tactic(auto)]

ghost use Rattle.std.specs.Prelude.{◌≡◌};
ghost use Rattle.walk_known.specs.code.Kept.{kept_answers};
ghost use Rattle.walk_progress.specs.code.Summary.{found_in};
ghost use Rattle.walk_progress.specs.code.Reaching.{reach, later_targets};
ghost use Rattle.walk_progress.specs.code.Stops.{reached_in, ReachesWhole, ReachesAfter};

use domain::Labels;
use std::ops::ControlFlow;
use txt::Reply;
use walk_progress::{Applicable, Reach, Stop};

// The walk from its start.
pub fn reach<'a>(domains: &'a [u8], kept: &'a [u16], count: usize, d: &'a [u8]) -> Reach
    ensures { ReachesWhole (kept_answers domains.now count kept.now) d.now result }
{
    let starts = domain_labels::find_starts(d);
    let all = domain_labels::count_targets(starts);
    walk_step::reach_from(domains, kept, count, d, starts, None, all)
}

// The walk after its domain itself, with the record found there.
pub fn reach_on<'a>(
    domains: &'a [u8],
    kept: &'a [u16],
    count: usize,
    d: &'a [u8],
    last: Option<Applicable>,
) -> Reach
    ensures { reached_in d.now result ≡ reach (kept_answers domains.now count kept.now) d.now (found_in d.now last) (later_targets d.now) }
{
    let starts = domain_labels::find_starts(d);
    let later = domain_labels::count_targets(starts).0 - 1;
    walk_step::reach_from(domains, kept, count, d, starts, last, Labels(later))
}

// The walk from where it stopped, with the reply to that target.
pub fn reach_after<'a>(
    domains: &'a [u8],
    kept: &'a [u16],
    count: usize,
    d: &'a [u8],
    stop: Stop,
    r: Reply,
) -> Reach
    ensures { ReachesAfter (kept_answers domains.now count kept.now) d.now stop r result }
{
    match walk_turn::turn(d, stop.target, stop.last, r) {
        ControlFlow::Break(reach) => reach,
        ControlFlow::Continue(next) => {
            let starts = domain_labels::find_starts(d);
            walk_step::reach_from(domains, kept, count, d, starts, next, stop.more)
        }
    }
}
