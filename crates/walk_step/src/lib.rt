// A walk over the kept answers: at one target, and over its last ones.
#![tactic(auto)]

ghost use Rattle.walk_known.specs.code.Kept.{kept_answers};
ghost use Rattle.walk_step.specs.code.Steps.{Steps, ReachesPlaced};

use domain::{Labels, Starts};
use domain_labels::Target;
use std::ops::ControlFlow;
use walk_progress::{Applicable, Reach, Stop, Turned};

// A walk at one target, with so many more after it.
fn step<'a>(
    domains: &'a [u8],
    kept: &'a [u16],
    count: usize,
    d: &'a [u8],
    target: Target,
    last: Option<Applicable>,
    more: Labels,
) -> Turned
    ensures { Steps (kept_answers domains.now count kept.now) d.now target last more.0 result }
{
    match walk_known::look_at(domains, kept, count, d, target.begin) {
        None => ControlFlow::Break(Reach::Stops(Stop { last, target, more })),
        Some(r) => walk_turn::turn(d, target, last, r),
    }
}

// The walk over its last targets, from a record found before them, where `starts` places them.
pub fn reach_from<'a>(
    domains: &'a [u8],
    kept: &'a [u16],
    count: usize,
    d: &'a [u8],
    starts: Starts,
    first: Option<Applicable>,
    left: Labels,
) -> Reach
    ensures { ReachesPlaced (kept_answers domains.now count kept.now) d.now starts first left.0 result }
{
    let mut last = first;
    let targets = left.0.min(domain_labels::count_targets(starts).0);
    for more in (0..targets).rev() {
        let target = domain_labels::find_target(starts, Labels(more + 1));
        match step(domains, kept, count, d, target, last, Labels(more)) {
            ControlFlow::Break(reach) => {
                return reach;
            }
            ControlFlow::Continue(next) => {
                last = next;
            }
        }
    }
    walk_end::end_at(last)
}
