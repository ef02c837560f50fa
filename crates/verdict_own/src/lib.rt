// The reply at the author's own name.
#![tactic(auto)]

ghost use Rattle.std.specs.Prelude.{◌≡◌};
ghost use Rattle.walk_known.specs.code.Kept.{kept_answers};
ghost use Rattle.walk_progress.specs.code.Stops.{reached_in};
ghost use Rattle.verdict_cursor.specs.code.Positions.{place_in};
ghost use Rattle.verdict_own.specs.code.Own.{gone_in, JudgesOwn, Owns};

use domain::Octet;
use domain_labels::Target;
use policy::Settings;
use std::ops::ControlFlow;
use txt::Reply;
use verdict_cursor::{Position, Ruling};
use verdict_judgement::Terms;
use walk_progress::{Reach, Turned};

// How far a walk goes over the answers kept, after the turn at its domain itself.
fn gone<'a>(domains: &'a [u8], kept: &'a [u16], count: usize, d: &'a [u8], turned: Turned) -> Reach
    ensures { reached_in d.now result ≡ gone_in (kept_answers domains.now count kept.now) d.now turned }
{
    match turned {
        ControlFlow::Break(w) => w,
        ControlFlow::Continue(last) => walk_reach::reach_on(domains, kept, count, d, last),
    }
}

// The author's own record, whose settings are in force, where the author's walk has come so far. It is completed only where
// some identifier must be walked.
fn judge_own<'a>(
    domains: &'a [u8],
    numbers: &'a [u16],
    kept: &'a [u16],
    count: usize,
    t: Terms,
    settings: Settings,
    w: Reach,
    stored: &mut [u16; 17],
) -> Position
    ensures { JudgesOwn domains.now numbers.now t (kept_answers domains.now count kept.now) settings w stored.old stored.new (place_in result) }
{
    let author = alignment_stored::slot(domains, numbers, 0);
    let ruling = Ruling {
        begin: Octet(0),
        settings,
        policy: verdict_policies::find_policy(true, t.existence, settings),
    };
    if alignment_settle::any_must_walk(domains, numbers, author, settings, t.identifiers) {
        verdict_found::complete(domains, numbers, kept, count, t, ruling, w, stored)
    } else {
        verdict_author::compare_all(domains, numbers, kept, count, t, ruling, w, stored)
    }
}

// The author's own record.
fn apply_own<'a>(
    domains: &'a [u8],
    numbers: &'a [u16],
    kept: &'a [u16],
    count: usize,
    t: Terms,
    settings: Settings,
    stored: &mut [u16; 17],
) -> Position
    ensures { Owns domains.now numbers.now t (kept_answers domains.now count kept.now) (Reply.Record settings) stored.old stored.new (place_in result) }
{
    let author = alignment_stored::slot(domains, numbers, 0);
    let begin = Octet(0);
    let at = Target {
        begin,
        wider: begin,
    };
    let turned = walk_turn::turn(author, at, None, Reply::Record(settings));
    let w = gone(domains, kept, count, author, turned);
    match force_policies::in_force(settings) {
        None => {
            verdict_author::store(domains, numbers, w, stored);
            verdict_place::not_usable(begin)
        }
        Some(used) => judge_own(domains, numbers, kept, count, t, used, w, stored),
    }
}

// The reply at the author's own name.
pub fn own<'a>(
    domains: &'a [u8],
    numbers: &'a [u16],
    kept: &'a [u16],
    count: usize,
    t: Terms,
    r: Reply,
    stored: &mut [u16; 17],
) -> Position
    ensures { Owns domains.now numbers.now t (kept_answers domains.now count kept.now) r stored.old stored.new (place_in result) }
{
    match r {
        Reply::Error => {
            verdict_author::put_number(1, stored);
            verdict_place::not_known()
        }
        Reply::NoRecord => {
            let author = alignment_stored::slot(domains, numbers, 0);
            let w = walk_reach::reach_on(domains, kept, count, author, None);
            verdict_found::found(domains, numbers, kept, count, t, w, stored)
        }
        Reply::Record(settings) => apply_own(domains, numbers, kept, count, t, settings, stored),
    }
}
