// The author's walk, and the record that it gives.
#![tactic(auto)]

ghost use Rattle.walk_known.specs.code.Kept.{kept_answers};
ghost use Rattle.verdict_cursor.specs.code.Positions.{place_in};
ghost use Rattle.verdict_found.specs.code.Found.{Completes, Judges, Finds};

use domain::Octet;
use policy::Settings;
use verdict_cursor::{Position, Ruling};
use verdict_judgement::Terms;
use walk_progress::{Organization, Reach};

// The author's walk, which must be completed, has come so far.
pub fn complete<'a>(
    domains: &'a [u8],
    numbers: &'a [u16],
    kept: &'a [u16],
    count: usize,
    t: Terms,
    ruling: Ruling,
    w: Reach,
    stored: &mut [u16; 17],
) -> Position
    ensures { Completes domains.now numbers.now t (kept_answers domains.now count kept.now) ruling w stored.old stored.new (place_in result) }
{
    match w {
        Reach::Stops(stop) => verdict_place::completing(ruling, stop),
        _ => verdict_author::compare_all(domains, numbers, kept, count, t, ruling, w, stored),
    }
}

// The author's walk is over, with a record that is not the author's own.
fn judge<'a>(
    domains: &'a [u8],
    numbers: &'a [u16],
    kept: &'a [u16],
    count: usize,
    t: Terms,
    begin: Octet,
    settings: Settings,
    o: Organization,
    stored: &mut [u16; 17],
) -> Position
    ensures { Judges domains.now numbers.now t (kept_answers domains.now count kept.now) begin settings o stored.old stored.new (place_in result) }
{
    match force_policies::in_force(settings) {
        None => {
            verdict_author::store(domains, numbers, Reach::Done(o), stored);
            verdict_place::not_usable(begin)
        }
        Some(used) => {
            let ruling = Ruling {
                begin,
                settings: used,
                policy: verdict_policies::find_policy(false, t.existence, used),
            };
            verdict_author::compare_all(
                domains,
                numbers,
                kept,
                count,
                t,
                ruling,
                Reach::Done(o),
                stored,
            )
        }
    }
}

// The author's walk, where the author domain has no record of its own, has come so far.
pub fn found<'a>(
    domains: &'a [u8],
    numbers: &'a [u16],
    kept: &'a [u16],
    count: usize,
    t: Terms,
    w: Reach,
    stored: &mut [u16; 17],
) -> Position
    ensures { Finds domains.now numbers.now t (kept_answers domains.now count kept.now) w stored.old stored.new (place_in result) }
{
    match w {
        Reach::Stops(stop) => verdict_place::author(stop),
        Reach::Failed => {
            verdict_author::put_number(1, stored);
            verdict_place::not_known()
        }
        Reach::Done(o) => {
            let applicable = o.applicable;
            match applicable {
                None => {
                    verdict_author::store(domains, numbers, w, stored);
                    verdict_place::no_record()
                }
                Some(record) => {
                    let (begin, settings) = (record.begin, record.settings);
                    judge(domains, numbers, kept, count, t, begin, settings, o, stored)
                }
            }
        }
    }
}
