// The end of a walk, by the places of its domains.
#![tactic(auto)]

ghost use Rattle.std.specs.Prelude.{◌≡◌, drop};
ghost use Rattle.octets.specs.Octets.{same};
ghost use Rattle.domain.specs.Domain.{Domain};
ghost use Rattle.walk.specs.Walk.{found};
ghost use Rattle.walk_progress.specs.code.Summary.{or_found, found_in};
ghost use Rattle.walk_progress.specs.code.Turns.{if_at, last_summary, wider_summary};
ghost use Rattle.walk_progress.specs.code.Reaching.{over};
ghost use Rattle.walk_progress.specs.code.Stops.{reached_in};

use domain::Octet;
use domain_labels::Target;
use policy::Settings;
use walk_progress::{Applicable, Organization, Reach};

// Whether the ends of a text that begin at two places are the same.
fn same_end(d: &[u8], a: Octet, b: Octet) -> bool
    ensures { result ≡ same (drop a.0 d.now) (drop b.0 d.now) }
{
    domain_labels::clip(d, a).0 == domain_labels::clip(d, b).0
}

// The end of a walk whose last record is this one.
pub fn end_at(last: Option<Applicable>) -> Reach
    ensures { (d : Domain) → reached_in d result ≡ over (Some (last_summary d (found_in d last))) }
{
    let begin = match last {
        Some(record) => record.begin,
        None => Octet(0),
    };
    Reach::Done(Organization {
        begin,
        applicable: last,
    })
}

// The last record found, if it is at a place, else another.
fn choose(d: &[u8], at: Octet, last: Option<Applicable>, other: Applicable) -> Applicable
    ensures { found_in d.now (Some result) ≡ or_found (if_at (drop at.0 d.now) (found_in d.now last)) (found_in d.now (Some other)) }
{
    match last {
        Some(record) if same_end(d, record.begin, at) => record,
        _ => other,
    }
}

// The end of a walk at a psd=y record.
pub fn end_suffix(d: &[u8], at: Target, last: Option<Applicable>, settings: Settings) -> Reach
    ensures { reached_in d.now result ≡ over (Some (wider_summary d.now (found_in d.now last) (found (drop at.begin.0 d.now) settings) (drop at.wider.0 d.now))) }
{
    let record = Applicable {
        begin: at.begin,
        settings,
    };
    if same_end(d, at.begin, Octet(0)) {
        end_at(Some(record))
    } else {
        Reach::Done(Organization {
            begin: at.wider,
            applicable: Some(choose(d, at.wider, last, record)),
        })
    }
}
