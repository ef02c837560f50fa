// Each place as plain fields, and such a place read.
#![tactic(auto, unfolding(verdict_cursor::specs::code::Positions::policy_in, verdict_cursor::specs::code::Positions::ruling_in, verdict_cursor::specs::code::Positions::place_by, verdict_cursor::specs::code::Positions::place_in))]

ghost use Rattle.std.specs.Prelude.{◌≡◌};
ghost use Rattle.walk_stop.specs.code.KeptStops.{stop_in};
ghost use Rattle.verdict_cursor.specs.code.Positions.{policy_in, ruling_in, place_in};

use domain::Octet;
use policy::Policy;
use verdict::AppliedPolicy;
use verdict_cursor::{KeptRuling, Place, PlaceKind, Position, Ruling};
use walk_progress::Stop;

// A policy as a number.
fn keep_policy(p: AppliedPolicy) -> usize
    ensures { policy_in result ≡ p }
{
    match p {
        AppliedPolicy::Known(Policy::None) => 0,
        AppliedPolicy::Known(Policy::Quarantine) => 1,
        AppliedPolicy::Known(Policy::Reject) => 2,
        AppliedPolicy::Unknown => 3,
    }
}

// A policy of its number.
fn read_policy(n: usize) -> AppliedPolicy
    ensures { result ≡ policy_in n }
{
    match n {
        0 => AppliedPolicy::Known(Policy::None),
        1 => AppliedPolicy::Known(Policy::Quarantine),
        2 => AppliedPolicy::Known(Policy::Reject),
        _ => AppliedPolicy::Unknown,
    }
}

// An applied record, to keep.
fn keep_ruling(r: Ruling) -> KeptRuling
    ensures { ruling_in result ≡ r }
{
    KeptRuling {
        begin: r.begin,
        settings: txt_codes::encode_settings(r.settings),
        policy: keep_policy(r.policy),
    }
}

// A kept applied record.
fn read_ruling(k: KeptRuling) -> Ruling
    ensures { result ≡ ruling_in k }
{
    Ruling {
        begin: k.begin,
        settings: txt_codes::decode_settings(k.settings),
        policy: read_policy(k.policy),
    }
}

// No applied record.
fn no_ruling() -> KeptRuling
    ensures { result ≡ record { begin = record { 0 = 0 }; settings = 0; policy = 0 } }
{
    KeptRuling {
        begin: Octet(0),
        settings: 0,
        policy: 0,
    }
}

// A place on no walk.
fn at(kind: PlaceKind, ruling: KeptRuling) -> Position
    ensures { (result.kind ≡ kind) × (result.ruling ≡ ruling) }
{
    Position {
        kind,
        ruling,
        walk: 0,
        stop: walk_stop::no_stop(),
    }
}

// A place on a walk.
fn on(kind: PlaceKind, ruling: KeptRuling, walk: usize, s: Stop) -> Position
    ensures { (result.kind ≡ kind) × (result.ruling ≡ ruling) × (result.walk ≡ walk) × (stop_in result.stop ≡ s) }
{
    Position {
        kind,
        ruling,
        walk,
        stop: walk_stop::keep_stop(s),
    }
}

// At the author's own name.
pub fn own_name() -> Position
    ensures { place_in result ≡ Place.OwnName }
{
    at(PlaceKind::OwnName, no_ruling())
}

// On the author's walk, to find a record.
pub fn author(stop: Stop) -> Position
    ensures { place_in result ≡ Place.Author stop }
{
    on(PlaceKind::Author, no_ruling(), 0, stop)
}

// On the author's walk, to complete it.
pub fn completing(ruling: Ruling, stop: Stop) -> Position
    ensures { place_in result ≡ Place.Completing ruling stop }
{
    on(PlaceKind::Completing, keep_ruling(ruling), 0, stop)
}

// On an identifier's walk.
pub fn identifier(ruling: Ruling, walk: usize, stop: Stop) -> Position
    ensures { place_in result ≡ Place.Identifier ruling walk stop }
{
    on(PlaceKind::Identifier, keep_ruling(ruling), walk, stop)
}

// At the verdict, where it is not known which record applies.
pub fn not_known() -> Position
    ensures { place_in result ≡ Place.NotKnown }
{
    at(PlaceKind::NotKnown, no_ruling())
}

// At the verdict, where no record applies.
pub fn no_record() -> Position
    ensures { place_in result ≡ Place.NoRecord }
{
    at(PlaceKind::NoRecord, no_ruling())
}

// At the verdict, with a record that cannot be used.
pub fn not_usable(begin: Octet) -> Position
    ensures { place_in result ≡ Place.NotUsable begin }
{
    at(
        PlaceKind::NotUsable,
        KeptRuling {
            begin,
            ..no_ruling()
        },
    )
}

// At the verdict, by the alignments.
pub fn judged(ruling: Ruling) -> Position
    ensures { place_in result ≡ Place.Judged ruling }
{
    at(PlaceKind::Judged, keep_ruling(ruling))
}

// A kept place.
pub fn read(q: Position) -> Place
    ensures { result ≡ place_in q }
{
    match q.kind {
        PlaceKind::OwnName => Place::OwnName,
        PlaceKind::Author => Place::Author(walk_stop::read_stop(q.stop)),
        PlaceKind::Completing => Place::Completing {
            ruling: read_ruling(q.ruling),
            stop: walk_stop::read_stop(q.stop),
        },
        PlaceKind::Identifier => Place::Identifier {
            ruling: read_ruling(q.ruling),
            walk: q.walk,
            stop: walk_stop::read_stop(q.stop),
        },
        PlaceKind::NotKnown => Place::NotKnown,
        PlaceKind::NoRecord => Place::NoRecord,
        PlaceKind::NotUsable => Place::NotUsable(q.ruling.begin),
        PlaceKind::Judged => Place::Judged(read_ruling(q.ruling)),
    }
}
