// Settings and answers by numbers, as programs in other languages hand them over and get them.
#![tactic(auto)]

ghost use Rattle.std.specs.Prelude.{◌≡◌};
ghost use Rattle.publishing.specs.Numbers.{setting_in, mode_in, psd_in, settings_in, setting_number, mode_number, psd_number, numbers_of, read_numbers};

use policy::{Bounds, Mode, Policy, Psd, Setting, Settings};
use publishing::{RecordNumbers, RecordRead};

// The setting of p, sp or np.
#[tactic(auto, using(crate::proofs::NumberLaws::setting_rest), unfolding(publishing::specs::Numbers::setting_in))]
fn setting_in(n: u8) -> Setting
    ensures { result ≡ setting_in n }
{
    match n {
        0 => Setting::Set(Policy::None),
        1 => Setting::Set(Policy::Quarantine),
        2 => Setting::Set(Policy::Reject),
        3 => Setting::Absent,
        _ => Setting::Invalid,
    }
}

// The mode of adkim or aspf.
#[tactic(auto, using(crate::proofs::NumberLaws::mode_rest), unfolding(publishing::specs::Numbers::mode_in))]
fn mode_in(n: u8) -> Mode
    ensures { result ≡ mode_in n }
{
    match n {
        1 => Mode::Strict,
        _ => Mode::Relaxed,
    }
}

// The setting of psd.
#[tactic(auto, using(crate::proofs::NumberLaws::psd_rest), unfolding(publishing::specs::Numbers::psd_in))]
fn psd_in(n: u8) -> Psd
    ensures { result ≡ psd_in n }
{
    match n {
        1 => Psd::Yes,
        2 => Psd::No,
        _ => Psd::Unset,
    }
}

// The settings of numbers.
#[tactic(auto, using(crate::proofs::NumberLaws::testing_is), unfolding(publishing::specs::Numbers::settings_in))]
pub fn settings_in(n: RecordNumbers) -> Settings
    ensures { result ≡ settings_in n }
{
    Settings {
        p: setting_in(n.p),
        sp: setting_in(n.sp),
        np: setting_in(n.np),
        adkim: mode_in(n.adkim),
        aspf: mode_in(n.aspf),
        psd: psd_in(n.psd),
        t: n.t == 1,
        reports: false,
    }
}

// The number of p, sp or np.
#[tactic(auto, unfolding(publishing::specs::Numbers::setting_number))]
fn setting_number(s: Setting) -> u8
    ensures { result ≡ setting_number s }
{
    match s {
        Setting::Set(Policy::None) => 0,
        Setting::Set(Policy::Quarantine) => 1,
        Setting::Set(Policy::Reject) => 2,
        Setting::Absent => 3,
        Setting::Invalid => 4,
    }
}

// The number of adkim or aspf.
#[tactic(auto, unfolding(publishing::specs::Numbers::mode_number))]
fn mode_number(m: Mode) -> u8
    ensures { result ≡ mode_number m }
{
    match m {
        Mode::Relaxed => 0,
        Mode::Strict => 1,
    }
}

// The number of psd.
#[tactic(auto, unfolding(publishing::specs::Numbers::psd_number))]
fn psd_number(p: Psd) -> u8
    ensures { result ≡ psd_number p }
{
    match p {
        Psd::Unset => 0,
        Psd::Yes => 1,
        Psd::No => 2,
    }
}

// The numbers of settings.
#[tactic(auto, using(crate::proofs::NumberLaws::testing_from), unfolding(publishing::specs::Numbers::numbers_of))]
fn numbers_of(s: Settings) -> RecordNumbers
    ensures { result ≡ numbers_of s }
{
    RecordNumbers {
        p: setting_number(s.p),
        sp: setting_number(s.sp),
        np: setting_number(s.np),
        adkim: mode_number(s.adkim),
        aspf: mode_number(s.aspf),
        psd: psd_number(s.psd),
        t: u8::from(s.t),
    }
}

// What reading gave: all 0 where the text is no policy record.
#[tactic(auto, unfolding(publishing::specs::Numbers::read_numbers))]
pub fn read_numbers(r: Option<Settings>, b: Bounds) -> RecordRead
    ensures { result ≡ read_numbers r b }
{
    match r {
        None => RecordRead::default(),
        Some(s) => RecordRead {
            is_record: true,
            numbers: numbers_of(s),
            reports: s.reports,
            rua_begin: b.begin,
            rua_length: b.length,
        },
    }
}
