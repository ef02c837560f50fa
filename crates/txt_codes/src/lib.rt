// The number of an answer's status read; what an answer says of its name, kept as a number and read back.
#![tactic(auto)]

ghost use Rattle.std.specs.Prelude.{◌≡◌, ◌<◌};
ghost use Rattle.txt.specs.Answers.{status_numbered};
ghost use Rattle.txt_codes.specs.code.Codes.{setting_code, mode_code, psd_code, settings_code, reply_code, setting_of, mode_of_code, psd_of, settings_of, reply_of};

use policy::{Mode, Policy, Psd, Setting, Settings};
use txt::{Reply, Status};

// The status of an answer: one that is not listed is an error.
pub fn read_status(n: u8) -> Status
    ensures { result ≡ status_numbered n }
{
    match n {
        0 => Status::Records,
        1 => Status::NoRecords,
        _ => Status::Error,
    }
}

// The setting of p, sp or np, as a digit.
fn encode_setting(x: Setting) -> usize
    ensures { (result ≡ setting_code x) × (result < 5) }
{
    match x {
        Setting::Absent => 0,
        Setting::Invalid => 1,
        Setting::Set(Policy::None) => 2,
        Setting::Set(Policy::Quarantine) => 3,
        Setting::Set(Policy::Reject) => 4,
    }
}

// The mode of adkim or aspf, as a digit.
fn encode_mode(x: Mode) -> usize
    ensures { (result ≡ mode_code x) × (result < 2) }
{
    match x {
        Mode::Relaxed => 0,
        Mode::Strict => 1,
    }
}

// The setting of psd, as a digit.
fn encode_psd(x: Psd) -> usize
    ensures { (result ≡ psd_code x) × (result < 3) }
{
    match x {
        Psd::Unset => 0,
        Psd::Yes => 1,
        Psd::No => 2,
    }
}

// What a record sets, as digits of mixed base.
pub fn encode_settings(s: Settings) -> usize
    ensures { (result ≡ settings_code s) × (result < 6000) }
{
    encode_setting(s.p)
        + 5 * encode_setting(s.sp)
        + 25 * encode_setting(s.np)
        + 125 * encode_mode(s.adkim)
        + 250 * encode_mode(s.aspf)
        + 500 * encode_psd(s.psd)
        + 1500 * usize::from(s.t)
        + 3000 * usize::from(s.reports)
}

// A reply as a number, to keep.
pub fn encode(r: Reply) -> usize
    ensures { result ≡ reply_code r }
{
    match r {
        Reply::Error => 0,
        Reply::NoRecord => 1,
        Reply::Record(s) => 2 + encode_settings(s),
    }
}

// The setting of p, sp or np, of its digit.
fn decode_setting(n: usize) -> Setting
    ensures { result ≡ setting_of n }
{
    match n {
        0 => Setting::Absent,
        1 => Setting::Invalid,
        2 => Setting::Set(Policy::None),
        3 => Setting::Set(Policy::Quarantine),
        _ => Setting::Set(Policy::Reject),
    }
}

// The mode of adkim or aspf, of its digit.
fn decode_mode(n: usize) -> Mode
    ensures { result ≡ mode_of_code n }
{
    match n {
        0 => Mode::Relaxed,
        _ => Mode::Strict,
    }
}

// The setting of psd, of its digit.
fn decode_psd(n: usize) -> Psd
    ensures { result ≡ psd_of n }
{
    match n {
        0 => Psd::Unset,
        1 => Psd::Yes,
        _ => Psd::No,
    }
}

// What a record sets, of its digits.
pub fn decode_settings(n: usize) -> Settings
    ensures { result ≡ settings_of n }
{
    Settings {
        p: decode_setting(n % 5),
        sp: decode_setting(n / 5 % 5),
        np: decode_setting(n / 25 % 5),
        adkim: decode_mode(n / 125 % 2),
        aspf: decode_mode(n / 250 % 2),
        psd: decode_psd(n / 500 % 3),
        t: n / 1500 % 2 != 0,
        reports: n / 3000 % 2 != 0,
    }
}

// A kept reply.
pub fn decode(code: usize) -> Reply
    ensures { result ≡ reply_of code }
{
    match code {
        0 => Reply::Error,
        1 => Reply::NoRecord,
        _ => Reply::Record(decode_settings(code - 2)),
    }
}
