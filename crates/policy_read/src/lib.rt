// A policy record's text: its settings, and its rua text.
#![tactic(auto)]

ghost use Rattle.std.specs.Prelude.{◌≡◌, ◌<◌, drop, take};
ghost use Rattle.policy.specs.Records.{read_policy, rua_begin, rua_length, rua_bounds};
ghost use Rattle.policy_read.specs.code.Values.{value_at, policy_setting, settings_from};

use policy::{Bounds, Setting, Settings};
use policy_gather::Gathered;

// The tags' numbers.
const P: usize = 0;

const SP: usize = 1;

const NP: usize = 2;

const ADKIM: usize = 3;

const ASPF: usize = 4;

const PSD: usize = 5;

const T: usize = 6;

const RUA: usize = 7;

// What a text is.
pub fn read(text: &[u8]) -> Option<Settings>
    ensures { result ≡ read_policy text.now }
{
    match policy_gather::gather(text) {
        Some(tags) => Some(read_settings(text, tags)),
        None => None,
    }
}

// Where the rua text stands in the text; 0 and 0 where there is none.
pub fn rua_bounds(text: &[u8]) -> Bounds
    ensures { result ≡ rua_bounds text.now }
{
    match policy_gather::gather(text) {
        Some(tags) => Bounds {
            begin: tags.begins[RUA],
            length: tags.lengths[RUA],
        },
        None => Bounds {
            begin: 0,
            length: 0,
        },
    }
}

// The rua text, a part of the text; empty where there is none.
pub fn rua(text: &[u8]) -> &[u8]
    ensures { result.now ≡ take (rua_length text.now) (drop (rua_begin text.now) text.now) }
{
    let bounds = rua_bounds(text);
    &text[bounds.begin..bounds.begin + bounds.length]
}

// What the tags set.
fn read_settings(text: &[u8], tags: Gathered) -> Settings
    ensures { result ≡ settings_from (value_at text.now tags) }
{
    Settings {
        p: read_policy(value_at(text, tags, P)),
        sp: read_policy(value_at(text, tags, SP)),
        np: read_policy(value_at(text, tags, NP)),
        adkim: policy_words::read_mode(value_at(text, tags, ADKIM)),
        aspf: policy_words::read_mode(value_at(text, tags, ASPF)),
        psd: policy_words::read_psd(value_at(text, tags, PSD)),
        t: policy_words::read_testing(value_at(text, tags, T)),
        reports: policy_reports::has_valid_entry(value_at(text, tags, RUA)),
    }
}

// The setting of p, sp or np; absent where the value is empty.
#[tactic(auto, using(crate::proofs::RecordLaws::empty_value, crate::proofs::RecordLaws::some_value))]
fn read_policy(value: &[u8]) -> Setting
    ensures { result ≡ policy_setting value.now }
{
    if value.is_empty() {
        Setting::Absent
    } else {
        policy_words::read_setting(value)
    }
}

// The value of a tag; empty where there is none.
fn value_at(text: &[u8], tags: Gathered, number: usize) -> &[u8]
    requires { number < 14 }
    ensures { result.now ≡ value_at text.now tags number }
{
    let rest = text_parts::skip(text, tags.begins[number]);
    text_parts::part(rest, 0, tags.lengths[number])
}
