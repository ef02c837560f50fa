// The small tables: the step down of a policy, and the words of a policy record, as it is read and as it is written.
#![tactic(auto)]

ghost use Rattle.std.specs.Prelude.{false, ◌≡◌, ◌≤◌, ◌-◌};
ghost use Rattle.octets.specs.Octets.{lower};
ghost use Rattle.policy.specs.Records.{word, policy_words, mode_words, psd_words, testing_words};
ghost use Rattle.force.specs.InForce.{step_down};
ghost use Rattle.octets_pieces.specs.code.Putting.{Puts};
ghost use Rattle.policy_words.specs.code.Rows.{policy_number, tag_number, words_of, word_place};

use policy::{Mode, Policy, Psd, Setting};

// By the policy's number.
const STEP_DOWN: [Policy; 3] = [Policy::None, Policy::None, Policy::Quarantine];

// The words of a policy record by their numbers, one after the other, and where each begins: from 0 the known tag names and the others of RFC 9989's registry, from 14 the words of p, sp and np, from 17 those of adkim and aspf, from 19 those of psd, which begin with those of t; and from 22 what else is written.
static WORDS: [u8; 70] = *b"pspnpadkimaspfpsdtruavruffopctrfrinonequarantinerejectrsynuv=DMARC1; =";

static BEGINS: [u16; 26] = [
    0, 1, 3, 5, 10, 14, 17, 18, 21, 22, 25, 27, 30, 32, 34, 38, 48, 54, 55, 56, 57, 58, 59, 67, 69,
    70,
];

// What a value's words say, and last what any other value says.
const SETTINGS: [Setting; 4] = [
    Setting::Set(Policy::None),
    Setting::Set(Policy::Quarantine),
    Setting::Set(Policy::Reject),
    Setting::Invalid,
];

const MODES: [Mode; 3] = [Mode::Relaxed, Mode::Strict, Mode::Relaxed];

const PSDS: [Psd; 4] = [Psd::Yes, Psd::No, Psd::Unset, Psd::Unset];

const TESTINGS: [bool; 3] = [true, false, false];

// One step down from a policy.
pub fn step_down(p: Policy) -> Policy
    ensures { result ≡ step_down p }
{
    STEP_DOWN[policy_number(p)]
}

// The policy's row in a table. By cases: the proof does not compute an entry at `p as usize`.
#[tactic(auto, unfolding(crate::specs::code::Rows::policy_number))]
fn policy_number(p: Policy) -> usize
    ensures { result ≡ policy_number p }
{
    match p {
        Policy::None => 0,
        Policy::Quarantine => 1,
        Policy::Reject => 2,
    }
}

// The place of a text, in either case, among the words from one number to before another; how many they are where it is none of them, which is the last row of a table.
fn find_word(s: &[u8], first: u8, last: u8) -> usize
    ensures place { result ≡ word_place s.now first last }
    ensures bound { result ≤ last - first }
{
    for i in first..last {
        if octets_write::same_text(s, octets_pieces::find_piece(&WORDS, &BEGINS, i)) {
            return usize::from(i - first);
        }
    }
    usize::from(last.saturating_sub(first))
}

// The words of a list of numbers from a place of lent memory on, and the place after them; a number past the last is nothing.
pub fn put_words(list: &[u8], at: usize, out: &mut [u8]) -> usize
    ensures { Puts (words_of list.now) at out.old result out.new }
{
    octets_pieces::put_pieces(&WORDS, &BEGINS, list, at, out)
}

// The number of a tag name, in either case; 14 where it is not known, as docs/CLAIMS.md names it.
pub fn tag_number(name: &[u8]) -> usize
    ensures { result ≡ tag_number (lower name.now) }
{
    find_word(name, 0, 14)
}

// What a value of p, sp or np says.
pub fn read_setting(value: &[u8]) -> Setting
    ensures { result ≡ word policy_words Setting.Invalid value.now }
{
    SETTINGS[find_word(value, 14, 17)]
}

// What a value of adkim or aspf says.
pub fn read_mode(value: &[u8]) -> Mode
    ensures { result ≡ word mode_words Mode.Relaxed value.now }
{
    MODES[find_word(value, 17, 19)]
}

// What a value of psd says.
pub fn read_psd(value: &[u8]) -> Psd
    ensures { result ≡ word psd_words Psd.Unset value.now }
{
    PSDS[find_word(value, 19, 22)]
}

// What a value of t says.
pub fn read_testing(value: &[u8]) -> bool
    ensures { result ≡ word testing_words false value.now }
{
    TESTINGS[find_word(value, 19, 21)]
}
