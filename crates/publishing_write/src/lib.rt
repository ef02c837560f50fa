// A policy record written from its settings and a rua text.
#![tactic(auto)]

ghost use Rattle.std.specs.Prelude.{◌≡◌};
ghost use Rattle.octets.specs.Refusing.{refusal};
ghost use Rattle.octets.specs.Lent.{WritesIf};
ghost use Rattle.publishing.specs.Publishing.{tag_text, record_octets, written_record};
ghost use Rattle.octets_pieces.specs.code.Putting.{Puts};
ghost use Rattle.publishing_write.specs.code.TagWords.{setting_word, mode_word, psd_word, testing_word, value_words, tag_words, tags_from};

use octets::Refusal;
use policy::{Mode, Policy, Psd, Setting, Settings};

// The number of no word, and the tag is left out. A number past the table is none for `put_words` too, so an `Option` is no plainer.
const NO_WORD: u8 = 25;

// The number of the word of p, sp or np.
#[tactic(auto, unfolding(crate::specs::code::TagWords::setting_word))]
fn setting_word(s: Setting) -> u8
    ensures { result ≡ setting_word s }
{
    match s {
        Setting::Set(Policy::None) => 14,
        Setting::Set(Policy::Quarantine) => 15,
        Setting::Set(Policy::Reject) => 16,
        Setting::Absent | Setting::Invalid => NO_WORD,
    }
}

// The number of the word of adkim or aspf: r is the default.
#[tactic(auto, unfolding(crate::specs::code::TagWords::mode_word))]
fn mode_word(m: Mode) -> u8
    ensures { result ≡ mode_word m }
{
    match m {
        Mode::Relaxed => NO_WORD,
        Mode::Strict => 18,
    }
}

// The number of the word of psd: u is the default.
#[tactic(auto, unfolding(crate::specs::code::TagWords::psd_word))]
fn psd_word(p: Psd) -> u8
    ensures { result ≡ psd_word p }
{
    match p {
        Psd::Yes => 19,
        Psd::No => 20,
        Psd::Unset => NO_WORD,
    }
}

// The number of the word of t: n is the default.
#[tactic(auto, unfolding(crate::specs::code::TagWords::testing_word))]
fn testing_word(t: bool) -> u8
    ensures { result ≡ testing_word t }
{
    if t { 19 } else { NO_WORD }
}

// The numbers of the words of p, sp, np, adkim, aspf, psd and t, which stand in the order of the tags' own numbers.
#[tactic(auto, unfolding(crate::specs::code::TagWords::value_words))]
fn value_words(s: Settings) -> [u8; 7]
    ensures { result ≡ value_words s }
{
    [
        setting_word(s.p),
        setting_word(s.sp),
        setting_word(s.np),
        mode_word(s.adkim),
        mode_word(s.aspf),
        psd_word(s.psd),
        testing_word(s.t),
    ]
}

// A tag by the numbers of its name and of its value's word.
fn put_tag(name: u8, value: u8, at: usize, out: &mut [u8]) -> usize
    ensures { Puts (tag_words name value) at out.old result out.new }
{
    if NO_WORD <= value {
        at
    } else {
        policy_words::put_words(&[23, name, 24, value], at, out)
    }
}

// The seven tags before rua.
fn put_tags(values: [u8; 7], at: usize, out: &mut [u8]) -> usize
    ensures { Puts (tags_from 0 values) at out.old result out.new }
{
    let mut end = at;
    for name in 0..7 {
        end = put_tag(name, values[usize::from(name)], end, out);
    }
    end
}

// The tag rua.
fn put_rua(rua: &[u8], at: usize, out: &mut [u8]) -> usize
    ensures { Puts (tag_text ("rua", rua.now)) at out.old result out.new }
{
    if rua.is_empty() {
        at
    } else {
        let begin = policy_words::put_words(&[23, 7, 24], at, out);
        octets_pieces::put(rua, begin, out)
    }
}

// A record into the front of lent memory, and its length, counted on where there is no room.
fn put_record(s: Settings, rua: &[u8], out: &mut [u8]) -> usize
    ensures { Puts (record_octets s rua.now) 0 out.old result out.new }
{
    let values = value_words(s);
    let first = policy_words::put_words(&[22], 0, out);
    let last = put_tags(values, first, out);
    put_rua(rua, last, out)
}

// A refusal with no place.
fn refused(number: u8) -> Result<usize, Refusal>
    ensures { result ≡ Err (refusal number 0) }
{
    Err(Refusal { number, place: 0 })
}

// A record into the front of lent memory.
pub fn write_record(s: Settings, rua: &[u8], out: &mut [u8]) -> Result<usize, Refusal>
    ensures { WritesIf (written_record s rua.now) out.old result out.new }
{
    let usable = force_policies::is_usable(s);
    let good = publishing_rua::is_rua(rua);
    if !usable {
        return refused(15);
    }
    if !good {
        return refused(16);
    }
    let mut none = [0u8; 1];
    let needed = put_record(s, rua, &mut none);
    if out.len() < needed {
        return octets_write::too_short(needed);
    }
    Ok(put_record(s, rua, out))
}
