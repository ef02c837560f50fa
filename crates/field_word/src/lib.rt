// The words of an Identity-Alignment field, octet by octet.
#![tactic(auto)]

ghost use Rattle.std.specs.Prelude.{◌≡◌, drop};
ghost use Rattle.field_states.specs.code.States.{word_text, spelled, behind, reader, turn};
ghost use Rattle.field_word.specs.code.Repeated.{repeated_size};

use field_states::{Blanks, Misread, Reader, Side, Spelled, State, Word};

// What an octet makes of a word, of which `k` octets are read.
fn spell(word: &[u8], k: usize, x: u8) -> Spelled
    ensures { result ≡ spelled (drop k word.now) x }
{
    if word.len() <= k || x.to_ascii_lowercase() != word[k] {
        Spelled::Wrong
    } else if k + 1 < word.len() {
        Spelled::Further
    } else {
        Spelled::Whole
    }
}

// The same, of a word by its name.
#[tactic(auto, unfolding(field_states::specs::code::States::word_text, octets::specs::Octets::octets))]
fn spell_word(w: Word, k: usize, x: u8) -> Spelled
    ensures { result ≡ spelled (drop k (word_text w)) x }
{
    match w {
        Word::Name => spell(b"identity-alignment:", k, x),
        Word::None => spell(b"none", k, x),
        Word::Dkim => spell(b"dkim", k, x),
        Word::Spf => spell(b"spf", k, x),
    }
}

// Behind a whole word.
#[tactic(auto, unfolding(field_states::specs::code::States::behind, field_states::specs::code::States::reader))]
fn read_behind(w: Word, dkim: bool, spf: bool) -> Reader
    ensures { result ≡ behind w dkim spf }
{
    let before = State::Between(Side::Before, Blanks::Fresh, 0);
    let after = State::Between(Side::After, Blanks::Fresh, 0);
    match w {
        Word::Name => Reader {
            state: before,
            dkim,
            spf,
        },
        Word::None => Reader {
            state: after,
            dkim,
            spf,
        },
        Word::Dkim => Reader {
            state: after,
            dkim: true,
            spf,
        },
        Word::Spf => Reader {
            state: after,
            dkim,
            spf: true,
        },
    }
}

// The octets of a method that was read before.
#[tactic(auto, unfolding(crate::specs::code::Repeated::repeated_size))]
fn repeated_size(w: Word, dkim: bool, spf: bool) -> Option<usize>
    ensures { result ≡ repeated_size w dkim spf }
{
    match w {
        Word::Dkim if dkim => Some(4),
        Word::Spf if spf => Some(3),
        _ => None,
    }
}

// The reader behind an octet within a word, or why the octet is refused.
pub fn turn_in_word(w: Word, k: usize, dkim: bool, spf: bool, x: u8) -> Result<Reader, Misread>
    ensures { result ≡ turn (reader (State.Spelling w k) dkim spf) x }
{
    match spell_word(w, k, x) {
        Spelled::Wrong => Err(Misread::Wrong),
        Spelled::Further => Ok(Reader {
            state: State::Spelling(w, k + 1),
            dkim,
            spf,
        }),
        Spelled::Whole => match repeated_size(w, dkim, spf) {
            Some(size) => Err(Misread::Again(size)),
            None => Ok(read_behind(w, dkim, spf)),
        },
    }
}
