// Reading the Identity-Alignment field.
#![tactic(auto)]

ghost use Rattle.std.specs.Prelude.{◌≡◌};
ghost use Rattle.octets.specs.Refusing.{refusal};
ghost use Rattle.field.specs.Numbers.{field_answer, field_read};
ghost use Rattle.field_states.specs.code.States.{turn, ends, ended};

use field::NamedMethods;
use field_states::{Misread, Reader, State, Word};
use octets::Refusal;

// A refusal at a place.
fn refuse(number: u8, place: usize) -> Result<NamedMethods, Refusal>
    ensures { result ≡ Err (refusal number place) }
{
    Err(Refusal { number, place })
}

// The reader after one octet more, or why the octet is refused.
fn take_turn(r: Reader, x: u8) -> Result<Reader, Misread>
    ensures { result ≡ turn r x }
{
    match r.state {
        State::Spelling(w, k) => field_word::turn_in_word(w, k, r.dkim, r.spf, x),
        State::Between(side, b, depth) => {
            field_gap::turn_between(side, b, depth, r.dkim, r.spf, x)
        }
    }
}

// Whether the field may end in a state.
#[tactic(auto, unfolding(field_states::specs::code::States::ends))]
fn may_end(state: State) -> bool
    ensures { result ≡ ends state }
{
    match state {
        State::Spelling(_, _) => false,
        State::Between(side, b, depth) => field_blanks::may_end(side, b, depth),
    }
}

// What was read, where the text ends.
#[tactic(auto, unfolding(field_states::specs::code::States::ended, field::specs::Numbers::field_answer))]
fn read_end(r: Reader, length: usize) -> Result<NamedMethods, Refusal>
    ensures { result ≡ field_answer (ended length r) }
{
    if may_end(r.state) {
        Ok(NamedMethods {
            dkim: r.dkim,
            spf: r.spf,
        })
    } else {
        refuse(24, length)
    }
}

// The methods that a field names, or why a text is no field.
pub fn read_field(text: &[u8]) -> Result<NamedMethods, Refusal>
    ensures { result ≡ field_read text.now }
{
    let mut r = Reader {
        state: State::Spelling(Word::Name, 0),
        dkim: false,
        spf: false,
    };
    for (at, x) in text.iter().enumerate() {
        match take_turn(r, *x) {
            Ok(next) => {
                r = next;
            }
            Err(Misread::Wrong) => return refuse(24, at),
            Err(Misread::TooDeep) => return refuse(25, at),
            Err(Misread::Again(size)) => return refuse(26, (at + 1).saturating_sub(size)),
        }
    }
    read_end(r, text.len())
}
