// Between the words of an Identity-Alignment field: comments, commas and the first letters of words, octet by octet.
#![tactic(auto)]

ghost use Rattle.std.specs.Prelude.{◌≡◌, ◌||◌, false, ◌<◌, eqb};
ghost use Rattle.octets.specs.Octets.{is_blank};
ghost use Rattle.field_states.specs.code.States.{outside_comment, inside_comment, token, after_other, between_step, reader, ninth, turn};

use field_states::{Blanks, Misread, Reader, Side, State, Word};

// The state behind an octet that is wrong.
const WRONG: State = State::Between(Side::Before, Blanks::Wrong, 0);

// An octet in no comment.
#[tactic(auto, unfolding(field_states::specs::code::States::outside_comment, field_states::specs::code::States::wrong))]
fn read_outside(side: Side, dkim: bool, spf: bool, x: u8) -> State
    ensures { result ≡ outside_comment side dkim spf x }
{
    match side {
        Side::Before => read_letter(dkim, spf, x),
        Side::After => {
            if x == b',' && (dkim || spf) {
                State::Between(Side::Before, Blanks::Fresh, 0)
            } else {
                WRONG
            }
        }
    }
}

// The first letter of a word; `none` stands alone.
#[tactic(auto, using(field_word::proofs::SpellLaws::lowered_octet), unfolding(field_states::specs::code::States::outside_comment, field_states::specs::code::States::wrong))]
fn read_letter(dkim: bool, spf: bool, x: u8) -> State
    ensures { result ≡ outside_comment Side.Before dkim spf x }
{
    match x.to_ascii_lowercase() {
        b'd' => State::Spelling(Word::Dkim, 1),
        b's' => State::Spelling(Word::Spf, 1),
        b'n' if !dkim && !spf => State::Spelling(Word::None, 1),
        _ => WRONG,
    }
}

// An octet in a comment.
#[tactic(auto, unfolding(field_states::specs::code::States::inside_comment, field_states::specs::code::States::wrong))]
fn read_inside(side: Side, depth: usize, x: u8) -> State
    requires { 0 < depth }
    ensures { result ≡ inside_comment side depth x }
{
    match x {
        b')' => State::Between(side, Blanks::Fresh, depth - 1),
        b'\\' => State::Between(side, Blanks::Escaped, depth),
        _ if text_class::is_between(x, 33, 126) => State::Between(side, Blanks::Fresh, depth),
        _ => WRONG,
    }
}

// Whether an octet is a blank, CR or LF.
fn is_space(x: u8) -> bool
    ensures { result ≡ (is_blank x || (eqb x 13 || eqb x 10)) }
{
    text_class::is_blank(x) || x == b'\r' || x == b'\n'
}

// The state behind an octet that is no blank, CR or LF, where blanks may end.
#[tactic(auto, unfolding(field_states::specs::code::States::token))]
fn read_token(side: Side, depth: usize, dkim: bool, spf: bool, x: u8) -> State
    requires { x ≡ 40 → depth < 8 }
    ensures { result ≡ token side depth dkim spf x }
{
    if x == b'(' {
        State::Between(side, Blanks::Fresh, depth + 1)
    } else if depth == 0 {
        read_outside(side, dkim, spf, x)
    } else {
        read_inside(side, depth, x)
    }
}

// The state behind an octet that is no blank, CR or LF, and opens no ninth comment.
#[tactic(auto, unfolding(field_states::specs::code::States::after_other, field_states::specs::code::States::escaped, field_states::specs::code::States::wrong))]
fn read_other(side: Side, b: Blanks, depth: usize, dkim: bool, spf: bool, x: u8) -> State
    requires { ninth (State.Between side b depth) x ≡ false }
    ensures { result ≡ after_other b side depth dkim spf x }
{
    match b {
        Blanks::Fresh | Blanks::Blank | Blanks::Folded => read_token(side, depth, dkim, spf, x),
        Blanks::Escaped if text_class::is_between(x, 33, 126) => {
            State::Between(side, Blanks::Fresh, depth)
        }
        _ => WRONG,
    }
}

// The state behind an octet between words that opens no ninth comment.
fn read_between(side: Side, b: Blanks, depth: usize, dkim: bool, spf: bool, x: u8) -> State
    requires { ninth (State.Between side b depth) x ≡ false }
    ensures { result ≡ between_step side b depth dkim spf x }
{
    if is_space(x) {
        let closes = field_blanks::may_close(side, depth);
        State::Between(side, field_blanks::read_space(b, closes, x), depth)
    } else {
        read_other(side, b, depth, dkim, spf, x)
    }
}

// The reader behind an octet between words, or why the octet is refused.
pub fn turn_between(
    side: Side,
    b: Blanks,
    depth: usize,
    dkim: bool,
    spf: bool,
    x: u8,
) -> Result<Reader, Misread>
    ensures { result ≡ turn (reader (State.Between side b depth) dkim spf) x }
{
    if field_blanks::is_ninth(side, b, depth, x) {
        return Err(Misread::TooDeep);
    }
    let state = read_between(side, b, depth, dkim, spf, x);
    if field_blanks::was_wrong(state) {
        Err(Misread::Wrong)
    } else {
        Ok(Reader { state, dkim, spf })
    }
}
