// The blanks between the words of an Identity-Alignment field, octet by octet.
#![tactic(auto)]

ghost use Rattle.std.specs.Prelude.{◌≡◌};
ghost use Rattle.field_states.specs.code.States.{after_blank, after_cr, after_lf, closes, ninth, is_open, is_wrong, ends};
ghost use Rattle.field_blanks.specs.code.Rows.{after_space};

use field_states::{Blanks, Side, State};

// Whether blanks may end there.
#[tactic(auto, unfolding(field_states::specs::code::States::is_open))]
fn is_open(b: Blanks) -> bool
    ensures { result ≡ is_open b }
{
    matches!(b, Blanks::Fresh | Blanks::Blank | Blanks::Folded)
}

// The blanks behind a space or a tab.
#[tactic(auto, unfolding(field_states::specs::code::States::after_blank))]
fn read_blank(b: Blanks) -> Blanks
    ensures { result ≡ after_blank b }
{
    match b {
        Blanks::Fresh | Blanks::Blank => Blanks::Blank,
        Blanks::Line | Blanks::Folded => Blanks::Folded,
        Blanks::Escaped => Blanks::Fresh,
        Blanks::Cr | Blanks::Ending | Blanks::Ended | Blanks::Wrong => Blanks::Wrong,
    }
}

// The blanks behind a CR, which folds, or ends the field where a CR LF may.
#[tactic(auto, unfolding(field_states::specs::code::States::after_cr))]
fn read_cr(b: Blanks, closes: bool) -> Blanks
    ensures { result ≡ after_cr closes b }
{
    match b {
        Blanks::Fresh | Blanks::Blank => Blanks::Cr,
        Blanks::Folded if closes => Blanks::Ending,
        _ => Blanks::Wrong,
    }
}

// The blanks behind a LF.
#[tactic(auto, unfolding(field_states::specs::code::States::after_lf))]
fn read_lf(b: Blanks) -> Blanks
    ensures { result ≡ after_lf b }
{
    match b {
        Blanks::Cr => Blanks::Line,
        Blanks::Ending => Blanks::Ended,
        _ => Blanks::Wrong,
    }
}

// The blanks behind a CR, a LF or a blank.
#[tactic(auto, unfolding(crate::specs::code::Rows::after_space))]
pub fn read_space(b: Blanks, closes: bool, x: u8) -> Blanks
    ensures { result ≡ after_space b closes x }
{
    match x {
        b'\r' => read_cr(b, closes),
        b'\n' => read_lf(b),
        _ => read_blank(b),
    }
}

// Whether a CR LF may end the field there.
#[tactic(auto, unfolding(field_states::specs::code::States::closes))]
pub fn may_close(side: Side, depth: usize) -> bool
    ensures { result ≡ closes side depth }
{
    match side {
        Side::Before => false,
        Side::After => depth == 0,
    }
}

// Whether the field may end there.
#[tactic(auto, unfolding(field_states::specs::code::States::ends, field_states::specs::code::States::is_ended))]
pub fn may_end(side: Side, b: Blanks, depth: usize) -> bool
    ensures { result ≡ ends (State.Between side b depth) }
{
    match b {
        Blanks::Line => may_close(side, depth),
        Blanks::Ended => true,
        _ => false,
    }
}

// Whether an octet opens a ninth comment.
#[tactic(auto, unfolding(field_states::specs::code::States::ninth, field_states::specs::code::States::opens, field_states::specs::code::States::depth_of))]
pub fn is_ninth(side: Side, b: Blanks, depth: usize, x: u8) -> bool
    ensures { result ≡ ninth (State.Between side b depth) x }
{
    is_open(b) && x == b'(' && 8 <= depth
}

// Whether an octet was wrong.
#[tactic(auto, unfolding(field_states::specs::code::States::is_wrong, field_states::specs::code::States::is_shut))]
pub fn was_wrong(state: State) -> bool
    ensures { result ≡ is_wrong state }
{
    matches!(state, State::Between(_, Blanks::Wrong, _))
}
