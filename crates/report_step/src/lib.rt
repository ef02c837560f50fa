// One octet of an aggregate report, as it changes a reader's state and its row.
#![tactic(auto)]

ghost use Rattle.std.specs.Prelude.{◌≡◌};
ghost use Rattle.report_kept.specs.code.View.{is_broken, Turned};

use report_kept::{ReaderState, Turn};
use report_steps::Refusal;

// Whether no text leads to a node behind so many identifiers.
#[tactic(auto, unfolding(report_kept::specs::code::View::is_broken, report_kept::specs::code::View::within_identifier, octets::specs::Octets::between))]
pub fn cannot_be(node: u8, identifiers: u8) -> bool
    ensures { result ≡ is_broken node identifiers }
{
    match node {
        24..=31 | 48..=50 | 61..=63 => 16 <= identifiers,
        _ => false,
    }
}

// An octet; whether five groups 0 stand before an address's open one is told.
pub fn step(s: ReaderState, five: bool, x: u8) -> Result<Turn, Refusal>
    ensures { Turned s five x result }
{
    let node = s.node;
    if cannot_be(node, s.identifiers) {
        return Err(Refusal::Outside);
    }
    match node {
        0..=35 => report_literals::turn_literal(s, x),
        36..=51 => report_picks::turn_word(s, x),
        52..=54 => report_turns::turn_text(s, x),
        55 => report_turns::turn_id(s, x),
        56..=58 => report_turns::turn_number(s, x),
        59..=63 => report_names::turn_name(s, x),
        64 => report_origin::turn_source(s, five, x),
        _ => Err(Refusal::Outside),
    }
}
