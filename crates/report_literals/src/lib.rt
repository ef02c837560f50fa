// One octet of a literal of the form of an aggregate report, and where it leads.
#![tactic(auto)]

ghost use Rattle.std.specs.Prelude.{◌≡◌};
ghost use Rattle.report_literals.specs.code.Literals.{dkim_number, spf_number, results_number, next_number_of, behind_number, closed_if, flagged_by, LeavesLiteral, TurnsLiteral};

use report_kept::{ReaderState, Turn, Written};
use report_steps::{Leaf, Refusal};

// Where most literals lead.
const NEXTS: [u8; 36] = [
    52, 53, 36, 55, 56, 57, 59, 37, 38, 40, 42, 43, 44, 14, 64, 58, 45, 46, 19, 47, 22, 22, 60, 24,
    48, 61, 62, 49, 24, 63, 50, 33, 33, 34, 51, 65,
];

// The node of `dkim`, by the disposition: none shuts out pass.
#[tactic(auto, unfolding(crate::specs::code::Literals::dkim_number))]
fn find_dkim(disposition: u8) -> u8
    ensures { result ≡ dkim_number disposition }
{
    if disposition == 1 { 18 } else { 46 }
}

// The node of `spf`: none shuts out pass, and pass with dkim fail shuts out fail.
#[tactic(auto, unfolding(crate::specs::code::Literals::spf_number, octets::specs::Octets::is_set))]
fn find_spf(disposition: u8, dkim: u8) -> u8
    ensures { result ≡ spf_number disposition dkim }
{
    match disposition {
        1 => 20,
        2 | 3 => 47,
        _ if dkim != 0 => 47,
        _ => 21,
    }
}

// The node behind so many identifiers.
#[tactic(auto, unfolding(crate::specs::code::Literals::results_number))]
fn find_results(identifiers: u8) -> u8
    ensures { result ≡ results_number identifiers }
{
    if identifiers < 16 { 24 } else { 32 }
}

// The node behind a literal.
#[tactic(auto, unfolding(crate::specs::code::Literals::next_number_of, crate::specs::code::Literals::nexts))]
pub fn find_next(node: u8, disposition: u8, dkim: u8, identifiers: u8, left: u16) -> u8
    ensures { result ≡ next_number_of node disposition dkim identifiers left }
{
    match node {
        17 => find_dkim(disposition),
        19 => find_spf(disposition, dkim),
        23 => find_results(identifiers),
        33 if left == 0 => 35,
        33 => 34,
        _ => NEXTS.get(node as usize).copied().unwrap_or(0),
    }
}

// What a literal says of dkim and spf.
#[tactic(auto, unfolding(crate::specs::code::Literals::flagged_by, report_kept::specs::code::View::flagged))]
fn set_flags(s: ReaderState, node: u8) -> ReaderState
    ensures { result ≡ flagged_by node s }
{
    match node {
        18 => ReaderState { dkim: 0, ..s },
        20 => ReaderState { spf: 0, ..s },
        21 => ReaderState { spf: 1, ..s },
        _ => s,
    }
}

// The node behind an identifier of a kind.
#[tactic(auto, unfolding(crate::specs::code::Literals::behind_number))]
fn find_behind(kind: u8, identifiers: u8) -> u8
    ensures { result ≡ behind_number kind identifiers }
{
    if kind == 1 {
        find_results(identifiers)
    } else {
        33
    }
}

// The open identifier, of a kind, ends: its lengths, outcome and kind are written.
fn close_identifier(s: ReaderState, kind: u8) -> Result<Turn, Refusal>
    ensures { result ≡ closed_if kind s }
{
    let n = s.identifiers;
    if 16 <= n {
        return Err(Refusal::Outside);
    }
    let more = n + 1;
    let after = report_kept::arrive(s, find_behind(kind, more));
    Ok(Turn {
        gives: false,
        state: ReaderState {
            identifiers: more,
            domain: 0,
            selector: 0,
            outcome: 0,
            ..after
        },
        written: Written::Four(778 + 510 * n as u16, s.domain, s.selector, s.outcome, kind),
    })
}

// Behind a literal.
pub fn leave_literal(s: ReaderState) -> Result<Turn, Refusal>
    ensures { LeavesLiteral s result }
{
    let node = s.node;
    let next = find_next(node, s.disposition, s.dkim, s.identifiers, s.left);
    match node {
        14 => Ok(report_kept::go_on(report_kept::begin_address(s))),
        28 => close_identifier(s, 1),
        31 => close_identifier(s, 0),
        33 => Ok(report_kept::hand_out(report_kept::arrive(s, next))),
        _ => Ok(report_kept::go_on(report_kept::arrive(set_flags(s, node), next))),
    }
}

// An octet of a literal.
pub fn turn_literal(s: ReaderState, x: u8) -> Result<Turn, Refusal>
    ensures { TurnsLiteral s x result }
{
    let at = s.at;
    if 116 <= at {
        return Err(Refusal::Outside);
    }
    match report_words::step_piece(s.node, at, x)? {
        Leaf::More(()) => Ok(report_kept::go_on(ReaderState { at: at + 1, ..s })),
        Leaf::Ended => leave_literal(s),
    }
}
