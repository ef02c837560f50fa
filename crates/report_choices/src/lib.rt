// Where a word of the form of an aggregate report leads.
#![tactic(auto)]

ghost use Rattle.std.specs.Prelude.{◌≡◌, ◌-◌, get_or, Ok};
ghost use Rattle.report_choices.specs.code.Choices.{first_number, word_count, by_place, word_next, chosen_by, LeavesWord};

use report_kept::{ReaderState, Turn};

// The number of each word node's first word, how many it has, and where most of them lead.
const FIRSTS: [u8; 16] = [
    36, 38, 41, 44, 47, 49, 52, 54, 56, 58, 62, 64, 66, 69, 72, 75,
];

const COUNTS: [u8; 16] = [2, 3, 3, 3, 2, 3, 2, 2, 2, 4, 2, 2, 3, 3, 3, 2];

const NEXTS: [u8; 16] = [0, 8, 0, 9, 0, 10, 11, 12, 13, 17, 19, 22, 0, 28, 31, 0];

// What a table says of a node.
fn look_up(table: &[u8], node: u8) -> u8
    ensures { result ≡ get_or table.now (node - 36) 0 }
{
    let place = node.saturating_sub(36) as usize;
    table.get(place).copied().unwrap_or(0)
}

// The number of a node's first word.
#[tactic(auto, unfolding(crate::specs::code::Choices::first_number))]
pub fn find_first(node: u8) -> u8
    ensures { result ≡ first_number node }
{
    look_up(&FIRSTS, node)
}

// How many words a node has.
#[tactic(auto, unfolding(crate::specs::code::Choices::word_count))]
pub fn count_words(node: u8) -> u8
    ensures { result ≡ word_count node }
{
    look_up(&COUNTS, node)
}

// One of two nodes, or of three, by a word's place.
#[tactic(auto, unfolding(crate::specs::code::Choices::by_place))]
fn choose(k: u8, first: u8, second: u8, third: u8) -> u8
    ensures { result ≡ by_place k first second third }
{
    match k {
        0 => first,
        1 => second,
        _ => third,
    }
}

// The node behind a word.
#[tactic(auto, unfolding(crate::specs::code::Choices::by_place, crate::specs::code::Choices::word_next, crate::specs::code::Choices::plain_next))]
fn find_next(node: u8, k: u8) -> u8
    ensures { result ≡ word_next node k }
{
    match node {
        36 => choose(k, 54, 55, 55),
        38 => choose(k, 39, 41, 42),
        40 => choose(k, 41, 42, 42),
        48 => choose(k, 25, 29, 33),
        51 => choose(k, 14, 65, 65),
        _ => look_up(&NEXTS, node),
    }
}

// What is known behind a word; behind a record's beginning one less may follow it.
#[tactic(auto, unfolding(crate::specs::code::Choices::chosen_by, crate::specs::code::Choices::one_record, report_kept::specs::code::View::judged, report_kept::specs::code::View::flagged, octets::specs::Octets::flag))]
fn note_word(s: ReaderState, node: u8, k: u8) -> ReaderState
    ensures { result ≡ chosen_by node k s }
{
    match node {
        45 => ReaderState {
            disposition: k,
            ..s
        },
        46 => ReaderState {
            dkim: u8::from(k == 1),
            ..s
        },
        47 => ReaderState {
            spf: u8::from(k == 1),
            ..s
        },
        49 | 50 => ReaderState { outcome: k, ..s },
        51 if k == 0 => ReaderState {
            left: s.left.saturating_sub(1),
            ..s
        },
        _ => s,
    }
}

// Behind a word.
pub fn leave_word(s: ReaderState, k: u8) -> Turn
    ensures { LeavesWord s k (Ok result) }
{
    let node = s.node;
    report_kept::go_on(report_kept::arrive(note_word(s, node, k), find_next(node, k)))
}
