// The lines that are printed for a sheet, from a place of lent memory on.
#![tactic(auto)]

ghost use Rattle.std.specs.Prelude.{[], ◌≡◌, ◌≤◌, length, get_or};
ghost use Rattle.octets.specs.Octets.{octets};
ghost use Rattle.octets_pieces.specs.code.Putting.{Puts};
ghost use Rattle.sheet.specs.Printed.{result_word, policy_word, applied_word, disposition_word, line, verdict_lines, refusal_text};
ghost use Rattle.sheet_print.specs.code.Words.{words};

use octets::Refusal;
use policy::Policy;
use verdict::{AppliedPolicy, Disposition, Result};

// A name that is asked.
pub fn append_ask(name: &[u8], at: usize, out: &mut [u8]) -> usize
    ensures { Puts (line (octets "ask") name.now) at out.old result out.new }
{
    let begin = octets_pieces::put(b"ask ", at, out);
    octets_pieces::put_then(name, b"\n", begin, out)
}

// The words that are printed, one after the other, and where each begins.
const WORDS: [u8; 93] =
    *b"nonepassfailtemperrorpermerrorquarantinerejectunknowndeferresult \npolicy \ndisposition \nasked ";

const BEGINS: [u16; 14] = [0, 4, 8, 12, 21, 30, 40, 46, 53, 58, 65, 73, 86, 93];

// The number of a result's word.
fn result_piece(r: Result) -> u8
    ensures { get_or words result [] ≡ result_word r }
{
    match r {
        Result::None => 0,
        Result::Pass => 1,
        Result::Fail => 2,
        Result::Temperror => 3,
        Result::Permerror => 4,
    }
}

// The number of a policy's word.
fn policy_piece(p: Policy) -> u8
    ensures { get_or words result [] ≡ policy_word p }
{
    match p {
        Policy::None => 0,
        Policy::Quarantine => 5,
        Policy::Reject => 6,
    }
}

// The number of an applied policy's word.
fn applied_piece(p: AppliedPolicy) -> u8
    ensures { get_or words result [] ≡ applied_word p }
{
    match p {
        AppliedPolicy::Known(known) => policy_piece(known),
        AppliedPolicy::Unknown => 7,
    }
}

// The number of a disposition's word.
fn disposition_piece(d: Disposition) -> u8
    ensures { get_or words result [] ≡ disposition_word d }
{
    match d {
        Disposition::Apply(policy) => policy_piece(policy),
        Disposition::Defer => 8,
    }
}

// The lines of a verdict, and how many names were asked.
pub fn append_verdict(
    r: Result,
    p: AppliedPolicy,
    d: Disposition,
    count: usize,
    at: usize,
    out: &mut [u8],
) -> usize
    ensures { Puts (verdict_lines r p d count) at out.old result out.new × (length (verdict_lines r p d count) ≤ 100) }
{
    let words = WORDS;
    let begins = BEGINS;
    let list = [
        9,
        result_piece(r),
        10,
        applied_piece(p),
        11,
        disposition_piece(d),
        12,
    ];
    let digits = octets_pieces::put_pieces(&words, &begins, &list, at, out);
    octets_pieces::put_decimal_then(count as u64, b"\n", digits, out)
}

// A refusal.
pub fn append_refusal(f: Refusal, at: usize, out: &mut [u8]) -> usize
    ensures { Puts (refusal_text f) at out.old result out.new × (length (refusal_text f) ≤ 100) }
{
    let number = octets_pieces::put(b"refused ", at, out);
    let place = octets_pieces::put_decimal_then(f.number as u64, b" at ", number, out);
    octets_pieces::put_decimal_then(f.place as u64, b"\n", place, out)
}
