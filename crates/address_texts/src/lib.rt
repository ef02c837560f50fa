// What an answer says at the confirming name, with its texts left in the scratch.
#![tactic(auto)]

ghost use Rattle.std.specs.Prelude.{◌≡◌, true, ◌≤◌, length, if◌then◌else◌};
ghost use Rattle.octets.specs.Octets.{lower};
ghost use Rattle.txt.specs.Answers.{answer_of, joined};
ghost use Rattle.txt_read.specs.code.Steps.{is_there, or_empty};
ghost use Rattle.address.specs.declared.Agreement.{Agreement};
ghost use Rattle.address_texts.specs.code.Confirming.{JudgesTexts, TakesConfirming};

use address::Agreement;
use address_hosts::Said;
use octets::Refusal;
use policy::Bounds;
use txt::Status;

// The most records that one answer has.
const ANSWER_RECORDS: usize = 16;

// How many octets the text of character-strings has.
fn text_length(strings: &[u8]) -> usize
    ensures { (is_there (joined 0 strings.now) ≡ true → result ≡ length (or_empty (joined 0 strings.now))) × (result ≤ length strings.now) }
{
    let mut rest = strings;
    let mut n = 0;
    while let [size, ..] = rest {
        let k = usize::from(*size);
        let next = k + 1;
        if rest.len() < next {
            return n;
        }
        n += k;
        rest = &rest[next..];
    }
    n
}

// Where no record replaces the address: confirmed if there was one, else a plain no.
fn confirm(one: bool) -> Agreement
    ensures { result ≡ (if one then Agreement.Confirmed else Agreement.PlainNo) }
{
    if one {
        Agreement::Confirmed
    } else {
        Agreement::PlainNo
    }
}

// What the texts of a readable answer say that stand at the front of the scratch.
fn judge_texts<'a>(bytes: &'a [u8], scratch: &'a [u8], host: &'a [u8]) -> Agreement
    ensures { JudgesTexts bytes.now scratch.now (lower host.now) result }
{
    let mut rest = bytes;
    let mut at = 0;
    let mut one = false;
    let mut budget = ANSWER_RECORDS;
    while 0 < budget {
        let Some(n) = txt_read::read_front(rest) else {
            return confirm(one);
        };
        let end = n + 4;
        let next = at + text_length(&rest[4..end]);
        match address_hosts::judge_text(text_parts::part(scratch, at, next), host) {
            Said::NoRecord => {}
            Said::Silent => {
                one = true;
            }
            Said::Replaces(bounds) => {
                return Agreement::Replaced(Bounds {
                    begin: at + bounds.begin,
                    length: bounds.length,
                });
            }
            Said::Other => {
                return Agreement::PlainNo;
            }
        }
        at = next;
        budget = budget - 1;
        rest = &rest[end..];
    }
    confirm(one)
}

// Takes an answer at the confirming name: what it says, with its texts left in the scratch, or a refusal.
pub fn take_confirming<'a>(
    status: Status,
    bytes: &'a [u8],
    host: &'a [u8],
    scratch: &mut [u8],
) -> Result<Agreement, Refusal>
    ensures { TakesConfirming (answer_of status bytes.now) (lower host.now) scratch.old result scratch.new }
{
    match txt_take::take_answer(status, bytes, scratch) {
        Err(f) => Err(f),
        Ok(_) => Ok(match status {
            Status::Records => judge_texts(bytes, scratch, host),
            Status::NoRecords => Agreement::PlainNo,
            Status::Error => Agreement::NotKnown,
        }),
    }
}
