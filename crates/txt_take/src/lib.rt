// An answer taken: its texts into the scratch, and the policy record at a name, or a refusal.
#![tactic(auto)]

ghost use Rattle.std.specs.Prelude.{◌≡◌, Err};
ghost use Rattle.txt.specs.Answers.{answer_of, joined};
ghost use Rattle.octets.specs.Refusing.{refusal};
ghost use Rattle.txt.specs.Taking.{Takes};
ghost use Rattle.txt_read.specs.code.Steps.{all_texts, Room, Copies, Finds};

use octets::Refusal;
use txt::{Reply, Status};
use txt_found::Found;

const SCRATCH: usize = 4096;

// Copies character-strings to the front of lent memory, each on from where the last one ended: how many octets.
fn copy_strings(strings: &[u8], out: &mut [u8]) -> usize
    requires { Room (joined 0 strings.now) out.old }
    ensures { Copies (joined 0 strings.now) out.old result out.new }
{
    let mut rest = strings;
    let mut at: usize = 0;
    while let [size, ..] = rest {
        let k = usize::from(*size);
        let next = k + 1;
        // The unfilled part is lent on for the next string, and has room for it.
        let _ = octets_write::write(&rest[1..next], &mut out[at..]);
        at += k;
        rest = &rest[next..];
    }
    at
}

// Copies the texts of a readable answer to the front of the scratch, and finds the policy records among them.
fn take_records(bytes: &[u8], scratch: &mut [u8]) -> Found
    requires { Room (all_texts bytes.now) scratch.old }
    ensures { Finds bytes.now scratch.old result scratch.new }
{
    let Some(n) = txt_read::read_front(bytes) else {
        return Found::Nothing;
    };
    let end = n + 4;
    let k = copy_strings(&bytes[4..end], scratch);
    let first = policy_read::read(&scratch[0..k]);
    // The rest of the answer, and the unfilled part of the scratch.
    let others = take_records(&bytes[end..], &mut scratch[k..]);
    txt_found::add_found(first, others)
}

// A refusal, with its number and place.
fn refuse_answer(number: u8, place: usize) -> Result<Reply, Refusal>
    ensures { result ≡ Err (refusal number place) }
{
    Err(Refusal { number, place })
}

// Takes an answer: what it says of its name, with its texts left in the scratch, or a refusal.
pub fn take_answer(status: Status, bytes: &[u8], scratch: &mut [u8]) -> Result<Reply, Refusal>
    ensures { Takes (answer_of status bytes.now) scratch.old result scratch.new }
{
    // None and error leave here, before any record is read.
    let Status::Records = status else {
        if scratch.len() < SCRATCH {
            return refuse_answer(10, SCRATCH);
        }
        let Status::Error = status else {
            return Ok(Reply::NoRecord);
        };
        return Ok(Reply::Error);
    };
    if !txt_read::is_readable(bytes) {
        return refuse_answer(6, 0);
    }
    if scratch.len() < SCRATCH {
        return refuse_answer(10, SCRATCH);
    }
    Ok(txt_found::reply_of(take_records(bytes, scratch)))
}
