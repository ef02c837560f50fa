// A reply kept with those before it.
#![tactic(auto)]

ghost use Rattle.std.specs.Prelude.{◌≡◌, ◌+◌, ◌≤◌, length, set};
ghost use Rattle.walk_keep.specs.code.Keeping.{begin_of_slot, KeepsReply};

use domain::Octet;
use txt::Reply;

// Where a walk's domain begins among the stored domains.
fn slot_begin(walk: usize) -> usize
    ensures { result ≡ begin_of_slot walk }
{
    if walk <= 16 { 253 * walk } else { 0 }
}

// Three numbers, from a place on.
fn put(kept: &mut [u16], at: usize, from: u16, end: u16, code: u16)
    requires { at + 3 ≤ length kept.old }
    ensures { kept.new ≡ set (set (set kept.old at from) (at + 1) end) (at + 2) code }
{
    kept[at] = from;
    kept[at + 1] = end;
    kept[at + 2] = code;
}

// One reply more is kept, where there is room: of the target that begins at a place of a walk's domain.
pub fn keep_reply<'a>(
    domains: &'a [u8],
    numbers: &'a [u16],
    walk: usize,
    place: Octet,
    r: Reply,
    count: usize,
    kept: &mut [u16],
)
    ensures { KeepsReply domains.now numbers.now walk place r count kept.old kept.new }
{
    if kept.len() / 3 <= count {
        return;
    }
    let size = alignment_stored::slot(domains, numbers, walk).len();
    let begin = slot_begin(walk);
    let from = begin + place.0.min(size);
    let code = txt_codes::encode(r);
    let end = begin + size;
    put(kept, 3 * count, from as u16, end as u16, code as u16);
}
