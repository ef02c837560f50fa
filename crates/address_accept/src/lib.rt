// What an accepted answer makes of a check.
#![tactic(auto)]

ghost use Rattle.address_accept.specs.code.Accepting.{AcceptsInRoom, Settles};

use address::Agreement;
use address_check::{Check, MOST_REPLIES};
use domain::Octet;
use txt::Reply;

// The check with the reply kept, where there is room, to the name that a walk and a place mark, moved on from where it stood.
pub fn accept(c: Check, walk: usize, place: Octet, r: Reply) -> Check
    ensures { AcceptsInRoom c walk place r result }
{
    if MOST_REPLIES <= c.count {
        return c;
    }
    let mut kept = c.kept;
    walk_keep::keep_reply(&c.domains, &c.numbers, walk, place, r, c.count, &mut kept);
    let count = c.count + 1;
    let policy = alignment_stored::slot(&c.domains, &c.numbers, 0);
    let host = alignment_stored::slot(&c.domains, &c.numbers, 1);
    let stood = c.point;
    let stands = address_walks::advance(&c.domains, &kept, count, policy, host, stood, r);
    let mut after = c;
    after.asked = 0;
    after.kept = kept;
    after.count = count;
    after.point = stands;
    after
}

// The check with what the confirming name's answer says.
pub fn settle(c: Check, a: Agreement) -> Check
    ensures { Settles c a result }
{
    let point = address_point::settle(a);
    let mut after = c;
    after.asked = 0;
    after.confirmed = 1;
    after.point = point;
    after
}
