// A look at a name, among the answers kept.
#![tactic(auto)]

ghost use Rattle.std.specs.Prelude.{◌≡◌, drop};
ghost use Rattle.domain.specs.Domain.{asked_name};
ghost use Rattle.walk_known.specs.code.Kept.{kept_answers, known, looked_at};

use domain::Octet;
use txt::Reply;

// What the kept answers say of a target.
pub fn look_up<'a>(
    domains: &'a [u8],
    kept: &'a [u16],
    count: usize,
    target: &'a [u8],
) -> Option<Reply>
    ensures { result ≡ known domains.now count kept.now (asked_name target.now) }
{
    for i in 0..count.min(kept.len() / 3) {
        let begin = usize::from(kept[3 * i]);
        let end = usize::from(kept[3 * i + 1]);
        if octets_write::same_text(target, text_parts::part(domains, begin, end)) {
            return Some(txt_codes::decode(usize::from(kept[3 * i + 2])));
        }
    }
    None
}

// What they say of the target that begins at a place. One too long to ask has no record.
pub fn look_at<'a>(
    domains: &'a [u8],
    kept: &'a [u16],
    count: usize,
    d: &'a [u8],
    at: Octet,
) -> Option<Reply>
    ensures { result ≡ looked_at (kept_answers domains.now count kept.now) (drop at.0 d.now) }
{
    if domain_labels::can_ask(d, at) {
        look_up(domains, kept, count, text_parts::skip(d, at.0))
    } else {
        Some(Reply::NoRecord)
    }
}
