// The tags of a policy text, gathered in one pass.
#![tactic(auto)]

ghost use Rattle.std.specs.Prelude.{◌≡◌};
ghost use Rattle.policy_gather.specs.code.Gathering.{Knows, Gathers};

use text_class::Class;

// The number of the tag `v`.
const V: usize = 8;

// How many tags have names that are not known; and where the values of the others stand, by the tags' numbers. A length of 0 stands for no tag.
#[derive(Clone, Copy)]
pub struct Gathered {
    pub others: usize,
    pub begins: [usize; 14],
    pub lengths: [usize; 14],
}

// The tags of a text, where it is a policy record.
pub fn gather(text: &[u8]) -> Option<Gathered>
    ensures { Gathers text.now result }
{
    let from = policy_tags::later_parts(text)?;
    let tags = gather_known(text, from)?;
    if 2 <= tags.others && policy_repeats::repeats_unknown(text, from) {
        None
    } else {
        Some(tags)
    }
}

// The tags of known names from a place of the text on, in one pass over its parts, where no name occurs twice.
fn gather_known(text: &[u8], from: usize) -> Option<Gathered>
    ensures { Knows text.now from result }
{
    let mut others = 0;
    let mut begins = [0; 14];
    let mut lengths = [0; 14];
    lengths[V] = 1;
    let mut at = from;
    while at < text.len() {
        let part = text_front::front(text_parts::skip(text, at), Class::Not(b';'));
        let kept = text_front::trim_end(part);
        let tag = text_front::after(kept, Class::Blank);
        let next = at + part.len() + 1;
        let length = policy_tags::tag_value(tag).len();
        if length != 0 {
            let number = policy_words::tag_number(text_front::front(tag, Class::Letter));
            if number < 14 {
                if lengths[number] != 0 {
                    return None;
                }
                begins[number] = at + (kept.len() - length);
                lengths[number] = length;
            } else {
                others += 1;
            }
        }
        at = next;
    }
    Some(Gathered {
        others,
        begins,
        lengths,
    })
}
