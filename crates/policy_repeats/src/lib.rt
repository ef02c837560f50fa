// Whether a tag name that is not known occurs twice.
#![tactic(auto)]

ghost use Rattle.std.specs.Prelude.{◌≡◌, ◌<◌, ◌≤◌, length, drop};
ghost use Rattle.octets.specs.Octets.{any, lower, split};
ghost use Rattle.policy.specs.Tags.{repeats};
ghost use Rattle.policy_tags.specs.code.TagNames.{names_of, unknown_names};
ghost use Rattle.policy_repeats.specs.code.Storing.{is_unknown, names_left, name_at, part_after, Next, key_of, Keyed, is_stored};

use text_class::Class;

// How many names are stored at once: a text of 4,096 octets has fewer that differ.
const ROOM: usize = 1024;

// The modulus of the keys, such that 32 times a key is below 2^64. Names of up to 11 letters have no key in common.
const PRIME: u64 = 576460752303423433;

// Whether an unknown name occurs twice among the well-formed parts of a text from a place on, in either case.
pub fn repeats_unknown(text: &[u8], from: usize) -> bool
    ensures { result ≡ repeats (unknown_names (names_of (split 59 (drop from text.now)))) }
{
    let mut keys = [0u64; ROOM];
    let mut places = [0usize; ROOM];
    let mut count = 0;
    let mut at = next_unknown(text, from);
    while at < text.len() {
        if is_stored(text, &keys, &places, count, at) {
            return true;
        }
        keys[count] = key_of(name_at(text, at));
        places[count] = at;
        count += 1;
        at = next_unknown(text, part_after(text, at));
        if ROOM <= count {
            if comes_again(text, &keys, &places, at) {
                return true;
            }
            count = 0;
        }
    }
    false
}

// Whether a stored name, where the store is full, is one of those from a place on.
fn comes_again(text: &[u8], keys: &[u64; ROOM], places: &[usize; ROOM], from: usize) -> bool
    requires { Keyed text.now keys.now places.now 1024 }
    ensures { result ≡ any (is_stored text.now places.now 1024) (names_left text.now from) }
{
    let mut at = next_unknown(text, from);
    while at < text.len() {
        if is_stored(text, keys, places, ROOM, at) {
            return true;
        }
        at = next_unknown(text, part_after(text, at));
    }
    false
}

// Whether the name at a place is one of the first `count` stored: only names of equal keys are compared. The last goes first, as the definition has it.
fn is_stored(
    text: &[u8],
    keys: &[u64; ROOM],
    places: &[usize; ROOM],
    count: usize,
    at: usize,
) -> bool
    requires few { count ≤ 1024 }
    requires keyed { Keyed text.now keys.now places.now count }
    ensures { result ≡ is_stored text.now places.now count (name_at text.now at) }
{
    let name = name_at(text, at);
    let key = key_of(name);
    let mut left = count;
    while 0 < left {
        let last = left - 1;
        if keys[last] == key && octets_write::same_text(name_at(text, places[last]), name) {
            return true;
        }
        left = last;
    }
    false
}

// A name's key: its letters, in either case, as digits of a number modulo a prime.
fn key_of(name: &[u8]) -> u64
    ensures { result ≡ key_of (lower name.now) }
{
    let mut key = 0;
    for x in name {
        key = (key * 32 + u64::from(*x) % 32) % PRIME;
    }
    key
}

// The name of the tag whose part begins at a place.
fn name_at(text: &[u8], at: usize) -> &[u8]
    ensures { lower result.now ≡ name_at text.now at }
{
    text_front::front(
        text_front::after(text_parts::skip(text, at), Class::Blank),
        Class::Letter,
    )
}

// Where the part after that at a place begins.
fn part_after(text: &[u8], at: usize) -> usize
    requires { at < length text.now }
    ensures { result ≡ part_after text.now at }
{
    at + text_front::find_octet(text_parts::skip(text, at), b';') + 1
}

// Where the first part with an unknown name begins, from a place on; past the text's end where there is none, at which each caller's loop ends.
fn next_unknown(text: &[u8], from: usize) -> usize
    ensures { Next text.now from result }
{
    let mut at = from;
    while at < text.len() {
        let part = text_front::front(text_parts::skip(text, at), Class::Not(b';'));
        if is_unknown(text_front::trim(part)) {
            return at;
        }
        at = at + part.len() + 1;
    }
    at
}

// Whether a part, trimmed, is a well-formed tag whose name is not known.
fn is_unknown(tag: &[u8]) -> bool
    ensures { result ≡ is_unknown tag.now }
{
    !policy_tags::tag_value(tag).is_empty()
        && 14 <= policy_words::tag_number(text_front::front(tag, Class::Letter))
}
