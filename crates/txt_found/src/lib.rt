// The policy records among an answer's texts, and what they say of its name.
#![tactic(auto)]

ghost use Rattle.std.specs.Prelude.{◌≡◌};
ghost use Rattle.txt_found.specs.code.Finding.{add_found, found_reply};

use policy::Settings;
use txt::Reply;

// The policy records among texts.
#[derive(Clone, Copy)]
pub enum Found {
    Nothing,
    One(Settings),
    Several,
}

// What is found with one text more.
pub fn add_found(first: Option<Settings>, others: Found) -> Found
    ensures { result ≡ add_found first others }
{
    match (first, others) {
        (None, found) => found,
        (Some(settings), Found::Nothing) => Found::One(settings),
        (Some(_), Found::One(_) | Found::Several) => Found::Several,
    }
}

// What the policy records found say of the name.
pub fn reply_of(found: Found) -> Reply
    ensures { result ≡ found_reply found }
{
    match found {
        Found::One(settings) => Reply::Record(settings),
        Found::Nothing | Found::Several => Reply::NoRecord,
    }
}
