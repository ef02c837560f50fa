// What a reader of aggregate reports keeps: definitions and laws. All of it is numbers, and every octet has a field.
#![tactic(auto)]

ghost use Rattle.std.specs.Prelude.{◌≡◌, true, false};
ghost use Rattle.report_kept.specs.code.View.{arrived, at_address, plain};

// How many octets are taken; the refusal's number, 0 for none; the open number; begin, and the row's count; how many octets of the open
// text, id or name are read; how many records may follow; the open number of an address to base 10 and to base 16. Then the node
// (`Standing`'s list), which of its words is open, how many octets of a literal or word are read (of a text: how far an entity is), how
// many of a name's last label, whether the open number has a digit; the row's disposition (0 pass, 1 none, 2 quarantine, 3 reject) and
// flags; an address's kind (0 either, 1 dotted, 2 of groups), digits of its open number, and numbers before that; how long the row's
// author domain is, how many identifiers it has, and of the open identifier how long domain and selector are, and its outcome.
#[repr(C)]
#[derive(Clone, Copy)]
pub struct ReaderState {
    pub taken: u64,
    pub refused: u64,
    pub value: u64,
    pub begin: u64,
    pub count: u64,
    pub length: u16,
    pub left: u16,
    pub ten: u16,
    pub sixteen: u16,
    pub node: u8,
    pub which: u8,
    pub at: u8,
    pub label: u8,
    pub some: u8,
    pub disposition: u8,
    pub dkim: u8,
    pub spf: u8,
    pub kind: u8,
    pub digits: u8,
    pub numbers: u8,
    pub author: u8,
    pub identifiers: u8,
    pub domain: u8,
    pub selector: u8,
    pub outcome: u8,
}

// What is written into the row's octets from a place on; no octet of a report writes three.
#[derive(Clone, Copy)]
pub enum Written {
    Nothing,
    One(u16, u8),
    Two(u16, u8, u8),
    Three(u16, u8, u8, u8),
    Four(u16, u8, u8, u8, u8),
}

// What an octet that is not refused leaves: whether a row is handed out, the state then, and what is written.
#[derive(Clone, Copy)]
pub struct Turn {
    pub gives: bool,
    pub state: ReaderState,
    pub written: Written,
}

// At a node's start.
pub fn arrive(s: ReaderState, node: u8) -> ReaderState
    ensures { result ≡ arrived node s }
{
    ReaderState {
        node,
        which: 0,
        at: 0,
        length: 0,
        label: 0,
        value: 0,
        some: 0,
        ..s
    }
}

// At an address's start.
pub fn begin_address(s: ReaderState) -> ReaderState
    ensures { result ≡ at_address s }
{
    ReaderState {
        kind: 0,
        digits: 0,
        numbers: 0,
        ten: 0,
        sixteen: 0,
        ..arrive(s, 64)
    }
}

// A turn that writes nothing, and hands out no row.
pub fn go_on(s: ReaderState) -> Turn
    ensures { result ≡ plain false s }
{
    Turn {
        gives: false,
        state: s,
        written: Written::Nothing,
    }
}

// One that writes nothing, and hands out the row.
pub fn hand_out(s: ReaderState) -> Turn
    ensures { result ≡ plain true s }
{
    Turn {
        gives: true,
        state: s,
        written: Written::Nothing,
    }
}
