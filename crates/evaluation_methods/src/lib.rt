// The two methods of a message, DKIM and SPF, from its stored numbers and the digits of its alignments.
#![tactic(auto, unfolding(crate::specs::code::Methods::add_method))]

ghost use Rattle.std.specs.Prelude.{◌≡◌, ◌||◌, true, min};
ghost use Rattle.octets.specs.Octets.{Octets};
ghost use Rattle.alignment_stored.specs.code.Stored.{stored_identifiers};
ghost use Rattle.alignment.specs.Numbers.{alignments_in};
ghost use Rattle.evaluation_methods.specs.code.Methods.{add_method, methods_of};

use alignment::Kind;
use reporting::Method;

// The two methods: whether identifiers of the kind were given, and whether one is aligned.
#[derive(Clone, Copy)]
pub struct Methods {
    pub dkim: Method,
    pub spf: Method,
}

// A method with one identifier more.
fn count_in(aligned: bool, m: Method) -> Method
    ensures { result ≡ record { given = true; aligned = aligned || m.aligned } }
{
    Method {
        given: true,
        aligned: aligned || m.aligned,
    }
}

// The two methods with one identifier more.
fn add_method(k: Kind, aligned: bool, m: Methods) -> Methods
    ensures { result ≡ add_method k aligned m }
{
    match k {
        Kind::Dkim => Methods {
            dkim: count_in(aligned, m.dkim),
            ..m
        },
        Kind::Spf => Methods {
            spf: count_in(aligned, m.spf),
            ..m
        },
    }
}

// The two methods of a message of so many identifiers, of which 16 at most are stored, with their alignments as digits.
pub fn find_methods(numbers: &[u16], identifiers: usize, digits: usize) -> Methods
    ensures { (domains : Octets) → result ≡ methods_of (stored_identifiers domains numbers.now 1 (min identifiers 16)) (alignments_in (min identifiers 16) digits) }
{
    let none = Method {
        given: false,
        aligned: false,
    };
    let mut methods = Methods {
        dkim: none,
        spf: none,
    };
    let mut rest = digits;
    for walk in 1..=identifiers.min(16) {
        let kind = alignment_stored::kind_at(numbers, walk);
        methods = add_method(kind, rest % 4 == 1, methods);
        rest /= 4;
    }
    methods
}
