// Where the labels of a domain begin, found in one pass; the targets of a walk by them, and whether a target can be asked.
#![tactic(auto)]

ghost use Rattle.std.specs.Prelude.{◌≡◌, min, length, drop};
ghost use Rattle.domain.specs.Domain.{can_ask};
ghost use Rattle.domain_labels.specs.code.Places.{target_by};
ghost use Rattle.domain.specs.OnePass.{Passes};

use domain::{Labels, Octet, Starts};

// A target of a walk: where it begins, and where it begins with one more label.
#[repr(C)]
#[derive(Clone, Copy)]
pub struct Target {
    pub begin: Octet,
    pub wider: Octet,
}

// Where the last labels of a domain begin, in one pass from its end.
pub fn find_starts(s: &[u8]) -> Starts
    ensures { Passes s.now result }
{
    let mut begins = [Octet(0); 8];
    let mut labels = 1;
    let mut rounds = 0;
    for i in (0..s.len()).rev() {
        if s[i] == b'.' {
            if labels <= 8 {
                begins[labels - 1] = Octet(i + 1);
            }
            labels += 1;
        }
        rounds += 1;
    }
    Starts {
        begins,
        labels: Labels(labels),
        rounds,
    }
}

// How many targets a walk looks at, as many as the labels that it goes up.
pub fn count_targets(t: Starts) -> Labels
    ensures { result.0 ≡ min 8 t.labels.0 }
{
    Labels(t.labels.0.min(8))
}

// The target that has n labels left; the first one has all. The whole domain, where a pass places no such target.
pub fn find_target(t: Starts, n: Labels) -> Target
    ensures { result ≡ target_by t.begins n.0 }
{
    match n.0 {
        k @ 1..=7 => Target {
            begin: t.begins[k - 1],
            wider: t.begins[k],
        },
        _ => Target {
            begin: Octet(0),
            wider: Octet(0),
        },
    }
}

// A place in a text, at most its end.
pub fn clip(s: &[u8], at: Octet) -> Octet
    ensures { result.0 ≡ min at.0 (length s.now) }
{
    Octet(at.0.min(s.len()))
}

// Whether the target that begins at a place is asked.
pub fn can_ask(s: &[u8], at: Octet) -> bool
    ensures { result ≡ can_ask (drop at.0 s.now) }
{
    s.len() - clip(s, at).0 <= 246
}
