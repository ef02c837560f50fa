// A domain as it is taken.
#![tactic(auto)]

ghost use Rattle.std.specs.Prelude.{◌≡◌};
ghost use Rattle.domain.specs.Domain.{without_dot};

// A domain without its final dot, if it has one: a part of the caller's own text.
pub fn without_dot(s: &[u8]) -> &[u8]
    ensures { result.now ≡ without_dot s.now }
{
    match s {
        [whole @ .., b'.'] => whole,
        _ => s,
    }
}
