// The rua texts that a policy record may be written with.
#![tactic(auto)]

ghost use Rattle.std.specs.Prelude.{◌≡◌};
ghost use Rattle.octets.specs.Octets.{all, split, trim};
ghost use Rattle.policy.specs.Reports.{valid_entry};
ghost use Rattle.publishing.specs.Publishing.{good_rua};

use text_class::Class;

// Whether every entry of a comma list is valid.
fn are_entries(list: &[u8]) -> bool
    ensures { result ≡ all (λ e. valid_entry (trim e)) (split 44 list.now) }
{
    list.split(|b| *b == b',').all(|entry| policy_reports::is_valid_entry(text_front::trim(entry)))
}

// Whether a record may be written with a rua text: refusal 16 is due where it may not.
#[tactic(auto, using(crate::proofs::EntryLaws::tested))]
pub fn is_rua(rua: &[u8]) -> bool
    ensures { result ≡ good_rua rua.now }
{
    rua.is_empty()
        || text_front::is_made_of(rua, Class::Between(32, 126), 4096)
            && !text_front::is_one_of(b';', rua)
            && text_front::trim(rua).len() == rua.len()
            && are_entries(rua)
}
