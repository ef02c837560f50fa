// For programs in other languages: an Identity-Alignment field is read.
#![tactic(auto)]

ghost use Rattle.std.specs.Prelude.{◌≡◌};
ghost use Rattle.field.specs.Numbers.{field_read, field_read_numbers};

use field::{FieldNumbers, NamedMethods};
use octets::Refusal;

// What was read, by numbers.
#[tactic(auto, unfolding(field::specs::Numbers::field_read_numbers, octets::specs::Octets::flag))]
fn number_field(read: Result<NamedMethods, Refusal>) -> FieldNumbers
    ensures { result ≡ field_read_numbers read }
{
    match read {
        Ok(m) => FieldNumbers {
            refusal: Refusal {
                number: 0,
                place: 0,
            },
            dkim: u8::from(m.dkim),
            spf: u8::from(m.spf),
        },
        Err(refusal) => FieldNumbers {
            refusal,
            dkim: 1,
            spf: 1,
        },
    }
}

// The methods that a field names, or why a text is no field.
#[unsafe(no_mangle)]
pub extern "C" fn waslidhaj_read_field(text: &[u8]) -> FieldNumbers
    ensures { result ≡ field_read_numbers (field_read text.now) }
{
    number_field(field_read::read_field(text))
}
