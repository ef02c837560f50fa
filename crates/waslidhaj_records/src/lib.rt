// For programs in other languages: a policy record is written, and a text read as one.
#![tactic(auto)]

ghost use Rattle.std.specs.Prelude.{◌≡◌};
ghost use Rattle.octets.specs.Lent.{WritesByNumbers};
ghost use Rattle.policy.specs.Records.{read_policy, rua_bounds};
ghost use Rattle.publishing.specs.Publishing.{written_record};
ghost use Rattle.publishing.specs.Numbers.{settings_in, read_numbers};

use octets::WrittenNumbers;
use publishing::{RecordNumbers, RecordRead};

// A record from settings by numbers and a rua text, into the front of lent memory, which the text does not overlap: the C header's
// `waslidhaj_write_record` sees to it.
#[unsafe(no_mangle)]
pub extern "C" fn waslidhaj_write_record_apart(
    numbers: RecordNumbers,
    rua: &[u8],
    out: &mut [u8],
) -> WrittenNumbers
    ensures { WritesByNumbers (written_record (settings_in numbers) rua.now) out.old result out.new }
{
    let settings = publishing_numbers::settings_in(numbers);
    octets_write::number_written(publishing_write::write_record(settings, rua, out))
}

// What a text is, its settings by numbers, and where its rua text stands.
#[unsafe(no_mangle)]
pub extern "C" fn waslidhaj_read_record(text: &[u8]) -> RecordRead
    ensures { result ≡ read_numbers (read_policy text.now) (rua_bounds text.now) }
{
    publishing_numbers::read_numbers(policy_read::read(text), policy_read::rua_bounds(text))
}
