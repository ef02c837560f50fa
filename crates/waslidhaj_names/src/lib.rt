// For programs in other languages: the file name of an aggregate report.
#![tactic(auto)]

ghost use Rattle.std.specs.Prelude.{◌≡◌, not, eqb};
ghost use Rattle.octets.specs.Lent.{WritesByNumbers};
ghost use Rattle.reporting.specs.FileName.{given_id, file_name};

use octets::WrittenNumbers;

// A report's file name into the front of lent memory, which none of the texts overlaps (the C header's `waslidhaj_file_name` sees
// to it); the id is given where its flag is not 0.
#[unsafe(no_mangle)]
pub extern "C" fn waslidhaj_file_name_apart<'a>(
    receiver: &'a [u8],
    domain: &'a [u8],
    begin: u64,
    end: u64,
    named: u8,
    id: &'a [u8],
    out: &mut [u8],
) -> WrittenNumbers
    ensures { WritesByNumbers (file_name receiver.now domain.now begin end (given_id (not (eqb named 0)) id.now)) out.old result out.new }
{
    let written = reporting_name::write_file_name(
        receiver,
        domain,
        begin,
        end,
        named != 0,
        id,
        out,
    );
    octets_write::number_written(written)
}
