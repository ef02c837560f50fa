// For programs in other languages: one message from a sheet. A crate is built for Rattle's crates or for C, not for both, so what
// C calls of `sheet_run` stands here.
#![tactic(auto)]

ghost use Rattle.std.specs.Prelude.{◌≡◌, length};
ghost use Rattle.octets.specs.Lent.{left};
ghost use Rattle.sheet.specs.Printed.{printed};

// How long the text is that is printed for a sheet. It is written into the front of lent memory where there is room, and which
// the sheet does not overlap: the C header's `waslidhaj_run` sees to it.
#[tactic(auto, unfolding(octets::specs::Lent::written))]
#[unsafe(no_mangle)]
pub extern "C" fn waslidhaj_run_apart(sheet: &[u8], out: &mut [u8]) -> usize
    ensures { (result ≡ length (printed sheet.now)) × (out.new ≡ left (printed sheet.now) out.old) }
{
    match sheet_run::run(sheet, out) {
        Ok(n) => n,
        Err(f) => f.place,
    }
}
