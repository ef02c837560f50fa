// For programs in other languages: an aggregate report, read in parts as they arrive.
#![tactic(auto)]

ghost use Rattle.report_parts.specs.Parts.{IsNew, Feeds, EndsAt};

use report_kept::ReaderState;
use report_parts::{EndTold, PartTold};

// A reader before any text, over any row.
#[unsafe(no_mangle)]
pub extern "C" fn waslidhaj_new_reader() -> ReaderState
    ensures { IsNew result }
{
    report_reader::begin()
}

// A part of the text: up to the octet at which a row is handed out, or all of it.
#[unsafe(no_mangle)]
pub extern "C" fn waslidhaj_read_apart(
    state: ReaderState,
    part: &[u8],
    row: &mut [u8; 8432],
) -> PartTold
    ensures { Feeds (record { state = state; row = row.old }) part.now (record { state = result.state; row = row.new }) result.used result.told }
{
    let progress = report_reader::read_part(state, part, row);
    let gives = progress.gives;
    let used = progress.used;
    let after = progress.state;
    PartTold {
        state: after,
        used,
        told: report_parts::tell(gives, after),
    }
}

// The end of the text is declared.
#[unsafe(no_mangle)]
pub extern "C" fn waslidhaj_end(state: ReaderState) -> EndTold
    ensures { EndsAt state result.state result.told }
{
    let after = report_reader::end(state);
    EndTold {
        state: after,
        told: report_parts::tell(false, after),
    }
}
