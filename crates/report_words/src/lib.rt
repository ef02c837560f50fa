// Literals and words of the form of an aggregate report, in one table: an octet of one of them, and the word that an octet begins.
#![tactic(auto)]

ghost use Rattle.std.specs.Prelude.{◌≡◌, ◌+◌, [], slice_index_or};
ghost use Rattle.parsing_steps.specs.Stepping.{step_of, behind};
ghost use Rattle.report_form.specs.ReportForm.{Said};
ghost use Rattle.report_leaves.specs.code.Leaves.{said};
ghost use Rattle.report_form.specs.code.ReportReading.{first_is};
ghost use Rattle.report_words.specs.code.Table.{texts, pick_octets, words_at};

use report_steps::{Leaf, Refusal};

// The literals, and the words of each word node, one after the other, and where each begins.
pub const TEXTS: [u8; 972] =
    *b"<?xml version=\"1.0\" encoding=\"UTF-8\"?><feedback xmlns=\"urn:ietf:params:xml:ns:dmarc-2.0\"><report_metadata><org_name>/org_name><email>/email></extra_contact_info><report_id>/report_id><date_range><begin>/begin><end>/end></date_range></report_metadata><policy_published><domain>/domain><p></p><</sp><</np><adkim></adkim><aspf></aspf><testing></testing></policy_published><record><row><source_ip>/source_ip><count>/count><policy_evaluated><disposition></disposition><dkim>fail</dkim><spf>failpass</spf></policy_evaluated></row><identifiers><header_from>/header_from></identifiers><auth_results><<domain>/domain><selector>/selector><result></result></dkim><domain>/domain><result></result></spf></auth_results></auth_results></record><</feedback>extra_contact_info>report_id>nonequarantinerejectsp>np>adkim>nonequarantinerejectnp>adkim>nonequarantinerejectrsrsnypassnonequarantinerejectfailpassfailpassdkim>spf>/auth_results>failpasstemperrorfailpasstemperrorrecord>/feedback>";

pub const BEGINS: [u16; 78] = [
    0, 116, 133, 141, 172, 202, 214, 276, 287, 292, 298, 310, 324, 340, 377, 393, 411, 449, 469,
    473, 485, 489, 493, 550, 591, 592, 600, 618, 636, 652, 660, 676, 706, 721, 730, 731, 742, 761,
    771, 775, 785, 791, 794, 797, 803, 807, 817, 823, 826, 832, 836, 846, 852, 853, 854, 855, 856,
    857, 858, 862, 866, 876, 882, 886, 890, 894, 898, 903, 907, 921, 925, 929, 938, 942, 946, 955,
    962, 972,
];

// The first octet of each.
const FIRSTS: [u8; 77] =
    *b"<///////<<<<<<<//<f<fp</<<//<</<<<<<ernqrsnanqrnanqrrsrsnypnqrfpfpds/fptfptr/";

// An octet of a text behind `at` octets: it is the next, or the last.
pub fn step_behind(text: &[u8], at: u8, x: u8) -> Result<Leaf<()>, Refusal>
    ensures { step_of (behind {R = Said} at text.now) x ≡ said (λ _. behind (at + 1) text.now) tt result }
{
    let i = at as usize;
    if i < text.len() && text[i] == x {
        if text.len() == i + 1 {
            Ok(Leaf::Ended)
        } else {
            Ok(Leaf::More(()))
        }
    } else {
        Err(Refusal::Outside)
    }
}

// An octet of the literal or word of that number.
pub fn step_piece(n: u8, at: u8, x: u8) -> Result<Leaf<()>, Refusal>
    ensures { step_of (behind {R = Said} at (slice_index_or texts n [])) x ≡ said (λ _. behind (at + 1) (slice_index_or texts n [])) tt result }
{
    step_behind(octets_pieces::find_piece(&TEXTS, &BEGINS, n), at, x)
}

// Whether the literal or word of that number begins with an octet.
fn piece_begins(n: u8, x: u8) -> bool
    ensures { result ≡ first_is x (slice_index_or texts n []) }
{
    let firsts = FIRSTS;
    let i = n as usize;
    i < firsts.len() && x == firsts[i]
}

// Which of at most four words, from a number on, an octet begins: its place among them.
pub fn pick_word(first: u8, count: u8, x: u8) -> Option<u8>
    ensures { result ≡ pick_octets 0 x (words_at first count) }
{
    for k in 0..count.min(4) {
        if piece_begins(first.wrapping_add(k), x) {
            return Some(k);
        }
    }
    None
}
