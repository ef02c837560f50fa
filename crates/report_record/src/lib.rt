// A record element of an aggregate report, from a place of lent memory on.
#![tactic(auto)]

ghost use Rattle.std.specs.Prelude.{◌≡◌, []};
ghost use Rattle.octets_pieces.specs.code.Putting.{Puts};
ghost use Rattle.report.specs.Report.{row_policy, reported_disposition, result_of_alignment, policy_evaluated, outcome_word, dkim_element, spf_element};

use rows::Seen;

// A disposition's word.
fn disposition_word(disposition: u8, aligned: bool) -> &'static [u8]
    ensures { result.now ≡ reported_disposition (row_policy disposition) aligned }
{
    match disposition {
        1 => b"quarantine",
        2 => b"reject",
        _ if aligned => b"pass",
        _ => b"none",
    }
}

// The word for whether a method aligned.
fn alignment_word(aligned: bool) -> &'static [u8]
    ensures { result.now ≡ result_of_alignment aligned }
{
    if aligned { b"pass" } else { b"fail" }
}

// An outcome's word.
fn outcome_word(outcome: u8) -> &'static [u8]
    ensures { result.now ≡ outcome_word outcome }
{
    match outcome {
        0 => b"fail",
        1 => b"pass",
        2 => b"temperror",
        _ => b"",
    }
}

// The element `policy_evaluated`.
pub fn put_evaluated(seen: Seen, at: usize, out: &mut [u8]) -> usize
    ensures { Puts (policy_evaluated seen) at out.old result out.new }
{
    let dkim = seen.dkim != 0;
    let spf = seen.spf != 0;
    let texts: [&[u8]; 7] = [
        b"<policy_evaluated><disposition>",
        disposition_word(seen.disposition, dkim || spf),
        b"</disposition><dkim>",
        alignment_word(dkim),
        b"</dkim><spf>",
        alignment_word(spf),
        b"</spf></policy_evaluated>",
    ];
    octets_pieces::put_all(&texts, at, out)
}

// The element `dkim` of an identifier.
pub fn put_dkim(domain: &[u8], selector: &[u8], outcome: u8, at: usize, out: &mut [u8]) -> usize
    ensures { Puts (dkim_element (record { kind = 1; outcome = outcome; selector = selector.now; domain = domain.now })) at out.old result out.new }
{
    let first = octets_pieces::put(b"<dkim><domain>", at, out);
    let second = octets_pieces::put_lower_then(domain, b"</domain><selector>", first, out);
    let third = octets_pieces::put_lower_then(selector, b"</selector><result>", second, out);
    octets_pieces::put_then(outcome_word(outcome), b"</result></dkim>", third, out)
}

// The element `spf` of an identifier.
pub fn put_spf(domain: &[u8], outcome: u8, at: usize, out: &mut [u8]) -> usize
    ensures { Puts (spf_element (record { kind = 0; outcome = outcome; selector = []; domain = domain.now })) at out.old result out.new }
{
    let first = octets_pieces::put(b"<spf><domain>", at, out);
    let second = octets_pieces::put_lower_then(domain, b"</domain><result>", first, out);
    octets_pieces::put_then(outcome_word(outcome), b"</result></spf>", second, out)
}
