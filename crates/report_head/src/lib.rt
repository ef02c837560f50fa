// What stands before the records of an aggregate report: the elements `report_metadata` and `policy_published`.
#![tactic(auto)]

ghost use Rattle.std.specs.Prelude.{◌≡◌, [], ◌++◌, if◌then◌else◌};
ghost use Rattle.octets.specs.Octets.{is_empty, lower};
ghost use Rattle.octets_pieces.specs.code.Putting.{Puts};
ghost use Rattle.report.specs.Xml.{optional_element, with_entities};
ghost use Rattle.publishing.specs.Publishing.{setting_value};
ghost use Rattle.report.specs.Report.{metadata, published, published_mode, published_testing, policy_published};

use policy::{Mode, Policy, Setting, Settings};

// The element `extra_contact_info`, where there is one.
fn put_contact(contact: &[u8], at: usize, out: &mut [u8]) -> usize
    ensures { Puts (optional_element "extra_contact_info" (with_entities contact.now)) at out.old result out.new }
{
    if contact.is_empty() {
        return at;
    }
    let begin = octets_pieces::put(b"<extra_contact_info>", at, out);
    report_texts::put_escaped_then(contact, b"</extra_contact_info>", begin, out)
}

// The element `report_metadata`.
pub fn put_metadata(
    organization: &[u8],
    email: &[u8],
    contact: &[u8],
    id: &[u8],
    begin: u64,
    end: u64,
    at: usize,
    out: &mut [u8],
) -> usize
    ensures { Puts (metadata (record { organization = organization.now; email = email.now; contact = contact.now; id = id.now; begin = begin; end = end })) at out.old result out.new }
{
    let first = octets_pieces::put(b"<report_metadata><org_name>", at, out);
    let second = report_texts::put_escaped_then(organization, b"</org_name><email>", first, out);
    let third = report_texts::put_escaped_then(email, b"</email>", second, out);
    let fourth = put_contact(contact, third, out);
    let fifth = octets_pieces::put(b"<report_id>", fourth, out);
    let sixth = octets_pieces::put_then(id, b"</report_id><date_range><begin>", fifth, out);
    let last = octets_pieces::put_decimal_then(begin, b"</begin><end>", sixth, out);
    octets_pieces::put_decimal_then(end, b"</end></date_range></report_metadata>", last, out)
}

// The settings as they are shown: where the record is not usable, all three policies are none.
fn published(s: Settings) -> Settings
    ensures { result ≡ published s }
{
    if force_policies::is_usable(s) {
        s
    } else {
        let none = Setting::Set(Policy::None);
        Settings {
            p: none,
            sp: none,
            np: none,
            ..s
        }
    }
}

// The word of p, sp or np; empty where there is none.
fn setting_word(s: Setting) -> &'static [u8]
    ensures { result.now ≡ setting_value s }
{
    match s {
        Setting::Set(Policy::None) => b"none",
        Setting::Set(Policy::Quarantine) => b"quarantine",
        Setting::Set(Policy::Reject) => b"reject",
        Setting::Absent | Setting::Invalid => b"",
    }
}

// A mode's word.
fn mode_word(m: Mode) -> &'static [u8]
    ensures { result.now ≡ published_mode m }
{
    match m {
        Mode::Relaxed => b"r",
        Mode::Strict => b"s",
    }
}

// The word of t.
fn testing_word(t: bool) -> &'static [u8]
    ensures { result.now ≡ published_testing t }
{
    if t { b"y" } else { b"n" }
}

// A word between its tags, where there is one.
fn put_optional(start: &[u8], word: &[u8], end: &[u8], at: usize, out: &mut [u8]) -> usize
    ensures { Puts (if is_empty word.now then [] else start.now ++ word.now ++ end.now) at out.old result out.new }
{
    if word.is_empty() {
        return at;
    }
    let middle = octets_pieces::put_then(start, word, at, out);
    octets_pieces::put(end, middle, out)
}

// The element `policy_published`, of a domain in either case.
pub fn put_published(domain: &[u8], s: Settings, at: usize, out: &mut [u8]) -> usize
    ensures { Puts (policy_published (lower domain.now) (published s)) at out.old result out.new }
{
    let shown = published(s);
    let first = octets_pieces::put(b"<policy_published><domain>", at, out);
    let second = octets_pieces::put_lower_then(domain, b"</domain><p>", first, out);
    let third = octets_pieces::put_then(setting_word(shown.p), b"</p>", second, out);
    let fourth = put_optional(b"<sp>", setting_word(shown.sp), b"</sp>", third, out);
    let fifth = put_optional(b"<np>", setting_word(shown.np), b"</np>", fourth, out);
    let texts: [&[u8]; 7] = [
        b"<adkim>",
        mode_word(shown.adkim),
        b"</adkim><aspf>",
        mode_word(shown.aspf),
        b"</aspf><testing>",
        testing_word(shown.t),
        b"</testing></policy_published>",
    ];
    octets_pieces::put_all(&texts, fifth, out)
}
