// One octet of a source address of an aggregate report, by value: what it says, and the open number after it.
#![tactic(auto)]

ghost use Rattle.std.specs.Prelude.{◌≡◌, ◌+◌, ◌*◌, ◌<◌, ◌≤◌};
ghost use Rattle.report_form.specs.code.ReportReading.{digit_value};
ghost use Rattle.report_source.specs.code.Sources.{limit, fits_kind, is_sound, grown, number_ended, Turns};

use report_steps::Refusal;

// The open number of an address of a kind (0 either, 1 dotted, 2 of groups): its digits, and its value to base 10 and to base 16.
#[derive(Clone, Copy)]
pub struct OpenNumber {
    pub kind: u8,
    pub digits: u8,
    pub ten: u16,
    pub sixteen: u16,
}

// What an octet says: the open number has a digit more, the address has ended, or a number of an address of that kind has.
#[derive(Clone, Copy)]
pub enum SourceTurn {
    More(OpenNumber),
    Ended,
    Number(u8, u16),
}

// What a number of so many hexadecimal digits is below; 0 for more digits than a number has.
#[tactic(auto, unfolding(crate::specs::code::Sources::limit))]
fn limit_of(digits: u8) -> u32
    ensures { result ≡ limit digits }
{
    let limits: [u32; 5] = [1, 16, 256, 4096, 65536];
    limits.get(digits as usize).copied().unwrap_or(0)
}

// Whether so many numbers can stand before the open one of an address of a kind.
#[tactic(auto, unfolding(crate::specs::code::Sources::fits_kind))]
fn can_stand(kind: u8, numbers: u8, ten: u16) -> bool
    ensures { result ≡ fits_kind kind numbers ten }
{
    match kind {
        0 => numbers == 0 && ten <= 255,
        1 => numbers <= 3 && ten <= 255,
        _ => numbers <= 7,
    }
}

// Whether some text leads to an open address with these numbers.
#[tactic(auto, unfolding(crate::specs::code::Sources::is_sound))]
fn can_be_open(kind: u8, numbers: u8, digits: u8, ten: u16, sixteen: u16) -> bool
    ensures { result ≡ is_sound kind numbers digits ten sixteen }
{
    let below = limit_of(digits);
    can_stand(kind, numbers, ten) && (sixteen as u32) < below && (ten as u32) < below
}

// A digit more of the open number, of an address of that kind.
fn grow(kind: u8, digits: u8, ten: u16, sixteen: u16, x: u8) -> SourceTurn
    requires { (digits < 4) × (ten < limit digits) × (sixteen < limit digits) × (digit_value x ≤ 15) }
    ensures { result ≡ grown kind digits ten sixteen x }
{
    let unit = report_address::value_of(x) as u32;
    let tens = ten as u32 * 10 + unit;
    let sixteens = sixteen as u32 * 16 + unit;
    SourceTurn::More(OpenNumber {
        kind,
        digits: digits + 1,
        ten: tens as u16,
        sixteen: sixteens as u16,
    })
}

// The open number ends at `<`, `.` or `:`.
#[tactic(auto, unfolding(crate::specs::code::Sources::number_ended))]
fn end_number(ten: u16, sixteen: u16, x: u8) -> SourceTurn
    ensures { result ≡ number_ended ten sixteen x }
{
    match x {
        b'<' => SourceTurn::Ended,
        b'.' => SourceTurn::Number(1, ten),
        _ => SourceTurn::Number(2, sixteen),
    }
}

// An octet of an address behind `numbers` numbers, the five first of them 0 and no more or not.
pub fn step_source(
    kind: u8,
    numbers: u8,
    five: bool,
    digits: u8,
    ten: u16,
    sixteen: u16,
    x: u8,
) -> Result<SourceTurn, Refusal>
    ensures { Turns kind numbers five digits ten sixteen x result }
{
    if !can_be_open(kind, numbers, digits, ten, sixteen) {
        return Err(Refusal::Outside);
    }
    if report_address::ends_number(kind, numbers, digits, x) {
        return Ok(end_number(ten, sixteen, x));
    }
    if 4 <= digits {
        return Err(Refusal::Outside);
    }
    if report_address::goes_dotted(kind, digits, ten, sixteen, x) {
        return Ok(grow(kind, digits, ten, sixteen, x));
    }
    if report_address::goes_grouped(kind, five, digits, sixteen, x) {
        return Ok(grow(2, digits, ten, sixteen, x));
    }
    Err(Refusal::Outside)
}
