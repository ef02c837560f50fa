// One octet of a source address of an aggregate report: whether it goes on the open number, or ends it.
#![tactic(auto)]

ghost use Rattle.std.specs.Prelude.{◌≡◌, ◌&&◌, eqb, ltb};
ghost use Rattle.report_form.specs.code.ReportReading.{can_be_dotted, can_be_grouped, lower_hex, digit_value, is_last};
ghost use Rattle.report_address.specs.code.Addresses.{kind_of, only_zero_in, dotted_on, grouped_on, ends_in};

// Whether an address of a kind (0 either, 1 dotted, else of groups) can be dotted.
fn can_dot(kind: u8) -> bool
    ensures { result ≡ can_be_dotted (kind_of kind) }
{
    kind <= 1
}

// Whether it can be one of groups.
fn can_group(kind: u8) -> bool
    ensures { result ≡ can_be_grouped (kind_of kind) }
{
    kind != 1
}

// Whether the open number is a 0, which nothing follows.
fn is_zero(digits: u8, sixteen: u16) -> bool
    ensures { result ≡ only_zero_in digits sixteen }
{
    digits != 0 && sixteen == 0
}

// Whether an octet is a hexadecimal digit in lower case.
fn is_hex(x: u8) -> bool
    ensures { result ≡ lower_hex x }
{
    text_class::is_digit(x) || text_class::is_between(x, b'a', b'f')
}

// The value of a digit.
pub fn value_of(x: u8) -> u8
    ensures { result ≡ digit_value x }
{
    if text_class::is_digit(x) {
        x - 48
    } else {
        x.saturating_sub(87)
    }
}

// Whether an octet goes on a number of a dotted address.
pub fn goes_dotted(kind: u8, digits: u8, ten: u16, sixteen: u16, x: u8) -> bool
    ensures { result ≡ dotted_on kind digits ten sixteen x }
{
    can_dot(kind)
        && text_class::is_digit(x)
        && !is_zero(digits, sixteen)
        && u32::from(ten) * 10 + u32::from(value_of(x)) <= 255
}

// Whether an octet goes on a group, which makes no mapped address; `five`: five groups 0 stand before it.
pub fn goes_grouped(kind: u8, five: bool, digits: u8, sixteen: u16, x: u8) -> bool
    ensures { result ≡ grouped_on kind five digits sixteen x }
{
    can_group(kind)
        && is_hex(x)
        && !is_zero(digits, sixteen)
        && !(five && u32::from(sixteen) * 16 + u32::from(value_of(x)) == 65535)
}

// Whether the open number is the last of its address.
fn is_last_number(kind: u8, numbers: u8) -> bool
    ensures { result ≡ is_last (kind_of kind) numbers }
{
    match kind {
        0 => false,
        1 => numbers == 3,
        _ => numbers == 7,
    }
}

// Whether an octet ends the open number, `numbers` standing before it.
pub fn ends_number(kind: u8, numbers: u8, digits: u8, x: u8) -> bool
    ensures { result ≡ ends_in kind numbers digits x }
{
    if digits == 0 {
        return false;
    }
    match x {
        b'<' => is_last_number(kind, numbers),
        b'.' => can_dot(kind) && numbers < 3,
        b':' => can_group(kind) && numbers < 7,
        _ => false,
    }
}
