ghost use Rattle.std.specs.Prelude.{◌≡◌, ◌↔◌, ◌+◌, ◌^◌, ◌<◌, ◌≤◌, ◌≤ℤ◌, ◌<ℤ◌, IsTrue, IsSome, IfSome, IfOk, Some, Ok, Err, length, take, drop, pos};
ghost use Rattle.std.specs.List.{list_all};
ghost use Rattle.std.specs.Char.{is_ascii_digit};
ghost use Rattle.civil_moment.specs.Calendar.{is_date, day_number, is_time, second_number};
ghost use Rattle.civil_moment.specs.Moment.{Text, number, is_civil, is_fraction, seconds_of, nanos_of};
ghost use Rattle.civil_moment.specs.Fault.{first_fault, has_shape, is_point_and_digits, values, fields_in, fraction_in};
ghost use Rattle.civil_moment.specs.declared.moment.Moment.{Moment};
ghost use Rattle.civil_moment.specs.declared.fault.TimeFault.{TimeFault};

use crate::fault::TimeFault;
use crate::moment::Moment;
use jiff_core::civil::Date;

/// The digits of a fraction in billionths.
const MOST_DIGITS: usize = 9;

/// The moment that a generalized time says (X.690, section 11.7), or the first fault of the text.
pub fn read_generalized(text: &[u8]) -> Result<Moment, TimeFault>
    ensures read { IfOk result (Text text.now) }
    ensures only { (moment : Moment) → Text text.now moment → result ≡ Ok moment }
    ensures fault { (fault : TimeFault) → (result ≡ Err fault) ↔ (first_fault text.now ≡ Some fault) }
{
    let Some((fields, fraction)) = split(text) else {
        return Err(TimeFault::Shape);
    };
    let Some(nanos) = billionths(fraction) else {
        return Err(TimeFault::Fraction);
    };
    let Some(seconds) = seconds(fields) else {
        return Err(TimeFault::Range);
    };
    Ok(Moment { seconds, nanos })
}

// The fourteen digits and those of the fraction, of a text of the right shape.
fn split(text: &[u8]) -> Option<(&[u8], &[u8])>
    ensures shape { IsSome result ↔ IsTrue (has_shape text.now) }
    ensures fields { IfSome result (λ parts. values parts.0.now ≡ fields_in text.now) }
    ensures fraction { IfSome result (λ parts. values parts.1.now ≡ fraction_in text.now) }
    ensures fourteen { IfSome result (λ parts. length parts.0.now ≡ 14) }
    ensures digits { IfSome result (λ parts. IsTrue (list_all is_ascii_digit parts.0.now)) }
    ensures fraction_digits { IfSome result (λ parts. IsTrue (list_all is_ascii_digit parts.1.now)) }
{
    let (last, body) = text.split_last()?;
    if *last != b'Z' || body.len() < 14 {
        return None;
    }
    let (fields, tail) = body.split_at(14);
    let fraction = digits_behind_point(tail)?;
    if are_digits(fields) {
        Some((fields, fraction))
    } else {
        None
    }
}

// The digits behind the point, which may stand there with none only where there is no point.
fn digits_behind_point(tail: &[u8]) -> Option<&[u8]>
    ensures shape { IsSome result ↔ IsTrue (is_point_and_digits tail.now) }
    ensures value { IfSome result (λ digits. digits.now ≡ drop 1 tail.now) }
    ensures digits { IfSome result (λ digits. IsTrue (list_all is_ascii_digit digits.now)) }
{
    match tail {
        [] => Some(tail),
        [b'.', digits @ ..] if !digits.is_empty() && are_digits(digits) => Some(digits),
        _ => None,
    }
}

fn are_digits(text: &[u8]) -> bool
    ensures { result ≡ list_all is_ascii_digit text.now }
{
    text.iter().all(|byte| byte.is_ascii_digit())
}

// The number of at most nine decimal digits.
fn number(text: &[u8]) -> u32
    requires digits { IsTrue (list_all is_ascii_digit text.now) }
    requires most { length text.now ≤ 9 }
    ensures value { result ≡ number (values text.now) }
    ensures below { result < 10 ^ length text.now }
{
    let mut number = 0;
    for byte in text {
        number = number * 10 + (*byte - b'0') as u32;
    }
    number
}

// The number of the digits from this place on.
fn field(fields: &[u8], place: usize, count: usize) -> u32
    requires digits { IsTrue (list_all is_ascii_digit fields.now) }
    requires within { place + count ≤ length fields.now }
    requires most { count ≤ 4 }
    ensures value { result ≡ number (take count (drop place (values fields.now))) }
    ensures below { result < 10 ^ count }
{
    number(&fields[place..place + count])
}

// The fraction of a second in billionths, if it is in the fewest digits and none is below a billionth.
fn billionths(fraction: &[u8]) -> Option<u32>
    requires { IsTrue (list_all is_ascii_digit fraction.now) }
    ensures found { IsSome result ↔ IsTrue (is_fraction (values fraction.now)) }
    ensures value { IfSome result (λ nanos. nanos ≡ nanos_of (values fraction.now)) }
    ensures below { IfSome result (λ nanos. nanos < 1_000_000_000) }
{
    if is_fraction(fraction) {
        Some(number_of_nine(fraction))
    } else {
        None
    }
}

fn is_fraction(digits: &[u8]) -> bool
    requires { IsTrue (list_all is_ascii_digit digits.now) }
    ensures { result ≡ is_fraction (values digits.now) }
{
    digits.len() <= MOST_DIGITS && !digits.ends_with(b"0")
}

// The number of these digits, filled up to nine by zeros.
fn number_of_nine(digits: &[u8]) -> u32
    requires digits { IsTrue (list_all is_ascii_digit digits.now) }
    requires most { length digits.now ≤ 9 }
    ensures value { result ≡ nanos_of (values digits.now) }
    ensures below { result < 1_000_000_000 }
{
    let mut filled = [b'0'; 9];
    filled[..digits.len()].copy_from_slice(digits);
    number(&filled)
}

// The seconds from the begin of 1970 to this date and time of the day.
fn seconds(fields: &[u8]) -> Option<i64>
    requires digits { IsTrue (list_all is_ascii_digit fields.now) }
    requires fourteen { length fields.now ≡ 14 }
    ensures found { IsSome result ↔ IsTrue (is_civil (values fields.now)) }
    ensures value { IfSome result (λ seconds. seconds ≡ pos (seconds_of (values fields.now))) }
    ensures most { IfSome result (λ seconds. seconds ≤ℤ pos 253_402_300_799) }
{
    let day = day_number(
        field(fields, 0, 4),
        field(fields, 4, 2),
        field(fields, 6, 2),
    )?;
    let second = second_number(
        field(fields, 8, 2),
        field(fields, 10, 2),
        field(fields, 12, 2),
    )?;
    Some(day * 86_400 + second)
}

// The days from 1 January 1970 to this one, if the calendar has it.
fn day_number(year: u32, month: u32, day: u32) -> Option<i64>
    requires fits { (year ≤ 9999) × (month ≤ 99) × (day ≤ 99) }
    ensures found { IsSome result ↔ IsTrue (is_date year month day) }
    ensures value { IfSome result (λ days. days ≡ pos (day_number year month day)) }
    ensures most { IfSome result (λ days. days ≤ℤ pos 2_932_896) }
{
    if year < 1970 {
        return None;
    }
    let date = Date::new(year as i16, month as i8, day as i8).ok()?;
    Some(date.to_unix_epoch_day() as i64)
}

// The seconds from midnight to this time of the day, if the day has it.
fn second_number(hour: u32, minute: u32, second: u32) -> Option<i64>
    ensures found { IsSome result ↔ IsTrue (is_time hour minute second) }
    ensures value { IfSome result (λ seconds. seconds ≡ pos (second_number hour minute second)) }
    ensures below { IfSome result (λ seconds. seconds <ℤ pos 86_400) }
{
    if hour < 24 && minute < 60 && second < 60 {
        Some((hour * 3_600 + minute * 60 + second) as i64)
    } else {
        None
    }
}
