ghost use Rattle.std.specs.Prelude.{◌≡◌, ◌+◌, ◌++◌, ◌≤◌, List, ℕ, IsTrue, IsOk, IfOk, OnOk, vec_len, vec_capacity};
ghost use Rattle.civil_moment.specs.Calendar.{is_date, day_number};
ghost use Rattle.civil_moment.specs.Moment.{Text, AddsTime, longest_time, digits_text, fraction_text};
ghost use Rattle.civil_moment.specs.Inside.{places, shortest};

use crate::moment::Moment;
use jiff_core::civil::Date;
use std::alloc::{AllocError, Global};

/// The generalized time of a moment (X.690, section 11.7), which has no other.
pub fn write_generalized(alloc: Global, moment: &Moment) -> Result<Vec<u8>, AllocError>
    ensures text { IfOk result (λ text. Text text.items moment.now) }
    ensures only { IfOk result (λ text.
        (other : List ℕ) → Text other moment.now → other ≡ text.items) }
{
    let mut text = Vec::new(alloc);
    add_generalized(&mut text, moment)?;
    Ok(text)
}

/// Adds the generalized time of a moment to a text. It has at most 25 bytes.
pub fn add_generalized(text: &mut Vec<u8>, moment: &Moment) -> Result<(), AllocError>
    ensures time { OnOk result (AddsTime text.old.items text.new.items moment.now) }
    ensures capacity { vec_capacity text.old ≤ vec_capacity text.new }
    // Where there is room for the longest, it isn't refused.
    ensures room { vec_len text.old + longest_time ≤ vec_capacity text.old → IsOk result }
{
    let seconds = moment.seconds as u64;
    let (year, month, day) = date_of((seconds / 86_400) as u32);
    let second = (seconds % 86_400) as u32;
    let minute = second / 60;
    push_digits(text, 4, year)?;
    push_digits(text, 2, month)?;
    push_digits(text, 2, day)?;
    push_digits(text, 2, minute / 60)?;
    push_digits(text, 2, minute % 60)?;
    push_digits(text, 2, second % 60)?;
    push_fraction(text, 9, moment.nanos)?;
    text.push(b'Z')?;
    Ok(())
}

// The year, month and day, so many days after 1 January 1970.
fn date_of(days: u32) -> (u32, u32, u32)
    requires { days ≤ 2_932_896 }
    ensures date { IsTrue (is_date result.0 result.1 result.2) }
    ensures number { day_number result.0 result.1 result.2 ≡ days }
{
    let date = Date::from_days_since_min(days + 4_371_587);
    (
        date.year.unsigned_abs() as u32,
        date.month as u32,
        date.day as u32,
    )
}

// Adds the last decimal digits of a number, so many of them.
fn push_digits(text: &mut Vec<u8>, count: u32, number: u32) -> Result<(), AllocError>
    ensures digits { OnOk result (text.new.items ≡ text.old.items ++ digits_text (places count number)) }
    ensures len { OnOk result (vec_len text.new ≡ vec_len text.old + count) }
    ensures capacity { vec_capacity text.old ≤ vec_capacity text.new }
    ensures room { vec_len text.old + count ≤ vec_capacity text.old → IsOk result }
{
    if count == 0 {
        return Ok(());
    }
    push_digits(text, count - 1, number / 10)?;
    text.push(b'0' + (number % 10) as u8)?;
    Ok(())
}

// Adds the point and so many last digits of a number, without the zeros at their end; nothing where all are zeros.
fn push_fraction(text: &mut Vec<u8>, count: u32, number: u32) -> Result<(), AllocError>
    ensures fraction { OnOk result (text.new.items ≡ text.old.items ++ fraction_text (shortest count number)) }
    ensures len { OnOk result (vec_len text.new ≤ vec_len text.old + (count + 1)) }
    ensures capacity { vec_capacity text.old ≤ vec_capacity text.new }
    ensures room { vec_len text.old + (count + 1) ≤ vec_capacity text.old → IsOk result }
{
    if count == 0 {
        return Ok(());
    }
    if number % 10 == 0 {
        return push_fraction(text, count - 1, number / 10);
    }
    text.push(b'.')?;
    push_digits(text, count, number)?;
    Ok(())
}
