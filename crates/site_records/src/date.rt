//! Dates of posts.

ghost use Rattle.std.specs.Prelude.{◌≡◌, ◌<◌, ◌^◌, true, is_some, length, slice_range, IfSome};
ghost use Rattle.std.specs.Prelude.{IsTrue, Ok};
ghost use Rattle.site_records.specs.Digits.{number};
ghost use Rattle.site_records.specs.Dates.{is_day, is_clock, has_marks, is_moment, is_post_date};

use crate::digits::number;
use jiff::civil::Date;
use std::alloc::AllocError;
use std::marker::Model;
use std::str;

/// Returns whether the calendar has this day, counted from year 1 on.
fn is_real(year: u64, month: u64, day: u64) -> bool
    requires year { year < 10 ^ 4 }
    requires month { month < 10 ^ 2 }
    requires day { day < 10 ^ 2 }
    ensures { result ≡ is_day year month day }
{
    year > 0 && Date::new(year as i16, month as i8, day as i8).is_ok()
}

/// Returns whether a clock shows this time. A leap second is not a time here.
fn is_clock(hour: u64, minute: u64, second: u64) -> bool
    ensures { result ≡ is_clock hour minute second }
{
    hour < 24 && minute < 60 && second < 60
}

/// Returns whether the marks of a date are in their places.
fn has_marks(t: &[u8]) -> bool
    requires { length t.now ≡ 19 }
    ensures { result ≡ has_marks t.now }
{
    t[4] == b'-' && t[7] == b'-' && t[10] == b' ' && t[13] == b':' && t[16] == b':'
}

/// Returns whether the numbers between the marks are those of a day and a time.
fn has_moment(t: &[u8]) -> bool
    requires { length t.now ≡ 19 }
    ensures { result ≡ is_moment
        (number (slice_range t.now 0 4)) (number (slice_range t.now 5 7))
        (number (slice_range t.now 8 10))
        (number (slice_range t.now 11 13)) (number (slice_range t.now 14 16))
        (number (slice_range t.now 17 19)) }
{
    match (
        number(&t[0..4]),
        number(&t[5..7]),
        number(&t[8..10]),
        number(&t[11..13]),
        number(&t[14..16]),
        number(&t[17..19]),
    ) {
        (Some(year), Some(month), Some(day), Some(hour), Some(minute), Some(second)) => {
            is_real(year, month, day) && is_clock(hour, minute, second)
        }
        _ => false,
    }
}

/// Returns whether the text is the date of a post.
#[tactic(auto, unfolding(crate::specs::Dates::is_post_date))]
fn is_post_date(text: &str) -> bool
    ensures value { result ≡ is_post_date text.now }
    ensures whole { IsTrue result → length text.now ≡ 19 }
{
    let t = text.as_bytes();
    t.len() == 19 && has_marks(t) && has_moment(t)
}

/// The date and time of a post, which contracts see as its 19 bytes: `YYYY-MM-DD HH:MM:SS`, as
/// `2024-02-29 10:00:00` (WordPress, wp_insert_post, `post_date`). The year is 0001 to 9999, the
/// day is one of the Gregorian calendar, hours are 00 to 23, minutes and seconds 00 to 59. There is
/// no time zone. Of two dates the earlier one is the smaller text.
#[derive(Drop)]
pub struct PostDate {
    bytes: [u8; 19],
}

impl Model for PostDate {
    ghost use Rattle.std.specs.Prelude.{List, ℕ, IsTrue, IsUtf8};
    ghost use Rattle.site_records.specs.Dates.{is_post_date};

    ghost Value = { List ℕ };

    ghost view = { λ d. d.bytes };

    ghost invariant = { λ d. IsTrue (is_post_date d.bytes) × IsUtf8 d.bytes };
}

impl PostDate {
    /// Reads a text as a date, and returns `None` if it isn't one: another length, another byte in
    /// place of a digit or a mark, or a day or a time that doesn't exist. Does not allocate.
    pub fn read(text: &str) -> Option<PostDate>
        ensures some { is_some result ≡ is_post_date text.now }
        ensures text { IfSome result (λ d. d ≡ text.now) }
    {
        if !is_post_date(text) {
            return None;
        }
        let mut bytes = [0u8; 19];
        bytes.copy_from_slice(text.as_bytes());
        Some(PostDate { bytes })
    }

    /// Returns the text that was read, which is a date.
    pub fn as_str(&self) -> &str
        ensures text { result.now ≡ self.now }
        ensures date { is_post_date result.now ≡ true }
    {
        match str::from_utf8(&self.bytes) {
            Ok(text) => text,
            Err(_) => unreachable!(),
        }
    }
}

/// Copying does not allocate and never fails.
impl Clone for PostDate {
    ghost use Rattle.std.specs.Prelude.{⊤};

    ghost is_clone = { λ date copy. copy ≡ date };

    ghost is_infallible = { λ _. ⊤ };

    fn clone(&self) -> Result<Self, AllocError>
        ensures { result ≡ Ok self.now }
    {
        Ok(PostDate { bytes: self.bytes })
    }
}
