//! The numbers that queries and options are made of.
ghost use Rattle.std.specs.Prelude.{◌≡◌};
ghost use Rattle.permalink_query.specs.Numbers.{whole_number, year_and_month};

use site_records::{MAX_ID, number};

/// Reads a number of one to ten digits, if it is at most the largest ID.
pub(crate) fn whole_number(text: &str) -> Option<u32>
    ensures { result ≡ whole_number text.now }
{
    if text.is_empty() || text.len() > 10 {
        return None;
    }
    let n = number(text.as_bytes())?;
    if n > u64::from(MAX_ID) {
        return None;
    }
    Some(n as u32)
}

/// Reads the year and the month that six digits spell.
pub(crate) fn year_and_month(text: &str) -> Option<(u16, u8)>
    ensures { result ≡ year_and_month text.now }
{
    if text.len() != 6 {
        return None;
    }
    let n = number(text.as_bytes())?;
    let (year, month) = (n / 100, n % 100);
    if year < 1 || month < 1 || month > 12 {
        return None;
    }
    Some((year as u16, month as u8))
}
