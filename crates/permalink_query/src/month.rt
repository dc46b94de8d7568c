//! The dates of posts that lie in a month.
ghost use Rattle.std.specs.Prelude.{◌≡◌, true, false, Ok, None, ◌++◌, codes, pos, IfOk, IfSome};
ghost use Rattle.std.specs.Prelude.{is_some};
ghost use Rattle.site_records.specs.Dates.{is_post_date};
ghost use Rattle.jiff.specs.Words.{date_text, IsYmd};
ghost use Rattle.permalink_query.specs.Months.{is_month, month_start, month_end};

use jiff::civil::Date;
use site_records::PostDate;
use std::alloc::{AllocError, Global};

/// Returns the first and the last moment of a month, or `None` if there is no such month.
pub(crate) fn month_span(
    alloc: Global,
    year: u16,
    month: u8,
) -> Result<Option<(PostDate, PostDate)>, AllocError>
    ensures there { IfOk result (λ span. is_some span ≡ is_month year month) }
    ensures none { is_month year month ≡ false → result ≡ Ok None }
    ensures span { IfOk result (λ span. IfSome span (λ s. (s.0 ≡ month_start year month)
        × (s.1 ≡ month_end year month))) }
{
    let Some(first) = first_day(year, month) else {
        return Ok(None);
    };
    let from = moment(alloc, first, "00:00:00")?;
    let to = moment(alloc, first.last_of_month(), "23:59:59")?;
    Ok(Some((from, to)))
}

fn first_day(year: u16, month: u8) -> Option<Date>
    ensures there { is_some result ≡ is_month year month }
    ensures day { IfSome result (IsYmd (pos year) (pos month) (pos 1)) }
{
    if year < 1 || year > 9999 || month < 1 || month > 12 {
        return None;
    }
    Date::new(year as i16, month as i8, 1).ok()
}

fn moment(alloc: Global, day: Date, time: &'static str) -> Result<PostDate, AllocError>
    requires { is_post_date (date_text day ++ codes " " ++ time.now) ≡ true }
    ensures { IfOk result (λ date. date ≡ date_text day ++ codes " " ++ time.now) }
{
    let text = format!(in alloc; "{day} {time}")?;
    match PostDate::read(text.as_str()) {
        Some(date) => Ok(date),
        None => unreachable!(),
    }
}
