//! The numbers of lines that take the place of others.
ghost use Rattle.command_log.specs.Lines.{HasRoom};

/// Returns the number for the first of `count` new lines: the one after the last number that was used,
/// or 1 if fewer than `count` are left after it.
pub(crate) fn number_after(last: i64, count: usize) -> i64
    ensures { HasRoom result count }
{
    match i64::try_from(count) {
        Ok(count) if 0 <= last && last < i64::MAX - count => last + 1,
        _ => 1,
    }
}

/// Returns the number of the last of `count` lines that follow the one with this number.
pub(crate) fn last_after(number: i64, count: usize) -> i64 {
    number.saturating_add(i64::try_from(count).unwrap_or(i64::MAX))
}
