//! The moment that a text writes.

ghost use Rattle.std.specs.Prelude.{◌≡◌, ◌≤◌, ◌<◌, IfSome};
ghost use Rattle.tariff_core.specs.Reading.{date_and_time_of, day_of, moment_of, seconds_of, written_time};

use crate::calendar::day_number;
use crate::fields::time_of_day;
use price_core::DAY;
use table_core::decimal;

/// The moment that a text writes, in units of 100 ms from moment 0 on, or none where it writes none
/// or one above `most`.
///
/// A moment is a decimal, or a day of the calendar and a time of day, `YYYY-MM-DDTHH:MM:SS` or with
/// a space in place of the `T`, with one digit of a second behind a point or without: 1970-01-01 or
/// later, 00:00:00 to 23:59:59.9.
pub fn moment(text: &[u8], most: u64) -> Option<u64>
    ensures value { result ≡ moment_of most text.now }
    ensures within { IfSome result (λ at. at ≤ most) }
{
    if let Some(at) = decimal(text, most) {
        return Some(at);
    }
    let at = date_and_time(text)?;
    if at > most {
        return None;
    }
    Some(at)
}

/// The moment that a date and a time write.
#[cold]
#[inline(never)]
#[tactic(auto, unfolding(crate::specs::Reading::date_and_time_of))]
fn date_and_time(text: &[u8]) -> Option<u64>
    ensures { result ≡ date_and_time_of text.now }
{
    if text.len() < 11 || (text[10] != b'T' && text[10] != b' ') {
        return None;
    }
    let day = day(&text[..10])?;
    let time = time(&text[11..])?;
    Some(day * u64::from(DAY) + time)
}

/// The day that `YYYY-MM-DD` writes, in days after 1 January 1970.
#[tactic(auto, unfolding(crate::specs::Reading::day_of))]
fn day(text: &[u8]) -> Option<u64>
    ensures value { result ≡ day_of text.now }
    ensures within { IfSome result (λ day. day ≤ 2932896) }
{
    if text.len() != 10 || text[4] != b'-' || text[7] != b'-' {
        return None;
    }
    let year = decimal(&text[..4], 9_999)?;
    let month = decimal(&text[5..7], 12)?;
    let day = decimal(&text[8..], 31)?;
    day_number(year, month, day)
}

/// The time of day that `HH:MM:SS` writes, or `HH:MM:SS.T`, in units of 100 ms.
#[tactic(auto, unfolding(crate::specs::Reading::written_time))]
fn time(text: &[u8]) -> Option<u64>
    ensures value { result ≡ written_time text.now }
    ensures within { IfSome result (λ time. time < 1000000) }
{
    if text.len() < 6 || text[5] != b':' {
        return None;
    }
    let minutes = time_of_day(&text[..5])?;
    let seconds = seconds(&text[6..])?;
    Some(u64::from(minutes) + seconds)
}

/// The seconds that `SS` writes, or `SS.T`, in units of 100 ms.
#[tactic(auto, unfolding(crate::specs::Reading::seconds_of))]
fn seconds(text: &[u8]) -> Option<u64>
    ensures value { result ≡ seconds_of text.now }
    ensures within { IfSome result (λ units. units < 600) }
{
    if text.len() == 2 {
        return Some(decimal(text, 59)? * 10);
    }
    if text.len() != 4 || text[2] != b'.' {
        return None;
    }
    let seconds = decimal(&text[..2], 59)?;
    let tenth = decimal(&text[3..], 9)?;
    Some(seconds * 10 + tenth)
}
