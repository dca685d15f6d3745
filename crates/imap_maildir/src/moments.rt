//! Moments in seconds from the beginning of 1970.

use imap_syntax::{Date, DateTime, Zone};
use std::time::{Duration, SystemTime, UNIX_EPOCH};

/// The seconds of 2,000 years, after which the calendar begins anew.
const CYCLE: i64 = 63_113_904_000;

/// The years of these.
const CYCLE_YEARS: u16 = 2_000;

/// UTC, and the zones farthest from it, in which the first and the last moments of other zones have a year of four digits.
const ZONES: [(bool, u8, u8); 3] = [(false, 0, 0), (false, 23, 59), (true, 23, 59)];

/// Returns the date of a moment, in UTC if its year has at most four digits there. `None` if it has more everywhere.
pub fn date_at(moment: i64) -> Option<DateTime> {
    for (west, hours, minutes) in ZONES {
        if let Some(date) = date_in(moment, west, hours, minutes) {
            return Some(date);
        }
    }
    None
}

fn date_in(moment: i64, west: bool, hours: u8, minutes: u8) -> Option<DateTime> {
    let zone = Zone::new(west, hours, minutes)?;
    let offset = seconds(hours, minutes, 0);
    let local = if west {
        moment.saturating_sub(offset)
    } else {
        moment.saturating_add(offset)
    };
    let utc = utc_date(local)?;
    DateTime::new(utc.date(), utc.hour(), utc.minute(), utc.second(), zone)
}

/// The date of a moment in UTC. `None` before the year 0 and after the year 9999.
fn utc_date(moment: i64) -> Option<DateTime> {
    if let Ok(since) = u64::try_from(moment) {
        return DateTime::of_moment(since);
    }
    let later = DateTime::of_moment(u64::try_from(moment.checked_add(CYCLE)?).ok()?)?;
    let day = later.date();
    let date = Date::new(day.year().checked_sub(CYCLE_YEARS)?, day.month(), day.day())?;
    DateTime::new(
        date,
        later.hour(),
        later.minute(),
        later.second(),
        later.zone(),
    )
}

/// Returns the moment of a date.
pub fn seconds_of(date: DateTime) -> i64 {
    let zone = date.zone();
    let offset = seconds(zone.hours(), zone.minutes(), 0);
    let local = date
        .date()
        .day_number()
        .saturating_mul(86_400)
        .saturating_add(seconds(date.hour(), date.minute(), date.second()));
    if zone.west() {
        local.saturating_add(offset)
    } else {
        local.saturating_sub(offset)
    }
}

fn seconds(hours: u8, minutes: u8, seconds: u8) -> i64 {
    i64::from(hours) * 3600 + i64::from(minutes) * 60 + i64::from(seconds)
}

/// The time of a file for a moment. `None` before 1970.
pub(crate) fn time_of(moment: i64) -> Option<SystemTime> {
    let since = Duration::from_secs(u64::try_from(moment).ok()?);
    UNIX_EPOCH.checked_add(since)
}

/// The moment of a file's time.
pub(crate) fn moment_of(time: SystemTime) -> i64 {
    match time.duration_since(UNIX_EPOCH) {
        Ok(since) => i64::try_from(since.as_secs()).unwrap_or(i64::MAX),
        Err(error) => i64::try_from(error.duration().as_secs())
            .unwrap_or(i64::MAX)
            .saturating_neg(),
    }
}
