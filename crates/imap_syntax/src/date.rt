//! Days and moments.

ghost use Rattle.std.specs.Prelude.{◌≡◌, ◌<◌, ◌++◌, int_lt, IsTrue, OnOk, MatchOption};
ghost use Rattle.imap_syntax.specs.Calendar.{day_exists};
ghost use Rattle.imap_syntax.specs.Dates.{date_time_read};
ghost use Rattle.imap_syntax.specs.DayNumbers as specs;
ghost use Rattle.imap_syntax.specs.DayNumbers.{day_number, IsNumbered, IsMomentAt, max_day, max_moment};
ghost use Rattle.imap_syntax.specs.WrittenDates.{day_of, offset_of, moment_of, date_time_text};

use crate::cursor::Cursor;
use crate::month::Month;
use crate::write_dates::push_date_time_text;
use imap_values::Same;
use jiff::civil;
use std::alloc::AllocError;
use std::marker::Model;

const SECONDS_IN_A_DAY: u64 = 86_400;

/// 31-Dec-9999, as a number of days after 1-Jan-1970.
const MAX_DAY: u64 = 2_932_896;

/// A day of the calendar, in a year of at most four digits.
#[derive(Clone, Copy, PartialEq, Eq)]
pub struct Date {
    pub(crate) year: u16,
    pub(crate) month: Month,
    pub(crate) day: u8,
}

impl Model for Date {
    ghost use Rattle.std.specs.Prelude.{◌≡◌, true};
    ghost use Rattle.imap_syntax.specs.Calendar.{day_exists};
    ghost use Rattle.imap_syntax.specs.Moments.{Day};

    ghost Value = { Day };

    ghost view = { λ d. record { year = d.year; month = d.month; day = d.day } };

    ghost invariant = { λ d. day_exists d.year d.month d.day ≡ true };

    ghost inverse = { λ d. record { year = d.year; month = d.month; day = d.day } };
}

/// A number that is greater for each later day. No month has 32 days.
fn order_of(year: u16, month: Month, day: u8) -> u32
    ensures { result ≡ specs.order_of year month day }
{
    u32::from(year) * 512 + u32::from(month.number()) * 32 + u32::from(day)
}

impl Date {
    /// Returns the day, or `None` if the month has no such day or the year is over 9999.
    pub fn new(year: u16, month: Month, day: u8) -> Option<Date>
        ensures { result ≡ day_of year month day }
    {
        if !day_exists(u64::from(year), month, u64::from(day)) {
            return None;
        }
        Some(Date { year, month, day })
    }

    /// Returns the year, at most 9999.
    pub fn year(self) -> u16
        ensures { result ≡ self.year }
    {
        self.year
    }

    /// Returns the month.
    pub fn month(self) -> Month
        ensures { result ≡ self.month }
    {
        self.month
    }

    /// Returns the day of the month, from 1.
    pub fn day(self) -> u8
        ensures { result ≡ self.day }
    {
        self.day
    }

    /// Returns the number of the day: 0 for 1-Jan-1970, and less before it.
    pub fn day_number(self) -> i64
        ensures { result ≡ day_number self }
    {
        let day = civil::date(self.year as i16, self.month.number() as i8, self.day as i8);
        i64::from(day.to_plain().to_unix_epoch_day())
    }

    /// Whether the day is before the other. It takes less than the numbers of both.
    pub fn is_before(self, other: Date) -> bool
        ensures { result ≡ int_lt (day_number self) (day_number other) }
    {
        let order = order_of(self.year, self.month, self.day);
        order < order_of(other.year, other.month, other.day)
    }

    /// Returns the day `number` days after 1-Jan-1970, or `None` if it is after the year 9999.
    fn of_day_number(number: u64) -> Option<Date>
        ensures { MatchOption result (max_day < number) (IsNumbered number) }
    {
        if number > MAX_DAY {
            return None;
        }
        let day = jiff_core::civil::Date::from_unix_epoch_day(number as i64).ok()?;
        Date::new(
            day.year.unsigned_abs(),
            Month::of_number(day.month)?,
            day.day,
        )
    }
}

impl Same for Date {
    fn is_same(&self, other: &Date) -> bool {
        self == other
    }
}

/// How far local time is from UTC: less than a day.
#[derive(Clone, Copy, PartialEq, Eq)]
pub struct Zone {
    pub(crate) west: bool,
    pub(crate) hours: u8,
    pub(crate) minutes: u8,
}

impl Model for Zone {
    ghost use Rattle.std.specs.Prelude.{◌≡◌, true};
    ghost use Rattle.imap_syntax.specs.Moments.{Offset};
    ghost use Rattle.imap_syntax.specs.WrittenDates.{zone_fits};

    ghost Value = { Offset };

    ghost view = { λ z. record { west = z.west; hours = z.hours; minutes = z.minutes } };

    ghost invariant = { λ z.
        zone_fits (record { west = z.west; hours = z.hours; minutes = z.minutes }) ≡ true };

    ghost inverse = { λ z. record { west = z.west; hours = z.hours; minutes = z.minutes } };
}

impl Zone {
    /// Returns the zone, with the sign `-` if `west`, or `None` if there are over 23 `hours` or over 59
    /// `minutes`.
    pub fn new(west: bool, hours: u8, minutes: u8) -> Option<Zone>
        ensures { result ≡ offset_of west hours minutes }
    {
        if hours < 24 && minutes < 60 {
            Some(Zone {
                west,
                hours,
                minutes,
            })
        } else {
            None
        }
    }

    /// Whether the sign is `-`.
    pub fn west(self) -> bool
        ensures { result ≡ self.west }
    {
        self.west
    }

    /// Returns the hours from UTC, at most 23.
    pub fn hours(self) -> u8
        ensures { result ≡ self.hours }
    {
        self.hours
    }

    /// Returns the minutes beside the hours, at most 59.
    pub fn minutes(self) -> u8
        ensures { result ≡ self.minutes }
    {
        self.minutes
    }
}

/// A moment as a client writes it.
#[derive(Clone, Copy, PartialEq, Eq)]
pub struct DateTime {
    pub(crate) date: Date,
    pub(crate) hour: u8,
    pub(crate) minute: u8,
    pub(crate) second: u8,
    pub(crate) zone: Zone,
}

impl Model for DateTime {
    ghost use Rattle.std.specs.Prelude.{◌≡◌, true};
    ghost use Rattle.imap_syntax.specs.Moments.{Moment};
    ghost use Rattle.imap_syntax.specs.WrittenDates.{clock_fits};

    ghost Value = { Moment };

    ghost view = { λ t. record {
      date = t.date;
      hour = t.hour;
      minute = t.minute;
      second = t.second;
      zone = t.zone;
    } };

    ghost invariant = { λ t. clock_fits t.hour t.minute t.second ≡ true };

    ghost inverse = { λ t. record {
      date = t.date;
      hour = t.hour;
      minute = t.minute;
      second = t.second;
      zone = t.zone;
    } };
}

impl DateTime {
    /// Returns the moment, or `None` if `hour` is over 23, or `minute` or `second` over 59.
    pub fn new(date: Date, hour: u8, minute: u8, second: u8, zone: Zone) -> Option<DateTime>
        ensures { result ≡ moment_of date hour minute second zone }
    {
        if hour < 24 && minute < 60 && second < 60 {
            Some(DateTime {
                date,
                hour,
                minute,
                second,
                zone,
            })
        } else {
            None
        }
    }

    /// Returns the day in the zone.
    pub fn date(self) -> Date
        ensures { result ≡ self.date }
    {
        self.date
    }

    /// Returns the hour of the day, at most 23.
    pub fn hour(self) -> u8
        ensures { result ≡ self.hour }
    {
        self.hour
    }

    /// Returns the minute of the hour, at most 59.
    pub fn minute(self) -> u8
        ensures { result ≡ self.minute }
    {
        self.minute
    }

    /// Returns the second of the minute, at most 59.
    pub fn second(self) -> u8
        ensures { result ≡ self.second }
    {
        self.second
    }

    /// Returns the zone.
    pub fn zone(self) -> Zone
        ensures { result ≡ self.zone }
    {
        self.zone
    }

    /// Reads `date-time` without its quotes, as ` 1-Feb-1994 21:52:25 -0800`.
    pub fn read(text: &[u8]) -> Option<DateTime>
        ensures { result ≡ date_time_read text.now }
    {
        let mut cursor = Cursor::over(text);
        let moment = cursor.date_time_text().ok()?;
        if cursor.rest().is_empty() {
            Some(moment)
        } else {
            None
        }
    }

    /// Appends `date-time` without its quotes, as ` 1-Feb-1994 21:52:25 -0800`.
    pub fn print(self, out: &mut Vec<u8>) -> Result<(), AllocError>
        ensures { OnOk result (out.new.items ≡ out.old.items ++ date_time_text self) }
    {
        push_date_time_text(out, &self)
    }

    /// Returns the moment `seconds` after the beginning of 1-Jan-1970 in UTC, written at `+0000`, or `None`
    /// if it is after the year 9999.
    pub fn of_moment(seconds: u64) -> Option<DateTime>
        ensures { MatchOption result (max_moment < seconds) (IsMomentAt seconds) }
    {
        let date = Date::of_day_number(seconds / SECONDS_IN_A_DAY)?;
        let second = seconds % SECONDS_IN_A_DAY;
        Some(DateTime {
            date,
            hour: (second / 3600) as u8,
            minute: (second / 60 % 60) as u8,
            second: (second % 60) as u8,
            zone: Zone {
                west: false,
                hours: 0,
                minutes: 0,
            },
        })
    }
}

impl Same for DateTime {
    fn is_same(&self, other: &DateTime) -> bool {
        *self == *other
    }
}

/// Whether the month has the day, in a year of at most four digits.
pub(crate) fn day_exists(year: u64, month: Month, day: u64) -> bool
    ensures exists { result ≡ day_exists year month day }
    ensures year { IsTrue result → year < 10000 }
    ensures day { IsTrue result → day < 32 }
{
    if year >= 10000 || day >= 32 {
        return false;
    }
    civil::Date::new(year as i16, month.number() as i8, day as i8).is_ok()
}
