//! Dates and times, read (RFC 9051, section 9, `date` and `date-time`).

ghost use Rattle.std.specs.Prelude.{◌≡◌, ◌<◌, ◌≤◌, ◌^◌, IfOk, IsTrue};
ghost use Rattle.imap_syntax.specs.Reading.{Reads};
ghost use Rattle.imap_syntax.specs.Dates.{digits_of, date_behind_day, date_text, date, day_fixed, below};
ghost use Rattle.imap_syntax.specs.Dates.{zone, date_time_text, date_time_end};

use crate::cursor::Cursor;
use crate::date::{Date, DateTime, Zone, day_exists};
use crate::error::ReadError;
use crate::lexical::decimal;
use crate::month::Month;

impl Cursor<'_> {
    /// Reads `least` to `most` digits.
    fn digits_of(&mut self, least: usize, most: usize) -> Result<u64, ReadError>
        requires { most ≤ 4 }
        ensures { Reads (λ n. n) result self.new ((digits_of least most).read self.old) }
    {
        let digits = self.digits()?;
        if digits.len() < least || most < digits.len() {
            return Err(ReadError::Syntax);
        }
        match decimal(digits) {
            Some(number) => Ok(number),
            None => Err(ReadError::Syntax),
        }
    }

    /// Reads the rest of a date after its day.
    fn date_behind(&mut self, day: u64) -> Result<Date, ReadError>
        ensures { Reads (λ d. d) result self.new ((date_behind_day day).read self.old) }
    {
        self.octet(b'-')?;
        let month = self.keyword::<Month>()?;
        self.octet(b'-')?;
        let year = self.digits_of(4, 4)?;
        if !day_exists(year, month, day) {
            return Err(ReadError::Syntax);
        }
        Ok(Date {
            year: year as u16,
            month,
            day: day as u8,
        })
    }

    fn date_text(&mut self) -> Result<Date, ReadError>
        ensures { Reads (λ d. d) result self.new (date_text.read self.old) }
    {
        let day = self.digits_of(1, 2)?;
        self.date_behind(day)
    }

    /// Reads `date`, quoted or not.
    pub fn date(&mut self) -> Result<Date, ReadError>
        ensures { Reads (λ d. d) result self.new (date.read self.old) }
    {
        if !self.has(b'"') {
            return self.date_text();
        }
        let date = self.date_text()?;
        self.octet(b'"')?;
        Ok(date)
    }

    fn day_fixed(&mut self) -> Result<u64, ReadError>
        ensures { Reads (λ n. n) result self.new (day_fixed.read self.old) }
    {
        if self.has(b' ') {
            self.digits_of(1, 1)
        } else {
            self.digits_of(2, 2)
        }
    }

    /// Reads a number of two digits below `limit`.
    fn below(&mut self, limit: u8) -> Result<u8, ReadError>
        ensures value { Reads (λ n. n) result self.new ((below limit).read self.old) }
        ensures limit { IfOk result (λ n. n < limit) }
    {
        let number = self.digits_of(2, 2)?;
        if number < u64::from(limit) {
            Ok(number as u8)
        } else {
            Err(ReadError::Syntax)
        }
    }

    fn zone(&mut self) -> Result<Zone, ReadError>
        ensures { Reads (λ z. z) result self.new (zone.read self.old) }
    {
        let west = self.has(b'-');
        if !west {
            self.octet(b'+')?;
        }
        let number = self.digits_of(4, 4)?;
        if number / 100 < 24 && number % 100 < 60 {
            Ok(Zone {
                west,
                hours: (number / 100) as u8,
                minutes: (number % 100) as u8,
            })
        } else {
            Err(ReadError::Syntax)
        }
    }

    /// Reads `date-time` without its quotes.
    pub(crate) fn date_time_text(&mut self) -> Result<DateTime, ReadError>
        ensures { Reads (λ t. t) result self.new (date_time_text.read self.old) }
    {
        let day = self.day_fixed()?;
        let date = self.date_behind(day)?;
        self.octet(b' ')?;
        let hour = self.below(24)?;
        self.octet(b':')?;
        let minute = self.below(60)?;
        self.octet(b':')?;
        let second = self.below(60)?;
        self.octet(b' ')?;
        let zone = self.zone()?;
        Ok(DateTime {
            date,
            hour,
            minute,
            second,
            zone,
        })
    }

    /// Reads `date-time` after its first quote.
    pub fn date_time_end(&mut self) -> Result<DateTime, ReadError>
        ensures { Reads (λ t. t) result self.new (date_time_end.read self.old) }
    {
        let moment = self.date_time_text()?;
        self.octet(b'"')?;
        Ok(moment)
    }
}
