//! Dates and times, written.

ghost use Rattle.std.specs.Prelude.{◌≡◌, ◌++◌, ◌∷◌, IsTrue, OnOk};
ghost use Rattle.imap_syntax.specs.WrittenDates.{two_digits, four_digits, day_text, month_year_text};
ghost use Rattle.imap_syntax.specs.WrittenDates.{fixed_day_text, fixed_date_text, date, zone_fits, sign};
ghost use Rattle.imap_syntax.specs.WrittenDates.{clock_text, zone_text, date_time_text, date_time_end};
ghost use Rattle.imap_syntax.specs.WrittenDates.{date_time};

use crate::cursor::Keyword;
use crate::date::{Date, DateTime, Zone};
use std::alloc::AllocError;

/// Appends the last two digits of `number`.
fn push_two_digits(out: &mut Vec<u8>, number: u16) -> Result<(), AllocError>
    ensures { OnOk result (out.new.items ≡ out.old.items ++ two_digits number) }
{
    out.push(b'0' + (number / 10 % 10) as u8)?;
    out.push(b'0' + (number % 10) as u8)?;
    Ok(())
}

/// Appends the last four digits of `number`.
fn push_four_digits(out: &mut Vec<u8>, number: u16) -> Result<(), AllocError>
    ensures { OnOk result (out.new.items ≡ out.old.items ++ four_digits number) }
{
    push_two_digits(out, number / 100)?;
    push_two_digits(out, number)
}

/// Appends a day of a month without a leading zero.
fn push_day(out: &mut Vec<u8>, day: u8) -> Result<(), AllocError>
    ensures { OnOk result (out.new.items ≡ out.old.items ++ day_text day) }
{
    if day < 10 {
        out.push(b'0' + day % 10)?;
        Ok(())
    } else {
        push_two_digits(out, u16::from(day))
    }
}

/// Appends the part of a date after its day.
fn push_month_year(out: &mut Vec<u8>, day: &Date) -> Result<(), AllocError>
    ensures { OnOk result (out.new.items ≡ out.old.items ++ month_year_text day.now) }
{
    out.push(b'-')?;
    out.extend_from_slice(day.month.name())?;
    out.push(b'-')?;
    push_four_digits(out, day.year)
}

/// Whether the day can be written: it always can.
pub fn date_fits(day: &Date) -> bool
    ensures fits { result ≡ date.fits day.now }
    ensures always { IsTrue result }
{
    let _year = day.year;
    true
}

/// Appends a day as `date-text`, as `1-Feb-1994`.
pub fn push_date(out: &mut Vec<u8>, day: &Date) -> Result<(), AllocError>
    ensures { OnOk result (out.new.items ≡ out.old.items ++ date.text day.now) }
{
    push_day(out, day.day)?;
    push_month_year(out, day)
}

/// Appends a day of a month as `date-day-fixed`: a day below 10 after a space.
fn push_fixed_day(out: &mut Vec<u8>, day: u8) -> Result<(), AllocError>
    ensures { OnOk result (out.new.items ≡ out.old.items ++ fixed_day_text day) }
{
    if day < 10 {
        out.push(b' ')?;
        out.push(b'0' + day % 10)?;
        Ok(())
    } else {
        push_two_digits(out, u16::from(day))
    }
}

/// Appends a date with a day of two octets.
fn push_fixed_date(out: &mut Vec<u8>, day: &Date) -> Result<(), AllocError>
    ensures { OnOk result (out.new.items ≡ out.old.items ++ fixed_date_text day.now) }
{
    push_fixed_day(out, day.day)?;
    push_month_year(out, day)
}

fn sign(west: bool) -> u8
    ensures { result ≡ sign west }
{
    if west { b'-' } else { b'+' }
}

/// Whether the zone can be written: it always can.
fn zone_fits(zone: &Zone) -> bool
    ensures fits { result ≡ zone_fits zone.now }
    ensures always { IsTrue result }
{
    let _west = zone.west;
    true
}

/// Whether the moment can be written: it always can.
pub fn date_time_fits(moment: &DateTime) -> bool
    ensures fits { result ≡ date_time_end.fits moment.now }
    ensures always { IsTrue result }
{
    let _hour = moment.hour;
    date_fits(&moment.date) && zone_fits(&moment.zone)
}

/// Appends the hour, minute and second.
fn push_clock(out: &mut Vec<u8>, moment: &DateTime) -> Result<(), AllocError>
    ensures { OnOk result (out.new.items ≡ out.old.items ++ clock_text moment.now) }
{
    push_two_digits(out, u16::from(moment.hour))?;
    out.push(b':')?;
    push_two_digits(out, u16::from(moment.minute))?;
    out.push(b':')?;
    push_two_digits(out, u16::from(moment.second))
}

fn push_zone(out: &mut Vec<u8>, zone: &Zone) -> Result<(), AllocError>
    ensures { OnOk result (out.new.items ≡ out.old.items ++ zone_text zone.now) }
{
    out.push(sign(zone.west))?;
    push_two_digits(out, u16::from(zone.hours))?;
    push_two_digits(out, u16::from(zone.minutes))
}

/// Appends `date-time` without its quotes.
pub(crate) fn push_date_time_text(out: &mut Vec<u8>, moment: &DateTime) -> Result<(), AllocError>
    ensures { OnOk result (out.new.items ≡ out.old.items ++ date_time_text moment.now) }
{
    push_fixed_date(out, &moment.date)?;
    out.push(b' ')?;
    push_clock(out, moment)?;
    out.push(b' ')?;
    push_zone(out, &moment.zone)?;
    Ok(())
}

/// Appends `date-time` after its first quote.
pub fn push_date_time_end(out: &mut Vec<u8>, moment: &DateTime) -> Result<(), AllocError>
    ensures { OnOk result (out.new.items ≡ out.old.items ++ date_time_end.text moment.now) }
{
    push_date_time_text(out, moment)?;
    out.push(b'"')?;
    Ok(())
}

/// Appends a moment in quotes (`date-time`), as `" 1-Feb-1994 21:52:25 -0800"`.
pub fn push_date_time(out: &mut Vec<u8>, moment: &DateTime) -> Result<(), AllocError>
    ensures { OnOk result (out.new.items ≡ out.old.items ++ date_time.text moment.now) }
{
    out.push(b'"')?;
    push_date_time_end(out, moment)
}
