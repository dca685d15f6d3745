//! Months.

ghost use Rattle.std.specs.Prelude.{◌≡◌, ◌<◌, ◌⊎◌, MatchOption};
ghost use Rattle.imap_syntax.specs.Calendar.{month_number};

use crate::cursor::Keyword;
use crate::lexical::WordChar;

/// A month of the year.
#[derive(Clone, Copy, PartialEq, Eq)]
pub enum Month {
    Jan,
    Feb,
    Mar,
    Apr,
    May,
    Jun,
    Jul,
    Aug,
    Sep,
    Oct,
    Nov,
    Dec,
}

pub(crate) const MONTHS: [Month; 12] = [
    Month::Jan,
    Month::Feb,
    Month::Mar,
    Month::Apr,
    Month::May,
    Month::Jun,
    Month::Jul,
    Month::Aug,
    Month::Sep,
    Month::Oct,
    Month::Nov,
    Month::Dec,
];

impl Keyword for Month {
    ghost use Rattle.imap_syntax.specs.Calendar.{month_name};
    ghost use Rattle.imap_syntax.specs.declared.month.TheConstants.{MONTHS};

    type Class = WordChar;

    ghost name_of = { month_name };

    ghost table = { MONTHS };

    fn name(self) -> &'static [u8] {
        match self {
            Month::Jan => b"Jan",
            Month::Feb => b"Feb",
            Month::Mar => b"Mar",
            Month::Apr => b"Apr",
            Month::May => b"May",
            Month::Jun => b"Jun",
            Month::Jul => b"Jul",
            Month::Aug => b"Aug",
            Month::Sep => b"Sep",
            Month::Oct => b"Oct",
            Month::Nov => b"Nov",
            Month::Dec => b"Dec",
        }
    }

    fn all() -> &'static [Month] {
        &MONTHS
    }
}

impl Month {
    /// Returns the number of the month, from 1 to 12.
    pub fn number(self) -> u8
        ensures { result ≡ month_number self }
    {
        match self {
            Month::Jan => 1,
            Month::Feb => 2,
            Month::Mar => 3,
            Month::Apr => 4,
            Month::May => 5,
            Month::Jun => 6,
            Month::Jul => 7,
            Month::Aug => 8,
            Month::Sep => 9,
            Month::Oct => 10,
            Month::Nov => 11,
            Month::Dec => 12,
        }
    }

    /// Returns the month with this number, from 1 to 12.
    pub(crate) fn of_number(number: u8) -> Option<Month>
        ensures { MatchOption result ((number < 1) ⊎ (12 < number)) (λ month. month_number month ≡ number) }
    {
        match number {
            1 => Some(Month::Jan),
            2 => Some(Month::Feb),
            3 => Some(Month::Mar),
            4 => Some(Month::Apr),
            5 => Some(Month::May),
            6 => Some(Month::Jun),
            7 => Some(Month::Jul),
            8 => Some(Month::Aug),
            9 => Some(Month::Sep),
            10 => Some(Month::Oct),
            11 => Some(Month::Nov),
            12 => Some(Month::Dec),
            _ => None,
        }
    }
}
