//! The moments of steps.

ghost use Rattle.std.specs.Prelude.{◌≡◌, ◌<◌, MatchOption};
ghost use Rattle.imap_syntax.specs.DayNumbers.{IsMomentAt, max_moment};

use imap_syntax::DateTime;
use imap_values::Same;
use std::marker::Model;

/// A moment from 1970 to the year 9999. In contracts it is its date and time at `+0000`.
#[derive(Clone, Copy)]
pub struct Moment {
    date_time: DateTime,
}

impl Model for Moment {
    ghost use Rattle.imap_answer.specs.Moment.{IsMoment};
    ghost use Rattle.imap_syntax.specs.Moments as specs;

    ghost Value = { specs.Moment };

    ghost view = { λ m. m.date_time };

    ghost invariant = { λ m. IsMoment m.date_time };

    ghost inverse = { λ t. record { date_time = t } };
}

impl Moment {
    /// The beginning of 1-Jan-1970 in UTC.
    pub fn epoch() -> Moment
        ensures { IsMomentAt 0 result }
    {
        match Moment::from_seconds(0) {
            Some(moment) => moment,
            None => unreachable!(),
        }
    }

    /// The moment `seconds` after the beginning of 1-Jan-1970 in UTC, or `None` if it is after the year 9999.
    pub fn from_seconds(seconds: u64) -> Option<Moment>
        ensures { MatchOption result (max_moment < seconds) (IsMomentAt seconds) }
    {
        let date_time = DateTime::of_moment(seconds)?;
        Some(Moment { date_time })
    }

    /// The date and time at `+0000`.
    pub fn date_time(self) -> DateTime
        ensures { result ≡ self }
    {
        self.date_time
    }
}

impl Same for Moment {
    fn is_same(&self, other: &Moment) -> bool {
        self.date_time.is_same(&other.date_time)
    }
}
