//! A moment, in text.

use jiff_core::civil::Date;
use std::fmt::{self, Display, Formatter};
use std::time::{Clock, SystemTime, UNIX_EPOCH};

/// The seconds of a day.
const DAY: u64 = 86_400;

/// A moment, in whole seconds since 1970. It prints as `2026-11-28T03:44:52Z`.
#[derive(Clone, Copy, Debug)]
pub(crate) struct Moment {
    seconds: u64,
}

impl Moment {
    /// Now; the first moment of 1970 where there is no clock.
    pub(crate) fn now<C: Clock>(clock: &C) -> Moment {
        let seconds = match SystemTime::now(clock) {
            Ok(now) => match now.duration_since(UNIX_EPOCH) {
                Ok(since) => since.as_secs(),
                Err(_) => 0,
            },
            Err(_) => 0,
        };
        Moment { seconds }
    }

    /// The whole seconds since 1970.
    pub(crate) fn seconds(self) -> u64 {
        self.seconds
    }
}

impl Display for Moment {
    fn fmt<W: fmt::Write>(&self, f: &mut Formatter<W>) -> fmt::Result {
        let days = self.seconds / DAY;
        let second = self.seconds % DAY;
        let (hour, minute, second) = (second / 3600, second / 60 % 60, second % 60);
        let Ok(date) = Date::from_unix_epoch_day(days as i64) else {
            return Err(fmt::Error);
        };
        let Date {
            year,
            month,
            day,
            ..
        } = date;
        write!(
            f,
            "{year:04}-{month:02}-{day:02}T{hour:02}:{minute:02}:{second:02}Z"
        )
    }
}
