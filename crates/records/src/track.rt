// The numbers of a race day that several kinds share.
ghost use Rattle.std.specs.Prelude.{◌≡◌};
ghost use Rattle.records.specs.Track.{valid_course, valid_day, valid_race};

use crate::numbers::within;

const LAST_COURSE: u64 = 999;

const LAST_DAY: u64 = 365;

const LAST_RACE: u64 = 12;

pub(crate) fn valid_course(course: u64) -> bool
    ensures { result ≡ valid_course course }
{
    within(course, 1, LAST_COURSE)
}

// A day of the year.
pub(crate) fn valid_day(day: u64) -> bool
    ensures { result ≡ valid_day day }
{
    within(day, 1, LAST_DAY)
}

pub(crate) fn valid_race(race: u8) -> bool
    ensures { result ≡ valid_race race }
{
    within(race.into(), 1, LAST_RACE)
}
