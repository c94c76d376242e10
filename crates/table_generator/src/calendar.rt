//! The days from 1992 to 1998, and their table.
ghost use Rattle.std.specs.Prelude.{◌≤◌, ◌<◌, length};

use crate::fields::write_numbers;
use std::io::{self, Write};

/// How many days the table has: all but the last of seven years, of which two have a leap day.
pub(crate) const DAYS: u64 = 2_556;

/// How many days there are before each year from 1992 on.
static YEARS: [u64; 7] = [0, 366, 731, 1_096, 1_461, 1_827, 2_192];

/// How many days of a year there are before each month.
static MONTHS: [u64; 12] = [0, 31, 59, 90, 120, 151, 181, 212, 243, 273, 304, 334];

/// The same in a leap year.
static LEAP_MONTHS: [u64; 12] = [0, 31, 60, 91, 121, 152, 182, 213, 244, 274, 305, 335];

/// The name of each month, and its first three letters.
static MONTH_NAMES: [(&str, &str); 12] = [
    ("January", "Jan"),
    ("February", "Feb"),
    ("March", "Mar"),
    ("April", "Apr"),
    ("May", "May"),
    ("June", "Jun"),
    ("July", "Jul"),
    ("August", "Aug"),
    ("September", "Sep"),
    ("October", "Oct"),
    ("November", "Nov"),
    ("December", "Dec"),
];

static WEEKDAYS: [&str; 7] = [
    "Sunday",
    "Monday",
    "Tuesday",
    "Wednesday",
    "Thursday",
    "Friday",
    "Saturday",
];

/// A day. Months, and days of a week from Sunday on, of a month and of a year, count from 1.
#[derive(Clone, Copy)]
struct Day {
    year: u64,
    month: u64,
    day: u64,
    of_year: u64,
    of_week: u64,
    // The week of the year, which begins on its first day.
    week: u64,
    key: u64,
    month_names: (&'static str, &'static str),
    weekday: &'static str,
}

impl Day {
    // The day after so many from the first of January 1992 on, which was a Wednesday.
    fn after(days: u64) -> Day
        requires { days < 2556 }
    {
        let (year, before_year) = last_within(&YEARS, days);
        let day_of_year = days.saturating_sub(before_year);
        let months = if year % 4 == 0 { &LEAP_MONTHS } else { &MONTHS };
        let (month, before_month) = last_within(months, day_of_year);
        let day = day_of_year.saturating_sub(before_month) + 1;
        let weekday = (days + 3) % 7;
        Day {
            year: 1992 + year as u64,
            month: month as u64 + 1,
            day,
            of_year: day_of_year + 1,
            of_week: weekday + 1,
            week: day_of_year / 7 + 1,
            key: (1992 + year as u64) * 10_000 + (month as u64 + 1) * 100 + day,
            month_names: MONTH_NAMES[month],
            weekday: WEEKDAYS[weekday as usize],
        }
    }

    fn write<W: Write>(&self, out: &mut W) -> io::Result<()> {
        let Day {
            year,
            month,
            day,
            of_year,
            of_week,
            week,
            key,
            month_names: (name, short),
            weekday,
        } = *self;
        write!(out, "{key}|{name} {day}, {year}|{weekday}|{name}|")?;
        write_numbers(out, &[year, key / 100])?;
        write!(out, "{short}{year}|")?;
        write_numbers(out, &[of_week, day, of_year, month, week])?;
        writeln!(out, "Season|0|0|0|1|")
    }
}

// The place of the last of ascending numbers that does not exceed one, and that number.
fn last_within(numbers: &[u64], most: u64) -> (usize, u64)
    requires some { 1 ≤ length numbers.now }
    ensures within { result.0 < length numbers.now }
{
    let mut found = (0, 0);
    for (place, number) in numbers.iter().enumerate() {
        if *number <= most {
            found = (place, *number);
        }
    }
    found
}

/// The key of the day after so many.
pub(crate) fn key_after(days: u64) -> u64
    requires { days < 2556 }
{
    Day::after(days).key
}

/// Writes the table of days: 2,556 of them, at every scale.
pub fn write_dates<W: Write>(out: &mut W) -> io::Result<()> {
    for days in 0..DAYS {
        Day::after(days).write(out)?;
    }
    Ok(())
}
