// Days in narrow numbers: which days there are, how they are counted, what a date of execution can be, and the days that DDMMYY and DDMMYYYY name.
#![tactic(auto)]

ghost use Rattle.std.specs.Prelude.{◌≡◌, ◌&&◌, leb, ◌-◌, ◌%◌, ◌^◌};
ghost use Rattle.document.specs.Calendar.{leap, month_days, is_day, years_days, months_days, day_number, date_case, century, of_ddmmyy, of_ddmmyyyy};
ghost use Rattle.calendar.specs.Days.{day_of, day_from, case_from};

// A day as the code holds it: narrow numbers, so that counting its days cannot wrap.
#[derive(Clone, Copy)]
pub struct Day {
    pub day: u8,
    pub month: u8,
    pub year: u16,
}

// What a date of execution can be. In order is one case of four, as in the rules' definition, and no content beside three errors.
#[derive(Clone, Copy)]
pub enum DateCase {
    InOrder,
    NoSuchDay,
    TooEarly,
    TooLate,
}

fn is_leap(year: u16) -> bool
    ensures { result ≡ leap year }
{
    year % 4 == 0 && (year % 100 != 0 || year % 400 == 0)
}

#[tactic(auto, unfolding(document::specs::Calendar::month_days, document::specs::Calendar::leap_day))]
fn month_days(year: u16, month: u8) -> u8
    ensures { result ≡ month_days year month }
{
    match month {
        2 if is_leap(year) => 29,
        2 => 28,
        4 | 6 | 9 | 11 => 30,
        _ => 31,
    }
}

#[tactic(auto, unfolding(document::specs::Calendar::is_day))]
pub fn is_day(d: Day) -> bool
    ensures { result ≡ is_day (day_of d) }
{
    (1..=9999).contains(&d.year)
        && (1..=12).contains(&d.month)
        && (1..=month_days(d.year, d.month)).contains(&d.day)
}

// The days of the years from 1 to `years`.
#[tactic(auto, unfolding(document::specs::Calendar::years_days))]
fn years_days(years: u16) -> u64
    ensures { result ≡ years_days years }
{
    let y = u64::from(years);
    365 * y + y / 4 - y / 100 + y / 400
}

// The days of the months from 1 to `months`.
#[tactic(auto, using(document::proofs::CalendarLaws::month_most, crate::proofs::Laws::months_most), unfolding(document::specs::Calendar::months_days))]
fn months_days(year: u16, months: u8) -> u64
    ensures { result ≡ months_days year months }
{
    let mut days = 0;
    for month in 1..=months {
        days += u64::from(month_days(year, month));
    }
    days
}

// 1 for the first day of the year 1, and one more each day. What is before the year 0 and the month 0 is 0 too.
#[tactic(auto, using(crate::proofs::Laws::years_most, crate::proofs::Laws::months_most), unfolding(document::specs::Calendar::day_number))]
fn day_number(d: Day) -> u64
    ensures { result ≡ day_number (day_of d) }
{
    let years = years_days(d.year.saturating_sub(1));
    let months = months_days(d.year, d.month.saturating_sub(1));
    years + months + u64::from(d.day)
}

// What the date d of execution is, of a file made on the day `made`.
#[tactic(auto, using(crate::proofs::Laws::number_most), unfolding(document::specs::Calendar::date_case, document::specs::Calendar::not_too_early, document::specs::Calendar::not_too_late))]
pub fn date_case(made: Day, d: Day) -> DateCase
    ensures { result ≡ case_from (date_case (day_of made) (day_of d)) }
{
    if !is_day(d) {
        return DateCase::NoSuchDay;
    }
    let first = day_number(made);
    let day = day_number(d);
    if day < first {
        return DateCase::TooEarly;
    }
    if day > first + 15 {
        return DateCase::TooLate;
    }
    DateCase::InOrder
}

// The year that the last two digits of n mean.
fn full_year(n: u64) -> u16
    ensures { result ≡ century (n % 100) }
{
    let yy = (n % 100) as u16;
    if yy < 80 {
        return 2000 + yy;
    }
    1900 + yy
}

// The day that the last six digits of n name.
#[tactic(auto, unfolding(document::specs::Calendar::of_ddmmyy))]
pub fn of_ddmmyy(n: u64) -> Day
    ensures { result ≡ day_from (of_ddmmyy (n % 10 ^ 6)) }
{
    let date = n % 1_000_000;
    Day {
        day: (date / 10_000) as u8,
        month: (date / 100 % 100) as u8,
        year: full_year(date),
    }
}

// The day that the last eight digits of n name.
#[tactic(auto, unfolding(document::specs::Calendar::of_ddmmyyyy))]
pub fn of_ddmmyyyy(n: u64) -> Day
    ensures { result ≡ day_from (of_ddmmyyyy (n % 10 ^ 8)) }
{
    let date = n % 100_000_000;
    Day {
        day: (date / 1_000_000) as u8,
        month: (date / 10_000 % 100) as u8,
        year: (date % 10_000) as u16,
    }
}
