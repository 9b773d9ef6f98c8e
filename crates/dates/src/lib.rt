// The two days of the header, A7 and A11b: each is read at its place, with its rules.
#![tactic(auto)]

ghost use Rattle.std.specs.Prelude.{◌≡◌, ◌+◌};
ghost use Rattle.form.specs.Kind.{digits, maybe};
ghost use Rattle.form.specs.Place.{field_at};
ghost use Rattle.diskette.specs.Fields.{rules_a7, rules_a11b};
ghost use Rattle.calendar.specs.Days.{day_of};
ghost use Rattle.fields.specs.Answers.{of_field};
ghost use Rattle.dates.specs.Dates.{days, executions};

use calendar::{DateCase, Day};
use fields::{Reading, refusals};
use layout::width;

// The day of execution, A11b: no date, or a day.
// It is no Option, since a rule of the project asks for an enum in the header: no date, or a struct with day, month and year.
#[derive(Clone, Copy)]
pub enum Execution {
    Absent,
    On(Day),
}

// The day of creation, A7, at p.
pub fn made_at(s: &[u8], p: usize) -> Reading<(Day, usize)>
    ensures { result ≡ of_field days p (p + 6) (field_at (digits 6) rules_a7 s.now p) }
{
    let (n, q) = fields::number_at(s, p, width::A7)?;
    let day = calendar::of_ddmmyy(n);
    if !calendar::is_day(day) {
        return Err(fields::refuse(refusals::NO_DATE, p));
    }
    Ok((day, q))
}

// The day of execution, A11b, at p, of a file made on the day `made`.
pub fn execution_at(s: &[u8], p: usize, made: Day) -> Reading<(Execution, usize)>
    ensures { result ≡ of_field executions p (p + 8) (field_at (maybe 8) (rules_a11b (day_of made)) s.now p) }
{
    let (date, q) = fields::maybe_number_at(s, p, width::A11B)?;
    let Some(n) = date else {
        return Ok((Execution::Absent, q));
    };
    let day = calendar::of_ddmmyyyy(n);
    match calendar::date_case(made, day) {
        DateCase::NoSuchDay => Err(fields::refuse(refusals::NO_DATE, p)),
        DateCase::TooEarly => Err(fields::refuse(refusals::TOO_EARLY, p)),
        DateCase::TooLate => Err(fields::refuse(refusals::TOO_LATE, p)),
        DateCase::InOrder => Ok((Execution::On(day), q)),
    }
}
