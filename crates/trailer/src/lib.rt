// The record E behind its length, held against what was counted.
#![tactic(auto)]

ghost use Rattle.std.specs.Prelude.{◌≡◌, ◌+◌, min};
ghost use Rattle.form.specs.Kind.{digits};
ghost use Rattle.form.specs.Place.{field_at, read_at};
ghost use Rattle.diskette.specs.Fields.{figure, end};
ghost use Rattle.fields.specs.Answers.{of_field, of_read, passings};
ghost use Rattle.fields.specs.Stretches.{widest};
ghost use Rattle.sums.specs.Sums.{totals_of};

use fields::{Reading, fixed, refusals};
use layout::width;
use sums::Sums;

// A number of w digits at p that is the counted one; 17 digits where w is more.
fn figure_at(s: &[u8], p: usize, w: usize, counted: u64) -> Reading<usize>
    ensures { result ≡ of_field passings p (p + min w widest) (field_at (digits (min w widest)) (figure counted) s.now p) }
{
    let (v, q) = fields::number_at(s, p, w)?;
    if v != counted {
        return Err(fields::refuse(refusals::NOT_COUNTED, p));
    }
    Ok(q)
}

// E2 to E9 at p, after so many payments that come to these sums.
pub fn end_at(s: &[u8], p: usize, count: u64, sums: Sums) -> Reading<usize>
    ensures { result ≡ of_read passings (read_at (end (totals_of count sums)) s.now p) }
{
    let e2 = fields::fixed_at(s, p, &fixed::LETTER_E);
    let Ok(p3) = e2 else {
        return e2;
    };
    let e3 = fields::blanks_at(s, p3, width::E3);
    let Ok(p4) = e3 else {
        return e3;
    };
    let e4 = figure_at(s, p4, width::E4, count);
    let Ok(p5) = e4 else {
        return e4;
    };
    let e5 = fields::zeros_at(s, p5, width::E5);
    let Ok(p6) = e5 else {
        return e5;
    };
    let e6 = figure_at(s, p6, width::E6, sums.accounts.0);
    let Ok(p7) = e6 else {
        return e6;
    };
    let e7 = figure_at(s, p7, width::E7, sums.banks.0);
    let Ok(p8) = e7 else {
        return e7;
    };
    let e8 = figure_at(s, p8, width::E8, sums.cents.0);
    let Ok(p9) = e8 else {
        return e8;
    };
    fields::blanks_at(s, p9, width::E9)
}
