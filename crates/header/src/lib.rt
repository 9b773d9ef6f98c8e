// The record A, the header: its fields at a place of the file, in two stretches, A1 to A7 and A8 to A12.
#![tactic(auto)]

ghost use Rattle.std.specs.Prelude.{◌≡◌, ◌+◌};
ghost use Rattle.form.specs.Kind.{digits};
ghost use Rattle.form.specs.Place.{field_at, read_at};
ghost use Rattle.diskette.specs.Fields.{rules_a5, header};
ghost use Rattle.calendar.specs.Days.{day_of};
ghost use Rattle.fields.specs.Answers.{of_field, of_read, numbers, letters_of};
ghost use Rattle.header.specs.Heading.{opening, openings, order, orders, headers};

use calendar::Day;
use dates::Execution;
use fields::{FileKind, Reading, fixed, refusals};
use layout::width;

// What A tells, as far as the code keeps it: its text, A6, stays in the file.
#[derive(Clone, Copy)]
pub struct Header {
    pub kind: FileKind,
    pub bank_code: u64,
    pub sending_bank: u64,
    pub made: Day,
    pub account: u64,
    pub reference: u64,
    pub execution: Execution,
}

// What A1 to A7 tell: the kind of file, the receiving and the sending bank, the day of creation.
#[derive(Clone, Copy)]
struct Opening {
    kind: FileKind,
    bank_code: u64,
    sending_bank: u64,
    made: Day,
}

// What A8 to A12 tell: the account, the reference, the day of execution.
#[derive(Clone, Copy)]
struct Order {
    account: u64,
    reference: u64,
    execution: Execution,
}

// The sending bank, A5, at p: all zero in the file of a customer.
fn sending_bank_at(s: &[u8], p: usize, kind: FileKind) -> Reading<(u64, usize)>
    ensures { result ≡ of_field numbers p (p + 8) (field_at (digits 8) (rules_a5 (letters_of kind)) s.now p) }
{
    let (v, q) = fields::number_at(s, p, width::A5)?;
    if kind.customer & (v != 0) {
        return Err(fields::refuse(refusals::CONDITION, p));
    }
    Ok((v, q))
}

// A1 to A7 at p.
#[tactic(auto, using(crate::proofs::Steps::opening_steps))]
fn opening_at(s: &[u8], p: usize) -> Reading<(Opening, usize)>
    ensures { result ≡ of_read openings (read_at opening s.now p) }
{
    let a1 = fields::fixed_at(s, p, &fixed::LENGTH_128);
    let Ok(p2) = a1 else {
        return Err(fields::why(a1));
    };
    let a2 = fields::fixed_at(s, p2, &fixed::LETTER_A);
    let Ok(p3) = a2 else {
        return Err(fields::why(a2));
    };
    let a3 = fields::kind_at(s, p3);
    let Ok((kind, p4)) = a3 else {
        return Err(fields::why(a3));
    };
    let a4 = fields::number_at(s, p4, width::A4);
    let Ok((bank_code, p5)) = a4 else {
        return Err(fields::why(a4));
    };
    let a5 = sending_bank_at(s, p5, kind);
    let Ok((sending_bank, p6)) = a5 else {
        return Err(fields::why(a5));
    };
    let a6 = fields::text_at(s, p6);
    let Ok(p7) = a6 else {
        return Err(fields::why(a6));
    };
    let a7 = dates::made_at(s, p7);
    let Ok((made, p8)) = a7 else {
        return Err(fields::why(a7));
    };
    Ok((
        Opening {
            kind,
            bank_code,
            sending_bank,
            made,
        },
        p8,
    ))
}

// A8 to A12 at p, of a file made on the day `made`.
#[tactic(auto, using(crate::proofs::Steps::order_steps))]
fn order_at(s: &[u8], p: usize, made: Day) -> Reading<(Order, usize)>
    ensures { result ≡ of_read orders (read_at (order (day_of made)) s.now p) }
{
    let a8 = fields::blanks_at(s, p, width::A8);
    let Ok(p9) = a8 else {
        return Err(fields::why(a8));
    };
    let a9 = fields::number_at(s, p9, width::A9);
    let Ok((account, p10)) = a9 else {
        return Err(fields::why(a9));
    };
    let a10 = fields::number_at(s, p10, width::A10);
    let Ok((reference, p11a)) = a10 else {
        return Err(fields::why(a10));
    };
    let a11a = fields::blanks_at(s, p11a, width::A11A);
    let Ok(p11b) = a11a else {
        return Err(fields::why(a11a));
    };
    let a11b = dates::execution_at(s, p11b, made);
    let Ok((execution, p11c)) = a11b else {
        return Err(fields::why(a11b));
    };
    let a11c = fields::blanks_at(s, p11c, width::A11C);
    let Ok(p12) = a11c else {
        return Err(fields::why(a11c));
    };
    let a12 = fields::fixed_at(s, p12, &fixed::EURO);
    let Ok(q) = a12 else {
        return Err(fields::why(a12));
    };
    Ok((
        Order {
            account,
            reference,
            execution,
        },
        q,
    ))
}

// A at p.
#[tactic(auto, using(crate::proofs::Steps::header_steps))]
pub fn header_at(s: &[u8], p: usize) -> Reading<(Header, usize)>
    ensures { result ≡ of_read headers (read_at header s.now p) }
{
    let a = opening_at(s, p);
    let Ok((opening, p8)) = a else {
        return Err(fields::why(a));
    };
    let b = order_at(s, p8, opening.made);
    let Ok((order, q)) = b else {
        return Err(fields::why(b));
    };
    // Header's fields are public and told in one row (`headers`), so the two stretches are not kept as two structs in it.
    Ok((
        Header {
            kind: opening.kind,
            bank_code: opening.bank_code,
            sending_bank: opening.sending_bank,
            made: opening.made,
            account: order.account,
            reference: order.reference,
            execution: order.execution,
        },
        q,
    ))
}
