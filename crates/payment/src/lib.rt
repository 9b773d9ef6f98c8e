// A payment: its length, the first field after A or a C; then the stretches that every payment has, and its parts.
#![tactic(auto)]

ghost use Rattle.std.specs.Prelude.{◌≡◌, ◌+◌};
ghost use Rattle.form.specs.Kind.{digits};
ghost use Rattle.form.specs.Place.{field_at, read_at};
ghost use Rattle.diskette.specs.Fields.{is_length, first_field, payment};
ghost use Rattle.fields.specs.Answers.{of_field, of_read, numbers, letters_of};
ghost use Rattle.sums.specs.Sums.{totals_of};
ghost use Rattle.payment.specs.Adding.{payments_on};

use fields::{FileKind, Reading, refusals};
use layout::{length, width};
use sums::Sums;

// No further payment may begin after so many.
pub const MOST_PAYMENTS: u64 = 9_999_999;

// A length of C: that of the fields which every C has, and a part's for each part.
fn is_length(l: u64) -> bool
    ensures { result ≡ is_length l }
{
    if l < length::FIELDS_TOLD {
        return false;
    }
    (l <= length::MOST_TOLD) & ((l - length::FIELDS_TOLD) % length::PART_TOLD == 0)
}

// The first field after A or a C, after so many payments that come to these sums.
#[tactic(auto, using(crate::proofs::FirstFieldLaws::first_field_steps))]
pub fn length_at(s: &[u8], p: usize, count: u64, sums: Sums) -> Reading<(u64, usize)>
    ensures { result ≡ of_field numbers p (p + 4) (field_at (digits 4) (first_field (totals_of count sums)) s.now p) }
{
    let (l, q) = fields::number_at(s, p, width::C1)?;
    let ends = l == length::END_TOLD;
    let legal = (ends & (count >= 1)) | is_length(l);
    if !legal {
        return Err(fields::refuse(refusals::NO_LENGTH, p));
    }
    let counted = ends | (count < MOST_PAYMENTS);
    if !counted {
        return Err(fields::refuse(refusals::NO_MORE_PAYMENTS, p));
    }
    let summed = ends | (sums.cents.0 < sums::MOST_CENTS);
    if !summed {
        return Err(fields::refuse(refusals::CENTS_OVER, p));
    }
    Ok((l, q))
}

// C2 to the end of the payment at p, whose C1 tells the length l, in a file of this kind, after payments that come to these sums: the sums with it.
pub fn payment_at(s: &[u8], p: usize, kind: FileKind, sums: Sums, l: u64) -> Reading<(Sums, usize)>
    ensures { result ≡ of_read (payments_on sums) (read_at (payment (letters_of kind) (totals_of 0 sums) l) s.now p) }
{
    // Each record reader takes the field's answer apart by `let .. else` and returns the refusal at once: a rule of the project.
    let receiver = payment_fields::receiver_at(s, p, kind, sums.accounts, sums.banks);
    let Ok((accounts, banks, p8)) = receiver else {
        return Err(fields::why(receiver));
    };
    let amount = payment_fields::amount_at(s, p8, sums.cents);
    let Ok((cents, p13)) = amount else {
        return Err(fields::why(amount));
    };
    let names = payment_fields::names_at(s, p13);
    let Ok(p17a) = names else {
        return Err(fields::why(names));
    };
    let count = payment_fields::part_count_at(s, p17a, l);
    let Ok((k, first)) = count else {
        return Err(fields::why(count));
    };
    let parts = parts::read_parts(s, first, k);
    let Ok(end) = parts else {
        return Err(fields::why(parts));
    };
    Ok((
        Sums {
            accounts,
            banks,
            cents,
        },
        end,
    ))
}
