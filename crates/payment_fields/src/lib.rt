// The fields of a payment that every payment has, in four stretches: C2 to C7b, C8 to C12, C13 to C16, C17a to C18.
#![tactic(auto)]

ghost use Rattle.std.specs.Prelude.{◌≡◌, ℕ, ◌+◌, ◌^◌, ◌<◌, Bool, min};
ghost use Rattle.form.specs.Kind.{digits};
ghost use Rattle.form.specs.Place.{field_at, read_at};
ghost use Rattle.document.specs.Rules.{bank_code_ok, customer_ok, not_zero, key_ok, supplement_ok};
ghost use Rattle.diskette.specs.Fields.{rules_c4, rules_c5, rules_c6, rules_c7a, rules_c7b, rules_c10, rules_c11, rules_c12, rules_c18};
ghost use Rattle.fields.specs.Answers.{of_field, of_read, passings, numbers, letters_of};
ghost use Rattle.fields.specs.Stretches.{widest};
ghost use Rattle.payment_fields.specs.Ruled.{Computes, one_rule};
ghost use Rattle.payment_fields.specs.Summed.{accounts_on, bank_codes_on, cents_on};
ghost use Rattle.payment_fields.specs.Stretches.{receiver, receivers_on, amount, amounts_on, names, part_count};

use fields::{FileKind, Reading, fixed, refusals};
use layout::{length, width};
use sums::{AccountSum, BankCodeSum, CentSum};

// The first of eight digits is neither 0 nor 9.
pub fn bank_code_ok(v: u64) -> bool
    ensures { result ≡ bank_code_ok v }
{
    let first = v / 10_000_000;
    (first != 0) & (first != 9)
}

// The first and the last of thirteen digits are 0.
pub fn customer_ok(v: u64) -> bool
    ensures { result ≡ customer_ok v }
{
    (v / 1_000_000_000_000 == 0) & (v % 10 == 0)
}

// The digits are not all 0.
fn not_zero(v: u64) -> bool
    ensures { result ≡ not_zero v }
{
    v != 0
}

// The key is one of this kind of file. Keys and supplements are no enums: the tests answer for every number.
pub fn key_ok(kind: FileKind, v: u64) -> bool
    ensures { result ≡ key_ok (letters_of kind) v }
{
    if kind.credit {
        return (v == 51) | (v == 53) | (v == 54) | (v == 56);
    }
    (v == 4) | (v == 5)
}

// The supplement is one of this key: with 54 any is.
pub fn supplement_ok(key: u64, v: u64) -> bool
    ensures { result ≡ supplement_ok key v }
{
    let plain = ((key == 4) | (key == 51) | (key == 53)) & ((v == 0) | (v == 888));
    let debit = (key == 5) & ((v == 0) | (v == 888) | (v == 5) | (v == 6) | (v == 15));
    plain | debit | ((key == 56) & (v == 0)) | (key == 54)
}

// A number of w digits at p, 17 where w is more, for which the test holds; one for which it does not is refused with this number.
#[inline(always)]
fn tested_at<F: Fn(u64) -> bool>(
    s: &[u8],
    p: usize,
    w: usize,
    number: u8,
    test: F,
) -> Reading<(u64, usize)>
    requires { (v : ℕ) → v < 10 ^ min w widest → F.pre test v }
    ensures { (holds : ℕ → Bool) → Computes (F.post test) holds → result ≡ of_field numbers p (p + min w widest) (field_at (digits (min w widest)) (one_rule number holds) s.now p) }
{
    let (v, q) = fields::number_at(s, p, w)?;
    if !test(v) {
        return Err(fields::refuse(number, p));
    }
    Ok((v, q))
}

// A bank code: C10, and C4 before it is added.
#[inline(always)]
fn bank_code_at(s: &[u8], p: usize) -> Reading<(u64, usize)>
    ensures { result ≡ of_field numbers p (p + 8) (field_at (digits 8) rules_c10 s.now p) }
{
    tested_at(s, p, width::C10, refusals::CONDITION, bank_code_ok)
}

// An account number: C11, and C5 before it is added.
#[inline(always)]
fn account_at(s: &[u8], p: usize) -> Reading<(u64, usize)>
    ensures { result ≡ of_field numbers p (p + 10) (field_at (digits 10) rules_c11 s.now p) }
{
    tested_at(s, p, width::C11, refusals::CONDITION, not_zero)
}

// C4, added to the sum of bank codes. C4, C5 and C12 have a function each: their sums are three types with an `add` each, as a rule of the project
// asks, and what is added keeps another rule in C12.
#[tactic(auto, using(crate::proofs::Steps::c4_steps))]
#[inline(always)]
fn bank_code_into(s: &[u8], p: usize, sum: BankCodeSum) -> Reading<(BankCodeSum, usize)>
    ensures { result ≡ of_field (bank_codes_on sum.0) p (p + 8) (field_at (digits 8) (rules_c4 sum.0) s.now p) }
{
    let (v, q) = bank_code_at(s, p)?;
    let total = sum
        .add(v)
        .ok_or(fields::refuse(refusals::BANK_CODES_OVER, p))?;
    Ok((total, q))
}

// C5, added to the sum of account numbers.
#[tactic(auto, using(crate::proofs::Steps::c5_steps))]
#[inline(always)]
fn account_into(s: &[u8], p: usize, sum: AccountSum) -> Reading<(AccountSum, usize)>
    ensures { result ≡ of_field (accounts_on sum.0) p (p + 10) (field_at (digits 10) (rules_c5 sum.0) s.now p) }
{
    let (v, q) = account_at(s, p)?;
    let total = sum
        .add(v)
        .ok_or(fields::refuse(refusals::ACCOUNTS_OVER, p))?;
    Ok((total, q))
}

// C6.
#[inline(always)]
fn customer_at(s: &[u8], p: usize) -> Reading<(u64, usize)>
    ensures { result ≡ of_field numbers p (p + 13) (field_at (digits 13) rules_c6 s.now p) }
{
    tested_at(s, p, width::C6, refusals::CONDITION, customer_ok)
}

// C7a.
#[inline(always)]
fn key_at(s: &[u8], p: usize, kind: FileKind) -> Reading<(u64, usize)>
    ensures { result ≡ of_field numbers p (p + 2) (field_at (digits 2) (rules_c7a (letters_of kind)) s.now p) }
{
    tested_at(s, p, width::C7A, refusals::NO_KEY, |v| key_ok(kind, v))
}

// C7b, where C7a is key.
fn supplement_at(s: &[u8], p: usize, key: u64) -> Reading<(u64, usize)>
    ensures { result ≡ of_field numbers p (p + 3) (field_at (digits 3) (rules_c7b key) s.now p) }
{
    let of_key = |v| supplement_ok(key, v);
    tested_at(s, p, width::C7B, refusals::NO_SUPPLEMENT, of_key)
}

// C12, added to the sum of cents.
#[tactic(auto, using(crate::proofs::Steps::c12_steps))]
#[inline(always)]
fn cents_into(s: &[u8], p: usize, sum: CentSum) -> Reading<(CentSum, usize)>
    ensures { result ≡ of_field (cents_on sum.0) p (p + 11) (field_at (digits 11) (rules_c12 sum.0) s.now p) }
{
    let (cents, q) = tested_at(s, p, width::C12, refusals::CONDITION, not_zero)?;
    let total = sum
        .add(cents)
        .ok_or(fields::refuse(refusals::CENTS_OVER, p))?;
    Ok((total, q))
}

// C18, where C1 tells the length l.
#[inline(always)]
fn fitting_count_at(s: &[u8], p: usize, l: u64) -> Reading<(u64, usize)>
    ensures { result ≡ of_field numbers p (p + 2) (field_at (digits 2) (rules_c18 l) s.now p) }
{
    let fits = |k| length::FIELDS_TOLD + length::PART_TOLD * k == l;
    tested_at(s, p, width::C18, refusals::CONDITION, fits)
}

// C2 to C7b: the sums with the payment's account number and bank code.
#[inline(always)]
pub fn receiver_at(
    s: &[u8],
    p: usize,
    kind: FileKind,
    accounts: AccountSum,
    banks: BankCodeSum,
) -> Reading<(AccountSum, BankCodeSum, usize)>
    ensures { result ≡ of_read (receivers_on accounts.0 banks.0) (read_at (receiver (letters_of kind) accounts.0 banks.0) s.now p) }
{
    let c2 = fields::fixed_at(s, p, &fixed::LETTER_C);
    let Ok(p3) = c2 else {
        return Err(fields::why(c2));
    };
    let c3 = fields::number_at(s, p3, width::C3);
    let Ok((_, p4)) = c3 else {
        return Err(fields::why(c3));
    };
    let c4 = bank_code_into(s, p4, banks);
    let Ok((new_banks, p5)) = c4 else {
        return Err(fields::why(c4));
    };
    let c5 = account_into(s, p5, accounts);
    let Ok((new_accounts, p6)) = c5 else {
        return Err(fields::why(c5));
    };
    let c6 = customer_at(s, p6);
    let Ok((_, p7a)) = c6 else {
        return Err(fields::why(c6));
    };
    let c7a = key_at(s, p7a, kind);
    let Ok((key, p7b)) = c7a else {
        return Err(fields::why(c7a));
    };
    let c7b = supplement_at(s, p7b, key);
    let Ok((_, p8)) = c7b else {
        return Err(fields::why(c7b));
    };
    Ok((new_accounts, new_banks, p8))
}

// C8 to C12: the sum with the payment's cents.
#[inline(always)]
pub fn amount_at(s: &[u8], p: usize, cents: CentSum) -> Reading<(CentSum, usize)>
    ensures { result ≡ of_read (amounts_on cents.0) (read_at (amount cents.0) s.now p) }
{
    let c8 = fields::blanks_at(s, p, width::C8);
    let Ok(p9) = c8 else {
        return Err(fields::why(c8));
    };
    let c9 = fields::zeros_at(s, p9, width::C9);
    let Ok(p10) = c9 else {
        return Err(fields::why(c9));
    };
    let c10 = bank_code_at(s, p10);
    let Ok((_, p11)) = c10 else {
        return Err(fields::why(c10));
    };
    let c11 = account_at(s, p11);
    let Ok((_, p12)) = c11 else {
        return Err(fields::why(c11));
    };
    cents_into(s, p12, cents)
}

// C13 to C16.
#[tactic(auto, using(crate::proofs::Steps::names_steps))]
#[inline(always)]
pub fn names_at(s: &[u8], p: usize) -> Reading<usize>
    ensures { result ≡ of_read passings (read_at names s.now p) }
{
    let c13 = fields::blanks_at(s, p, width::C13);
    let Ok(p14a) = c13 else {
        return c13;
    };
    let c14a = fields::name_at(s, p14a);
    let Ok(p14b) = c14a else {
        return c14a;
    };
    let c14b = fields::blanks_at(s, p14b, width::C14B);
    let Ok(p15) = c14b else {
        return c14b;
    };
    let c15 = fields::name_at(s, p15);
    let Ok(p16) = c15 else {
        return c15;
    };
    fields::text_at(s, p16)
}

// C17a to C18, where C1 tells the length l: the number of parts.
#[inline(always)]
pub fn part_count_at(s: &[u8], p: usize, l: u64) -> Reading<(u64, usize)>
    ensures { result ≡ of_read numbers (read_at (part_count l) s.now p) }
{
    let c17a = fields::fixed_at(s, p, &fixed::EURO);
    let Ok(p17b) = c17a else {
        return Err(fields::why(c17a));
    };
    let c17b = fields::blanks_at(s, p17b, width::C17B);
    let Ok(p18) = c17b else {
        return Err(fields::why(c17b));
    };
    fitting_count_at(s, p18, l)
}
