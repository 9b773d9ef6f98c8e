// The record that a line stands for: what A, C and E have of their own is made, and the line's fields are put between.
ghost use Rattle.std.specs.Prelude.{◌≡◌, ◌+◌, ◌-◌, ◌*◌, ◌≤◌, true, false, [], length, take, drop};
ghost use Rattle.document.specs.Marks.{most_parts};
ghost use Rattle.diskette.specs.Writing.{section, write_end};
ghost use Rattle.sums.specs.Sums.{totals_of};
ghost use Rattle.listing.specs.Lines.{tab, split};
ghost use Rattle.listing.specs.Records.{record_a, record_c, lay, fields_of_header_line, numbers_of_payment_line, fields_with};
ghost use Rattle.output.specs.Writing.{over};
ghost use Rattle.layout.specs.Lines as line;
ghost use Rattle.layout.specs.Cells.{record_of};
ghost use Rattle.line_reader.specs.Reaching.{reach};
ghost use Rattle.composer.specs.Telling.{FormedLine, behind_letter};
ghost use Rattle.composer.specs.Writing.{Layable, Writable};

use fields::fixed;
use layout::{at, line, width};
use sums::Sums;

// What A has of its own; the rest is blank. Here, in lay_header and in put_end no array type has the length: write_file lends slices of the output.
fn own_of_a(out: &mut [u8])
    requires { length out.old ≡ 128 }
    ensures { out.new ≡ lay record_a [] }
{
    output::blank(out);
    output::put(out, at::A1, &fixed::LENGTH_128, width::A1);
    output::put(out, at::A2, &fixed::LETTER_A, width::A2);
    output::put(out, at::A12, &fixed::EURO, width::A12);
}

// What a C of k parts has of its own; the rest is blank.
fn own_of_c(k: usize, out: &mut [u8])
    requires { (k ≤ most_parts) × (length out.old ≡ 128 * section k) }
    ensures { out.new ≡ lay (record_c k) [] }
{
    let parts = k as u64;
    output::blank(out);
    output::put_number(
        out,
        at::C1,
        layout::length::FIELDS_TOLD + layout::length::PART_TOLD * parts,
        width::C1,
    );
    output::put(out, at::C2, &fixed::LETTER_C, width::C2);
    output::put_number(out, at::C9, 0, width::C9);
    output::put(out, at::C17A, &fixed::EURO, width::C17A);
    output::put_number(out, at::C18, parts, width::C18);
}

// The numbers that begin the line of a C of k parts, C3 to C7b and C10 to C12. Each has its full width, so their places in the line are fixed.
// They are put one by one, so that the compiler knows the width of each.
fn put_numbers(k: usize, x: &[u8], out: &mut [u8])
    requires { Layable false k (fields_with k) x.now out.old 0 line.first × (line.texts ≤ length x.now) }
    ensures { out.new ≡ lay (record_c k) (take numbers_of_payment_line (behind_letter (split tab x.now))) }
{
    output::put(out, at::C3, &x[line::C3..line::C3_END], width::C3);
    output::put(out, at::C4, &x[line::C4..line::C4_END], width::C4);
    output::put(out, at::C5, &x[line::C5..line::C5_END], width::C5);
    output::put(out, at::C6, &x[line::C6..line::C6_END], width::C6);
    output::put(out, at::C7A, &x[line::C7A..line::C7A_END], width::C7A);
    output::put(out, at::C7B, &x[line::C7B..line::C7B_END], width::C7B);
    output::put(out, at::C10, &x[line::C10..line::C10_END], width::C10);
    output::put(out, at::C11, &x[line::C11..line::C11_END], width::C11);
    output::put(out, at::C12, &x[line::C12..line::C12_END], width::C12);
}

// The field at q of the line, into the record from p on, where it is blank; tells where the field ends. It is short, so looking for its end and
// copying it are one loop: two took a fifth more of a whole call.
fn put_field(x: &[u8], q: usize, out: &mut [u8], p: usize) -> usize
    requires { (q ≤ length x.now) × (p + reach tab (drop q x.now) ≤ length out.old) }
    ensures place { result ≡ q + reach tab (drop q x.now) }
    ensures out { out.new ≡ over p (take (result - q) (drop q x.now)) out.old }
{
    for i in q..x.len() {
        let b = x[i];
        if b == line::TAB {
            return i;
        }
        out[p + (i - q)] = b;
    }
    x.len()
}

// The fields of a line of A, or of a C of k parts, each where it stands in the record: from field `first` on, which stands at `start`, up to
// field n.
fn put_fields(head: bool, k: usize, n: usize, x: &[u8], first: usize, start: usize, out: &mut [u8])
    requires { Layable head k n x.now out.old first start }
    ensures { out.new ≡ lay (record_of head k) (behind_letter (split tab x.now)) }
{
    let mut q = start;
    for i in first..n {
        let c = layout::cell_at(head, i);
        q = put_field(x, q, out, c.place) + 1;
    }
}

// The record A of its line x.
pub(crate) fn lay_header(x: &[u8], out: &mut [u8])
    requires { FormedLine true fields_of_header_line x.now × (length out.old ≡ 128) }
    ensures { out.new ≡ lay record_a (behind_letter (split tab x.now)) }
{
    own_of_a(out);
    put_fields(true, 0, line::FIELDS_OF_A, x, 0, line::FIRST, out);
}

// The record C of a line x that tells k parts.
pub(crate) fn lay_payment(k: usize, x: &[u8], out: &mut [u8])
    requires { (k ≤ most_parts) × (FormedLine false (fields_with k) x.now × (length out.old ≡ 128 * section k)) }
    ensures { out.new ≡ lay (record_c k) (behind_letter (split tab x.now)) }
{
    own_of_c(k, out);
    put_numbers(k, x, out);
    put_fields(
        false,
        k,
        line::FIELDS_OF_C + 2 * k,
        x,
        line::NUMBERS_OF_C,
        line::TEXTS,
        out,
    );
}

// E after so many payments that come to these sums.
pub(crate) fn put_end(count: u64, sums: Sums, out: &mut [u8])
    requires { (length out.old ≡ 128) × Writable (totals_of count sums) }
    ensures { out.new ≡ write_end (totals_of count sums) }
{
    let accounts = sums.accounts;
    let banks = sums.banks;
    let cents = sums.cents;
    output::blank(out);
    output::put(out, at::E1, &fixed::LENGTH_128, width::E1);
    output::put(out, at::E2, &fixed::LETTER_E, width::E2);
    output::put_number(out, at::E4, count, width::E4);
    output::put_number(out, at::E5, 0, width::E5);
    output::put_number(out, at::E6, accounts.0, width::E6);
    output::put_number(out, at::E7, banks.0, width::E7);
    output::put_number(out, at::E8, cents.0, width::E8);
}
