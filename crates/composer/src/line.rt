// A line of a listing, without its end: how many fields it has, its form, and where a field of its record stands in it; and the rest of a line
// within a listing.
ghost use Rattle.std.specs.Prelude.{◌≡◌, ◌+◌, ◌≤◌, ◌<◌, [], ◌∷◌, ◌++◌, length, take, drop};
ghost use Rattle.form.specs.Kind.{same};
ghost use Rattle.listing.specs.Lines.{tab, line_end, split, ends_in_blank};
ghost use Rattle.layout.specs.Lines as line;
ghost use Rattle.layout.specs.Cells.{letter_of, cells_of};
ghost use Rattle.line_reader.specs.Reaching.{reach};
ghost use Rattle.composer.specs.Telling.{formed_as, line_formed, FormedLine, place_in};

use layout::Cell;
use line_reader::reaching;

// In a payment's line of its form, how many fields stand ahead of the first text: the letter and the numbers, which have full width.
pub(crate) const AHEAD_OF_TEXTS: usize = 1 + layout::line::NUMBERS_OF_C;

// Where the field at q ends: at the next tab, or where the line does. Fields are short, so the tab is near.
fn field_end(x: &[u8], q: usize) -> usize
    ensures { result ≡ q + reach tab (drop q x.now) }
{
    reaching::reach_near(x, q, layout::line::TAB)
}

// How many fields the line has, its letter among them.
pub(crate) fn count_fields(x: &[u8]) -> usize
    ensures { result ≡ length (split tab x.now) }
{
    1 + x.iter().filter(|b| **b == layout::line::TAB).count()
}

// Where a line of a listing ends, and how many fields stand ahead of that from the place asked on.
#[derive(Clone, Copy)]
pub(crate) struct Rest {
    pub end: usize,
    pub fields: usize,
}

// The line from p on, in a listing where its end is still to come, so that no place is held against the listing's length. Tab and line end are
// small bytes: one comparison passes nearly all others. A `for` over the listing's places with both tests in it took a tenth more of composing.
pub(crate) fn rest_of_line(l: &[u8], p: usize) -> Rest
    requires { p + reach line_end (drop p l.now) < length l.now }
    ensures end { result.end ≡ p + reach line_end (drop p l.now) }
    ensures fields { result.fields ≡ length (split tab (take (reach line_end (drop p l.now)) (drop p l.now))) }
{
    let mut fields = 1;
    let mut i = p;
    loop {
        while l[i] > layout::line::END {
            i += 1;
        }
        if l[i] == layout::line::END {
            return Rest { end: i, fields };
        }
        if l[i] == layout::line::TAB {
            fields += 1;
        }
        i += 1;
    }
}

// Whether t ends in a blank.
fn ends_in_blank(t: &[u8]) -> bool
    ensures { result ≡ ends_in_blank t.now }
{
    let n = t.len();
    if n == 0 {
        return false;
    }
    t[n - 1] == b' '
}

// Whether t has the form of the field c: its width, and no blank at its end.
fn field_formed(c: Cell, t: &[u8]) -> bool
    ensures { result ≡ formed_as c t.now }
{
    let n = t.len();
    let wide = (n == c.width) | ((c.text & (n <= c.width)) | (c.optional & (n == 0)));
    wide & !ends_in_blank(t)
}

// Whether the line begins with the letter of A, or of C, and a tab.
fn begins(head: bool, x: &[u8]) -> bool
    ensures { result ≡ same (letter_of head ++ (tab ∷ [])) (take line.first x.now) }
{
    if x.len() < layout::line::FIRST {
        return false;
    }
    (x[0] == output::letter(head)) & (x[1] == layout::line::TAB)
}

// Whether the line has the form of A, or of a C, with n fields behind its letter.
pub(crate) fn formed(head: bool, n: usize, x: &[u8]) -> bool
    requires { (0 < n) × (n ≤ length (cells_of head)) }
    ensures { result ≡ line_formed head n (split tab x.now) }
{
    if count_fields(x) != n + 1 {
        return false;
    }
    if !begins(head, x) {
        return false;
    }
    let mut q = layout::line::FIRST;
    for i in 0..n {
        let e = field_end(x, q);
        let c = layout::cell_at(head, i);
        if !field_formed(c, &x[q..e]) {
            return false;
        }
        q = e + 1;
    }
    true
}

// Where in a line of the form of A, or of a C, the field stands that stands at place p of its record; 0 where the line does not tell that field.
// That is no Option, since `place_in` of specs/Telling.antt answers 0 there, and the refusal is then told at the line's begin.
pub(crate) fn place_of(head: bool, n: usize, x: &[u8], p: usize) -> usize
    requires { FormedLine head n x.now }
    ensures { result ≡ place_in head n (split tab x.now) p }
{
    let mut q = layout::line::FIRST;
    for i in 0..n {
        let c = layout::cell_at(head, i);
        if p == c.place {
            return q;
        }
        q = field_end(x, q) + 1;
    }
    0
}
