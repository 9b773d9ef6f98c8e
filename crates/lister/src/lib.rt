// Listing: the file is checked, then the room in the output, and only then is a byte written.
#![tactic(auto)]

ghost use Rattle.std.specs.Prelude.{◌≡◌, ◌+◌, ◌≤◌, ◌<◌, true, false, [], ◌∷◌, length, take, drop, leb};
ghost use Rattle.verdict.specs.Lent.{filled};
ghost use Rattle.document.specs.Marks.{most_parts};
ghost use Rattle.diskette.specs.Answer.{answer};
ghost use Rattle.listing.specs.Lines.{tab, trim};
ghost use Rattle.listing.specs.Records.{fields_of_header_line, fields_with};
ghost use Rattle.listing.specs.Endings.{listed, within, written};
ghost use Rattle.output.specs.Writing.{written_of};
ghost use Rattle.layout.specs.Cells.{cell_at};
ghost use Rattle.lister.specs.Printing.{line_at, Lies, Formed, FieldLies, printed_field, NumbersLie, numbers_at, PartLies, part_at, AcceptedFile, HasRoom, Wrote};

use fields::refusals;
use layout::{length, line, width};
use output::Written;

// How many bytes of t there are without its trailing blanks.
fn trimmed(t: &[u8]) -> usize
    ensures { result ≡ length (trim t.now) }
{
    match t.iter().rposition(|b| *b != b' ') {
        Some(last) => last + 1,
        None => 0,
    }
}

// The length of the line of the record at p, A or a C, with n fields behind its letter.
fn line_length(head: bool, n: usize, s: &[u8], p: usize) -> usize
    requires { Lies head n s.now p }
    ensures { result ≡ length (line_at head n s.now p) }
{
    // The letter and the line's end.
    let mut length = 2;
    for i in 0..n {
        let c = layout::cell_at(head, i);
        let a = p + c.place;
        length += 1 + trimmed(&s[a..a + c.width]);
    }
    length
}

// Where in a lent output the next byte is printed.
#[derive(Drop)]
struct Pen<'a> {
    out: &'a mut [u8],
    at: usize,
}

impl Pen<'_> {
    // Prints a byte.
    fn put(&mut self, b: u8)
        requires { HasRoom (b ∷ []) self.old }
        ensures { Wrote (b ∷ []) self.old self.new }
    {
        self.out[self.at] = b;
        self.at += 1;
    }

    // Prints a tab and the bytes of t.
    fn put_behind_tab(&mut self, t: &[u8])
        requires { HasRoom (tab ∷ t.now) self.old }
        ensures { Wrote (tab ∷ t.now) self.old self.new }
    {
        self.put(line::TAB);
        output::copy(self.out, self.at, t);
        self.at += t.len();
    }

    // Prints a tab and the field of w bytes at a, without its trailing blanks.
    fn put_trimmed(&mut self, s: &[u8], a: usize, w: usize)
        requires { (a + w ≤ length s.now) × HasRoom (tab ∷ trim (take w (drop a s.now))) self.old }
        ensures { Wrote (tab ∷ trim (take w (drop a s.now))) self.old self.new }
    {
        let n = trimmed(&s[a..a + w]);
        self.put_behind_tab(&s[a..a + n]);
    }

    // Prints a tab and field i of the record at p, without its trailing blanks.
    fn put_field(&mut self, head: bool, i: usize, s: &[u8], p: usize)
        requires { FieldLies head i s.now p × HasRoom (tab ∷ printed_field head i s.now p) self.old }
        ensures { Wrote (tab ∷ printed_field head i s.now p) self.old self.new }
    {
        let c = layout::cell_at(head, i);
        self.put_trimmed(s, p + c.place, c.width);
    }

    // Prints a tab and field i of the payment at p. The field is a number and stands there in full width, so that no blank is looked for.
    fn put_number(&mut self, i: usize, s: &[u8], p: usize)
        requires { FieldLies false i s.now p × (length (printed_field false i s.now p) ≡ (cell_at false i).width) × HasRoom (tab ∷ printed_field false i s.now p) self.old }
        ensures { Wrote (tab ∷ printed_field false i s.now p) self.old self.new }
    {
        let c = layout::cell_at(false, i);
        let a = p + c.place;
        self.put_behind_tab(&s[a..a + c.width]);
    }

    // Prints the line of A.
    fn put_header(&mut self, s: &[u8])
        requires { Lies true fields_of_header_line s.now 0 × HasRoom (line_at true fields_of_header_line s.now 0) self.old }
        ensures { Wrote (line_at true fields_of_header_line s.now 0) self.old self.new }
    {
        self.put(output::letter(true));
        for i in 0..line::FIELDS_OF_A {
            self.put_field(true, i, s, 0);
        }
        self.put(line::END);
    }

    // Prints the numbers that the line of a payment begins with, `line::NUMBERS_OF_C` of them.
    fn put_numbers(&mut self, s: &[u8], p: usize)
        requires { NumbersLie s.now p × HasRoom (numbers_at s.now p) self.old }
        ensures { Wrote (numbers_at s.now p) self.old self.new }
    {
        for i in 0..line::NUMBERS_OF_C {
            self.put_number(i, s, p);
        }
    }

    // Prints mark and text of a part of the payment at p, each behind a tab. All parts have the same widths.
    fn put_part(&mut self, part: usize, s: &[u8], p: usize)
        requires { (part < most_parts) × PartLies part s.now p × HasRoom (part_at part s.now p) self.old }
        ensures { Wrote (part_at part s.now p) self.old self.new }
    {
        let c = layout::cell_at(false, line::FIELDS_OF_C + 2 * part);
        let a = p + c.place;
        self.put_behind_tab(&s[a..a + width::MARK]);
        self.put_trimmed(s, a + width::MARK, width::TEXT);
    }

    // Prints the line of the payment at p, of k parts.
    fn put_payment(&mut self, k: usize, s: &[u8], p: usize)
        requires { Lies false (fields_with k) s.now p × Formed false (fields_with k) s.now p × HasRoom (line_at false (fields_with k) s.now p) self.old }
        ensures { Wrote (line_at false (fields_with k) s.now p) self.old self.new }
    {
        self.put(output::letter(false));
        self.put_numbers(s, p);
        for i in line::NUMBERS_OF_C..line::FIELDS_OF_C {
            self.put_field(false, i, s, p);
        }
        for part in 0..k {
            self.put_part(part, s, p);
        }
        self.put(line::END);
    }
}

// The length of the listing of an accepted file of n payments. That it is one is a named fact of three steps of `list`, and no type: it holds for what
// `check` has just told of these very bytes.
fn listing_length(s: &[u8], n: usize) -> usize
    requires { AcceptedFile n s.now }
    ensures { result ≡ length (written (listed (answer s.now))) }
{
    let mut total = line_length(true, line::FIELDS_OF_A, s, 0);
    let mut p = length::A;
    // Where the next payment stands hangs on C18 of this one: the range counts them.
    for _row in 0..n {
        let k = parts::count_at(s, p);
        total += line_length(false, line::FIELDS_OF_C + 2 * k, s, p);
        p += layout::bytes_of(k);
    }
    total
}

// Whether an output of `room` bytes has room for the listing of an accepted file of n payments.
fn has_room(s: &[u8], n: usize, room: usize) -> bool
    requires { AcceptedFile n s.now }
    ensures { result ≡ leb (length (written (listed (answer s.now)))) room }
{
    // No listing is longer than its file, so that lines are measured only where the output is shorter.
    if s.len() <= room {
        return true;
    }
    listing_length(s, n) <= room
}

// Prints the listing of an accepted file of n payments from the start of the output on, and tells its length.
fn print_listing(s: &[u8], n: usize, out: &mut [u8]) -> usize
    requires { AcceptedFile n s.now × (length (written (listed (answer s.now))) ≤ length out.old) }
    ensures length { result ≡ length (written (listed (answer s.now))) }
    ensures out { out.new ≡ filled (written (listed (answer s.now))) out.old }
{
    let mut pen = Pen { out, at: 0 };
    pen.put_header(s);
    let mut p = length::A;
    // Where the next payment stands hangs on C18 of this one: the range counts them.
    for _row in 0..n {
        let k = parts::count_at(s, p);
        pen.put_payment(k, s, p);
        p += layout::bytes_of(k);
    }
    pen.at
}

// Lists a file: one line for A, one for each payment. What a refused call is lent it leaves as it was.
pub fn list(s: &[u8], out: &mut [u8]) -> Written
    ensures answer { result ≡ written_of (within (length out.old) (listed (answer s.now))) }
    ensures out { out.new ≡ filled (written (within (length out.old) (listed (answer s.now)))) out.old }
{
    let checked = checker::check(s);
    if checked.verdict.number != 0 {
        return output::refused(checked.verdict);
    }
    let n = checked.count as usize;
    if !has_room(s, n, out.len()) {
        return output::refused(verdict::refuse(refusals::NO_ROOM, 0));
    }
    let length = print_listing(s, n, out);
    Written {
        verdict: verdict::ACCEPTED,
        length,
    }
}
