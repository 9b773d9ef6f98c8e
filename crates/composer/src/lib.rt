// Composing: the listing is checked whole, then the room in the output, and only then is a byte written.
#![tactic(auto)]

ghost use Rattle.std.specs.Prelude.{◌≡◌, ◌+◌, ◌*◌, ◌≤◌, ◌<◌, ◌^◌, length, drop};
ghost use Rattle.form.specs.Place.{read_at};
ghost use Rattle.verdict.specs.Lent.{filled};
ghost use Rattle.document.specs.Values.{no_totals};
ghost use Rattle.diskette.specs.Writing.{section, write_payments};
ghost use Rattle.fields.specs.Answers.{refusal_of, of_read, letters_of};
ghost use Rattle.payment.specs.Adding.{payments_on};
ghost use Rattle.sums.specs.Sums.{totals_of};
ghost use Rattle.listing.specs.Lines.{tab, line_end, split};
ghost use Rattle.listing.specs.Records.{record_c, parts_of, lay};
ghost use Rattle.listing.specs.Composing.{whole_payment, compose_header, compose_payment, compose_payments, compose};
ghost use Rattle.listing.specs.Endings.{composed, within, written};
ghost use Rattle.output.specs.Writing.{over, written_of};
ghost use Rattle.composer.specs.Telling.{FormedLine, PaymentLine, behind_letter, lines_parts, place_in, head_told, payment_told, LineTold, payments_told, listing_told};
ghost use Rattle.composer.specs.Writing.{composed_payments, AcceptedListing, Ready};

use fields::{FileKind, Reading, Refusal, refusals};
use line_reader::SeenLine;
use output::Written;
use sums::Sums;

mod line;
mod record;

// The bytes of A and E together.
const A_AND_E: usize = layout::length::A + layout::length::E;

// The fields of a payment's line that tells no part, its letter among them.
const FEWEST_FIELDS: usize = 1 + layout::line::FIELDS_OF_C;

// What the payments of a listing come to, and how many bytes they take in the file.
#[derive(Clone, Copy)]
struct Listed {
    count: u64,
    sums: Sums,
    size: usize,
}

// The refusal of a field of the record of a line that begins at p: the field's own place in the line.
// No struct carries (head, n, x) with its form: lay_header and lay_payment would ask which head and n it has, where they now ask for the form.
fn refused_in(head: bool, n: usize, x: &[u8], p: usize, why: Refusal) -> Refusal
    requires { FormedLine head n x.now × (p + length x.now + 1 < 2 ^ 64) }
    ensures { result ≡ refusal_of why.number (p + place_in head n (split tab x.now) why.place) }
{
    let place = line::place_of(head, n, x, why.place);
    fields::refuse(why.number, p + place)
}

// The line x of A, with which the listing begins: its kind of file.
fn header_line(x: &[u8]) -> Reading<FileKind>
    ensures { result ≡ head_told (compose_header (split tab x.now)) }
{
    if !line::formed(true, layout::line::FIELDS_OF_A, x) {
        return Err(fields::refuse(refusals::NO_LINE, 0));
    }
    let mut laid = [b' '; layout::length::A];
    record::lay_header(x, &mut laid);
    match header::header_at(&laid, 0) {
        Ok((header, _)) => Ok(header.kind),
        Err(why) => Err(refused_in(true, layout::line::FIELDS_OF_A, x, 0, why)),
    }
}

// How many parts a C line tells that has so many fields, its letter among them.
fn parts_of(fields: usize) -> usize
    ensures { result ≡ parts_of fields }
{
    (fields.saturating_sub(FEWEST_FIELDS) / 2).min(layout::length::MOST_PARTS)
}

// The record C with its length, after so many payments that come to these sums: whether it may begin, and its fields.
fn payment_record(c: &[u8], kind: FileKind, count: u64, sums: Sums) -> Reading<(Sums, usize)>
    ensures { result ≡ of_read (payments_on sums) (read_at (whole_payment (letters_of kind) (totals_of count sums)) c.now 0) }
{
    let (l, q) = payment::length_at(c, 0, count, sums)?;
    payment::payment_at(c, q, kind, sums, l)
}

// The line x of a payment, which begins at p, after so many payments that come to these sums: the sums with it, and its bytes in the file. Its
// record is laid out in `space`.
fn payment_line(
    x: &[u8],
    p: usize,
    kind: FileKind,
    count: u64,
    sums: Sums,
    space: &mut [u8; layout::length::LONGEST_C],
) -> Reading<(Sums, usize)>
    requires { p + length x.now + 1 < 2 ^ 64 }
    ensures { result ≡ payment_told sums (compose_payment (letters_of kind) (totals_of count sums) p (split tab x.now)) }
{
    let k = parts_of(line::count_fields(x));
    let n = layout::line::FIELDS_OF_C + 2 * k;
    if !line::formed(false, n, x) {
        return Err(fields::refuse(refusals::NO_LINE, p));
    }
    let bytes = layout::bytes_of(k);
    record::lay_payment(k, x, &mut space[..bytes]);
    match payment_record(&space[..bytes], kind, count, sums) {
        Ok((new_sums, _)) => Ok((new_sums, bytes)),
        Err(why) => Err(refused_in(false, n, x, p, why)),
    }
}

// The line that begins at p, after so many payments that come to these sums; none where no line ends there. A line that is in order is read in one
// walk; any other is told of with the help of its record, which is laid out in `space`.
fn line_at(
    l: &[u8],
    p: usize,
    kind: FileKind,
    count: u64,
    sums: Sums,
    space: &mut [u8; layout::length::LONGEST_C],
) -> Reading<Option<SeenLine>>
    requires { p ≤ length l.now }
    ensures { LineTold l.now p (letters_of kind) (totals_of count sums) sums result }
{
    let seen = line_reader::read_line(l, p, kind, count, sums);
    if let Some(line) = seen {
        return Ok(Some(line));
    }
    let e = line_reader::reaching::reach(l, p, layout::line::END);
    if e == l.len() {
        return Ok(None);
    }
    let (new_sums, bytes) = payment_line(&l[p..e], p, kind, count, sums, space)?;
    Ok(Some(SeenLine {
        sums: new_sums,
        bytes,
        next: e + 1,
    }))
}

// The payments' lines from `start` on, in a file of this kind. Records are laid out in `space`.
fn read_payments(
    l: &[u8],
    start: usize,
    kind: FileKind,
    space: &mut [u8; layout::length::LONGEST_C],
) -> Reading<Listed>
    requires { start ≤ length l.now }
    ensures { result ≡ payments_told no_totals 0 (compose_payments (letters_of kind) no_totals start (split line_end (drop start l.now))) }
{
    let mut p = start;
    let mut count: u64 = 0;
    let mut sums = sums::NO_SUMS;
    let mut size = 0;
    while let Some(line) = line_at(l, p, kind, count, sums, space)? {
        sums = line.sums;
        count += 1;
        size += line.bytes;
        p = line.next;
    }
    if p < l.len() {
        return Err(fields::refuse(refusals::NO_LINE, p));
    }
    if count == 0 {
        return Err(fields::refuse(refusals::ENDS_EARLY, p));
    }
    Ok(Listed { count, sums, size })
}

// What is told of the whole listing: its refusal, or what its payments come to.
fn read_listing(l: &[u8]) -> Reading<Listed>
    ensures { result ≡ listing_told (compose l.now) }
{
    let e = line_reader::reaching::reach(l, 0, layout::line::END);
    if e == l.len() {
        if e == 0 {
            return Err(fields::refuse(refusals::ENDS_EARLY, 0));
        }
        return Err(fields::refuse(refusals::NO_LINE, 0));
    }
    let kind = header_line(&l[..e])?;
    let mut space = [b' '; layout::length::LONGEST_C];
    read_payments(l, e + 1, kind, &mut space)
}

// Writes a payment from its line x of so many fields, into the output from `at` on, and tells the place behind it.
fn write_payment(x: &[u8], fields: usize, out: &mut [u8], at: usize) -> usize
    requires { PaymentLine x.now × ((fields ≡ length (split tab x.now)) × (at + 128 * section (lines_parts x.now) ≤ length out.old)) }
    ensures place { result ≡ at + 128 * section (lines_parts x.now) }
    ensures out { out.new ≡ over at (lay (record_c (lines_parts x.now)) (behind_letter (split tab x.now))) out.old }
{
    let k = parts_of(fields);
    let end = at + layout::bytes_of(k);
    record::lay_payment(k, x, &mut out[at..end]);
    end
}

// Writes the records of all payments of a listing that has been accepted, whose lines begin at `start`, and tells the place behind them.
fn write_payments(l: &[u8], start: usize, count: u64, out: &mut [u8]) -> usize
    requires { AcceptedListing l.now start count (length out.old) }
    ensures place { result ≡ 128 + length (write_payments (composed_payments (compose l.now))) }
    ensures out { out.new ≡ over 128 (write_payments (composed_payments (compose l.now))) out.old }
{
    let mut p = start;
    let mut at = layout::length::A;
    // Where a line begins, and where its record goes, hangs on the lines before it, so the range counts the payments alone.
    for _row in 0..count {
        let texts = line::rest_of_line(l, p + layout::line::TEXTS);
        let e = texts.end;
        at = write_payment(&l[p..e], line::AHEAD_OF_TEXTS + texts.fields, out, at);
        p = e + 1;
    }
    at
}

// Writes the file of a listing that has been accepted, whose payments come to these sums.
fn write_file(l: &[u8], count: u64, sums: Sums, out: &mut [u8])
    requires { Ready l.now (totals_of count sums) (length out.old) }
    ensures { out.new ≡ filled (written (composed (compose l.now))) out.old }
{
    let e = line_reader::reaching::reach(l, 0, layout::line::END);
    record::lay_header(&l[..e], &mut out[..layout::length::A]);
    let end = write_payments(l, e + 1, count, out);
    record::put_end(count, sums, &mut out[end..end + layout::length::E]);
}

// Composes the file of a listing. What a refused call is lent it leaves as it was.
pub fn compose(l: &[u8], out: &mut [u8]) -> Written
    ensures answer { result ≡ written_of (within (length out.old) (composed (compose l.now))) }
    ensures out { out.new ≡ filled (written (within (length out.old) (composed (compose l.now)))) out.old }
{
    let listed = match read_listing(l) {
        Ok(listed) => listed,
        Err(why) => return output::refused(why.into()),
    };
    let length = A_AND_E + listed.size;
    if out.len() < length {
        return output::refused(verdict::refuse(refusals::NO_ROOM, 0));
    }
    write_file(l, listed.count, listed.sums, out);
    Written {
        verdict: verdict::ACCEPTED,
        length,
    }
}
