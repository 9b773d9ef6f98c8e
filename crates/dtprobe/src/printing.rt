// Printing an answer: lines of numbers, and what a lent slice holds.
use checker::Checked;
use finder::Spot;
use medium::MediumChecked;
use output::Written;
use std::io::Write;
use std::{fmt, io};
use verdict::Verdict;

// Number and place, the count, and the three totals.
pub(crate) fn outcome<W: Write>(writer: &mut W, checked: Checked) -> io::Result<()> {
    let Verdict { number, place } = checked.verdict;
    let sums = checked.sums;
    writeln!(
        writer,
        "{number}\t{place}\t{}\t{}\t{}\t{}",
        checked.count, sums.accounts.0, sums.banks.0, sums.cents.0
    )
}

// Number and place, the numbers of files and of payments.
pub(crate) fn medium<W: Write>(writer: &mut W, checked: MediumChecked) -> io::Result<()> {
    let Verdict { number, place } = checked.verdict;
    writeln!(
        writer,
        "{number}\t{place}\t{}\t{}",
        checked.files, checked.payments
    )
}

// Number and place, and where a stretch of the file begins and ends.
pub(crate) fn spot<W: Write>(writer: &mut W, spot: Spot) -> io::Result<()> {
    let Verdict { number, place } = spot.verdict;
    writeln!(writer, "{number}\t{place}\t{}\t{}", spot.from, spot.to)
}

// Number and place, the length of a text; then some bytes, and the line ends.
fn with_bytes<W: Write>(
    writer: &mut W,
    verdict: Verdict,
    length: usize,
    bytes: &[u8],
) -> io::Result<()> {
    let Verdict { number, place } = verdict;
    writeln!(writer, "{number}\t{place}\t{length}")?;
    writer.write_all(bytes)?;
    writeln!(writer)
}

// Number and place, the length written; then the whole output.
pub(crate) fn written<W: Write>(writer: &mut W, written: Written, out: &[u8]) -> io::Result<()> {
    with_bytes(writer, written.verdict, written.length, out)
}

// Number and place, the length of a text; then the text.
pub(crate) fn text<W: Write>(writer: &mut W, verdict: Verdict, text: &[u8]) -> io::Result<()> {
    with_bytes(writer, verdict, text.len(), text)
}

// A column: every row followed by a blank.
#[derive(Clone, Copy)]
struct Column<'a>(&'a [u64]);

impl fmt::Display for Column<'_> {
    fn fmt<W: fmt::Write>(&self, f: &mut fmt::Formatter<W>) -> fmt::Result {
        for row in self.0 {
            write!(f, "{row} ")?;
        }
        Ok(())
    }
}

pub(crate) fn rows<W: Write>(writer: &mut W, rows: &[u64]) -> io::Result<()> {
    writeln!(writer, "{}", Column(rows))
}
