// The whole check: one A, its payments, one E and nothing more, in one pass over the file; and one such file wherever it stands.
#![tactic(auto)]

ghost use Rattle.std.specs.Prelude.{◌≡◌};
ghost use Rattle.form.specs.Place.{read_at};
ghost use Rattle.diskette.specs.Fields.{end, document};
ghost use Rattle.diskette.specs.Answer.{answer, outcome};
ghost use Rattle.fields.specs.Answers.{of_read};
ghost use Rattle.sums.specs.Sums.{totals_of};
ghost use Rattle.checker.specs.Checking.{checked_of, refused_with, files, rest_on};

use fields::{Reading, Refusal, refusals};
use layout::length;
use sums::Sums;
use verdict::Verdict;

// What a check gives back: the verdict, and what the payments come to; a refused file has no figures. It is no `Result`, since the figures of a
// refused file are told too, 0 each.
#[derive(Clone, Copy)]
pub struct Checked {
    pub verdict: Verdict,
    pub count: u64,
    pub sums: Sums,
}

// One file from A to E: how many payments, what they come to, and the place behind E.
#[derive(Clone, Copy)]
pub struct FileRead {
    pub count: u64,
    pub sums: Sums,
    pub end: usize,
}

// What is given back of a file that is refused so.
impl From<Refusal> for Checked {
    ghost from_gives = { λ why v. v ≡ refused_with why };

    fn from(why: Refusal) -> Checked {
        Checked {
            verdict: Verdict::from(why),
            count: 0,
            sums: sums::NO_SUMS,
        }
    }
}

// E behind its length at p, after so many payments that come to these sums.
fn ended(s: &[u8], p: usize, count: u64, sums: Sums) -> Reading<FileRead>
    ensures { result ≡ of_read (rest_on (totals_of count sums)) (read_at (end (totals_of count sums)) s.now p) }
{
    let end = trailer::end_at(s, p, count, sums)?;
    Ok(FileRead { count, sums, end })
}

// The file that begins at p, from A to E, whatever follows it.
pub fn file_at(s: &[u8], p: usize) -> Reading<FileRead>
    ensures { result ≡ of_read files (read_at document s.now p) }
{
    let (h, start) = header::header_at(s, p)?;
    let kind = h.kind;
    let mut at = start;
    let mut count: u64 = 0;
    let mut sums = sums::NO_SUMS;
    // Where a payment begins hangs on the one before it, and E alone ends them, so no range tells the places.
    loop {
        let (l, q) = payment::length_at(s, at, count, sums)?;
        if l == length::END_TOLD {
            return ended(s, q, count, sums);
        }
        let (new_sums, next) = payment::payment_at(s, q, kind, sums, l)?;
        sums = new_sums;
        count += 1;
        at = next;
    }
}

// The answer to a file, whatever its bytes: accepted with its figures, or refused with one number and one place.
pub fn check(s: &[u8]) -> Checked
    ensures { result ≡ checked_of (outcome (answer s.now)) }
{
    let file = match file_at(s, 0) {
        Ok(file) => file,
        Err(why) => return Checked::from(why),
    };
    if s.len() > file.end {
        return Checked::from(fields::refuse(refusals::SURPLUS, file.end));
    }
    Checked {
        verdict: verdict::ACCEPTED,
        count: file.count,
        sums: file.sums,
    }
}
