// Where a payment stands in a file, and where its texts stand: a stretch of the file, or why there is none. Each call checks the whole file.
#![tactic(auto)]

ghost use Rattle.std.specs.Prelude.{◌≡◌, ◌<◌, true, length};
ghost use Rattle.std.proofs.Math.Option.{some};
ghost use Rattle.std.proofs.Math.ListN.{get_elem?};
ghost use Rattle.document.specs.Marks.{most_parts};
ghost use Rattle.diskette.specs.Answer.{answer, payments_of};
ghost use Rattle.loader.specs.Columns.{starts};
ghost use Rattle.finder.specs.Texts.{place_of, begun_at};
ghost use Rattle.finder.specs.Seeking.{found, has_text};
ghost use Rattle.finder.specs.Spots.{nowhere, find_at, locate_at};

use fields::refusals;
use layout::{at, length, width};
use verdict::Verdict;

// A text of a payment: a field, or that of a part, counted from 1.
#[derive(Clone, Copy)]
pub enum Wanted {
    C14a,
    C15,
    C16,
    Part(usize),
}

// Where a stretch of the file begins and ends, or why there is none: then it is empty. The empty stretch is told too, so this is no `Result`.
#[derive(Clone, Copy)]
pub struct Spot {
    pub verdict: Verdict,
    pub from: usize,
    pub to: usize,
}

// The spot of a refusal: the verdict, and no stretch.
impl From<Verdict> for Spot {
    ghost from_gives = { λ v spot. spot ≡ nowhere v };

    fn from(v: Verdict) -> Spot {
        Spot {
            verdict: v,
            from: 0,
            to: 0,
        }
    }
}

// Where payment n of an accepted file begins.
fn start_of(s: &[u8], n: usize) -> usize
    requires { n < length (payments_of (answer s.now)) }
    ensures { get_elem? (starts (payments_of (answer s.now))) n ≡ some result }
{
    let mut p = length::A;
    // Where the next payment stands hangs on C18 of this one: the range counts them.
    for _row in 0..n {
        p += layout::bytes_of(parts::count_at(s, p));
    }
    p
}

// Whether one of the n payments of an accepted file begins at start.
fn begins(s: &[u8], n: usize, start: usize) -> bool
    requires { n ≡ length (payments_of (answer s.now)) }
    ensures { result ≡ found (begun_at start (payments_of (answer s.now))) }
{
    let mut p = length::A;
    // Where the next payment stands hangs on C18 of this one: the range counts them.
    for _row in 0..n {
        if p == start {
            return true;
        }
        p += layout::bytes_of(parts::count_at(s, p));
    }
    false
}

// Whether a payment of k parts has the text.
fn has_text(w: Wanted, k: usize) -> bool
    ensures { result ≡ has_text w k }
{
    match w {
        Wanted::C14a => true,
        Wanted::C15 => true,
        Wanted::C16 => true,
        Wanted::Part(i) => (1 <= i) & (i <= k),
    }
}

// Where in the payment the text stands.
fn text_place(w: Wanted) -> usize
    requires { has_text w most_parts ≡ true }
    ensures { result ≡ place_of w }
{
    match w {
        Wanted::C14a => at::C14A,
        Wanted::C15 => at::C15,
        Wanted::C16 => at::C16,
        Wanted::Part(i) => layout::mark_at(i - 1) + width::MARK,
    }
}

// Payment n of the file, from 0: from its first byte to the end of the file.
pub fn find(s: &[u8], n: usize) -> Spot
    ensures { result ≡ find_at s.now n }
{
    let checked = checker::check(s);
    if checked.verdict.number != 0 {
        return Spot::from(checked.verdict);
    }
    if n >= checked.count as usize {
        return Spot::from(verdict::refuse(refusals::NO_SUCH, 0));
    }
    let start = start_of(s, n);
    Spot {
        verdict: verdict::ACCEPTED,
        from: start,
        to: s.len(),
    }
}

// A text of the payment that begins at start, all of its bytes.
pub fn locate(s: &[u8], start: usize, w: Wanted) -> Spot
    ensures { result ≡ locate_at s.now start w }
{
    let checked = checker::check(s);
    if checked.verdict.number != 0 {
        return Spot::from(checked.verdict);
    }
    if !begins(s, checked.count as usize, start) {
        return Spot::from(verdict::refuse(refusals::NO_SUCH, 0));
    }
    let k = parts::count_at(s, start);
    if !has_text(w, k) {
        return Spot::from(verdict::refuse(refusals::NO_SUCH, 0));
    }
    let from = start + text_place(w);
    Spot {
        verdict: verdict::ACCEPTED,
        from,
        to: from + width::TEXT,
    }
}
