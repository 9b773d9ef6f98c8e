// How bytes are written into a lent output, and what a call that writes gives back. Each function is total, and one that has no room writes
// nothing.
#![tactic(auto)]

ghost use Rattle.std.specs.Prelude.{◌≡◌, ◌%◌, ◌^◌, [], ◌∷◌, length};
ghost use Rattle.form.specs.Kind.{numeral, blanks};
ghost use Rattle.listing.specs.Records.{pad};
ghost use Rattle.listing.specs.Endings.{refuses};
ghost use Rattle.output.specs.Writing.{over_if_room, written_of};
ghost use Rattle.layout.specs.Cells.{letter_of};

use fields::fixed;
use verdict::Verdict;

// What a call that writes gives back: the verdict, and how many bytes it wrote; a refused call has written none. That 0 is told too, so this is no
// `Result`.
#[derive(Clone, Copy)]
pub struct Written {
    pub verdict: Verdict,
    pub length: usize,
}

// What a refused call gives back.
pub fn refused(v: Verdict) -> Written
    ensures { result ≡ written_of (refuses v) }
{
    Written {
        verdict: v,
        length: 0,
    }
}

// The letter of A, or of C.
pub fn letter(head: bool) -> u8
    ensures { letter_of head ≡ result ∷ [] }
{
    if head {
        return fixed::LETTER_A[0];
    }
    fixed::LETTER_C[0]
}

// The field t made w wide, into the output from p on.
#[tactic(auto, using(listing::proofs::LineLaws::pad_length, crate::proofs::WritingLaws::pad_over), unfolding(crate::specs::Writing::over_if_room))]
pub fn put(out: &mut [u8], p: usize, t: &[u8], w: usize)
    ensures { out.new ≡ over_if_room p (pad w t.now) out.old }
{
    if !fields::whole(out.len(), p, w) {
        return;
    }
    let n = t.len().min(w);
    out[p..p + n].copy_from_slice(&t[..n]);
    out[p + n..p + w].fill(b' ');
}

// The bytes of t as they are, into the output from p on: byte by byte, since they are few and the library then calls no function of C for them.
#[tactic(auto, using(crate::proofs::WritingLaws::writing_start, crate::proofs::WritingLaws::writing_end), unfolding(crate::specs::Writing::over_if_room))]
pub fn copy(out: &mut [u8], p: usize, t: &[u8])
    ensures { out.new ≡ over_if_room p t.now out.old }
{
    if !fields::whole(out.len(), p, t.len()) {
        return;
    }
    for i in 0..t.len() {
        out[p + i] = t[i];
    }
}

// The last w digits of v, into the output from p on.
#[tactic(auto, using(form::proofs::KindLaws::numeral_length, crate::proofs::DigitLaws::digit_by_digit), unfolding(crate::specs::Writing::over_if_room))]
pub fn put_number(out: &mut [u8], p: usize, v: u64, w: usize)
    ensures { out.new ≡ over_if_room p (numeral w (v % 10 ^ w)) out.old }
{
    if !fields::whole(out.len(), p, w) {
        return;
    }
    let mut left = v;
    for i in (0..w).rev() {
        out[p + i] = b'0' + (left % 10) as u8;
        left /= 10;
    }
}

// The whole output made blank.
pub fn blank(out: &mut [u8])
    ensures { out.new ≡ blanks (length out.old) }
{
    out.fill(b' ');
}
