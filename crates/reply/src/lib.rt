// What the programs print, made in a lent output: what the call has written there, or one line with the number and the place of the refusal.
#![tactic(auto)]

ghost use Rattle.std.specs.Prelude.{◌≡◌, ◌≢◌, length};
ghost use Rattle.verdict.specs.Lent.{filled};
ghost use Rattle.reply.specs.Reply.{digits_within, refusal_line, fitting, list_reply, make_reply};

use output::Written;

// The programs take at most so many bytes.
const LONGEST: usize = 32768;

// The number of an input that is too long, which the programs alone give.
const TOO_LONG: u8 = 20;

// How many digits v has in decimal.
#[tactic(auto, using(crate::proofs::DecimalLaws::digit_by_digit))]
fn digits_in(v: u64) -> usize
    ensures { result ≡ digits_within 20 v }
{
    if v < 10 {
        return 1;
    }
    1 + digits_in(v / 10)
}

// The line of a refusal. It gives back how many bytes it wrote: all, or none where there is no room for all (`fitting`).
#[tactic(auto, using(crate::proofs::LineLaws::piece_by_piece))]
fn refusal_line(number: u8, place: usize, out: &mut [u8]) -> usize
    ensures answer { result ≡ length (fitting (length out.old) (refusal_line number place)) }
    ensures out { out.new ≡ filled (fitting (length out.old) (refusal_line number place)) out.old }
{
    let first = digits_in(u64::from(number));
    let second = digits_in(place as u64);
    let length = first + second + 2;
    if out.len() < length {
        return 0;
    }
    output::put_number(out, 0, u64::from(number), first);
    out[first] = layout::line::TAB;
    output::put_number(out, first + 1, place as u64, second);
    out[length - 1] = layout::line::END;
    length
}

// What is printed of a call that gave this back: the line of its refusal, or what it has written. It gives back the length.
fn printed(w: Written, out: &mut [u8]) -> usize
    ensures accepted { w.verdict.number ≡ 0 → (result ≡ w.length) × (out.new ≡ out.old) }
    ensures refused { w.verdict.number ≢ 0 → let line = fitting (length out.old) (refusal_line w.verdict.number w.verdict.place) in (result ≡ length line) × (out.new ≡ filled line out.old) }
{
    if w.verdict.number != 0 {
        return refusal_line(w.verdict.number, w.verdict.place, out);
    }
    w.length
}

// What dtlist prints for the input s: the listing of a file, or its refusal. It gives back the length.
pub fn list(s: &[u8], out: &mut [u8]) -> usize
    ensures answer { result ≡ length (list_reply (length out.old) s.now) }
    ensures out { out.new ≡ filled (list_reply (length out.old) s.now) out.old }
{
    if s.len() > LONGEST {
        return refusal_line(TOO_LONG, LONGEST, out);
    }
    let listed = lister::list(s, out);
    printed(listed, out)
}

// What dtmake prints for the input l: the file of a listing, or its refusal. It gives back the length. One function for both would be passed the
// call, and would have to require what each of the two calls promises; so these lines stand twice.
pub fn make(l: &[u8], out: &mut [u8]) -> usize
    ensures answer { result ≡ length (make_reply (length out.old) l.now) }
    ensures out { out.new ≡ filled (make_reply (length out.old) l.now) out.old }
{
    if l.len() > LONGEST {
        return refusal_line(TOO_LONG, LONGEST, out);
    }
    let made = composer::compose(l, out);
    printed(made, out)
}
