// One field at a place of the file: a function for each kind of field. Each is total, and answers what the reader of the form sees there.
#![tactic(auto)]

ghost use Rattle.std.specs.Prelude.{◌≡◌, ◌+◌, ◌≤◌, min, length, replicate, nat_eq, nat_le};
ghost use Rattle.form.specs.Kind.{fixed, digits, maybe, choice, every, same, blanks};
ghost use Rattle.form.specs.Place.{look_at, field_at};
ghost use Rattle.verdict.specs.Verdicts.{refusing};
ghost use Rattle.document.specs.Signs.{zeros, sign};
ghost use Rattle.document.specs.Rules.{file_kinds};
ghost use Rattle.diskette.specs.Fields.{text27, rules_of_names};
ghost use Rattle.fields.specs.Answers.{refusal_of, why, of_field, passings, numbers, maybe_numbers, kinds};
ghost use Rattle.fields.specs.Stretches.{widest, digits_of, number_in, signs_of, texts};

use layout::width;
use verdict::Verdict;

pub mod fixed;
pub mod refusals;

// Why a file or a listing is refused: the number and the place. It is no `Verdict`, which may accept; the theorems of both speak of their own type
// (`refusal_of`, `refusing`).
#[derive(Clone, Copy)]
pub struct Refusal {
    pub number: u8,
    pub place: usize,
}

pub const NO_REFUSAL: Refusal = Refusal {
    number: 0,
    place: 0,
};

// What reading gives: a content, mostly with the place behind it, or a refusal. Where no value is kept the place alone is the content.
// A reader is given the file and a place in it, and not the rest of the file: a refusal names its place in the file.
pub type Reading<T> = Result<T, Refusal>;

// What A3 tells: credits or debits, of a customer or of a bank. They are two facts, since a rule asks for one of them.
#[derive(Clone, Copy)]
pub struct FileKind {
    pub credit: bool,
    pub customer: bool,
}

// Where the refusals of all leaves and readers are made.
pub fn refuse(number: u8, place: usize) -> Refusal
    ensures { result ≡ refusal_of number place }
{
    Refusal { number, place }
}

// The verdict of a call that is refused so.
impl From<Refusal> for Verdict {
    ghost from_gives = { λ why v. v ≡ refusing why.number why.place };

    fn from(why: Refusal) -> Verdict {
        verdict::refuse(why.number, why.place)
    }
}

// Why reading refuses, for code that has taken its answer apart and found no content; 0 at 0 where it does not. Each record reader takes a field's
// answer apart by `let .. else`, which a rule of the project asks for.
pub fn why<T: Copy>(read: Reading<T>) -> Refusal
    ensures { result ≡ why read }
{
    match read {
        Ok(_) => NO_REFUSAL,
        Err(refusal) => refusal,
    }
}

// Whether a field of w bytes at p ends within len bytes.
#[inline(always)]
pub fn whole(len: usize, p: usize, w: usize) -> bool
    ensures { result ≡ nat_le (p + w) len }
{
    if len < w {
        return false;
    }
    p <= len - w
}

// Whether f and want are the same bytes. All of them are compared, as in `all_are`.
#[inline(always)]
fn same_bytes(f: &[u8], want: &[u8]) -> bool
    requires { length f.now ≡ length want.now }
    ensures { result ≡ same want.now f.now }
{
    let mut all = true;
    for i in 0..f.len() {
        all = all & (want[i] == f[i]);
    }
    all
}

// Whether every byte of f is b. All of them are compared, so that this is a few steps of a processor's vector unit.
#[inline(always)]
fn all_are(f: &[u8], b: u8) -> bool
    ensures { result ≡ every (λ x. nat_eq x b) f.now }
{
    let mut all = true;
    for &x in f {
        all = all & (x == b);
    }
    all
}

// The number that the bytes of f spell, at most 17 of them; none where one is no digit. A byte less the digit 0, in a byte's arithmetic, is above 9
// where it is no digit.
#[inline(always)]
fn digits_of(f: &[u8]) -> Option<u64>
    requires { length f.now ≤ widest }
    ensures { result ≡ digits_of f.now }
{
    let mut v: u64 = 0;
    for &b in f {
        let d = b.wrapping_sub(b'0');
        if d > 9 {
            return None;
        }
        v = v * 10 + u64::from(d);
    }
    Some(v)
}

// Whether b may stand in a text: blank, $ to &, * to 9, A to ] (the capitals and three umlauts), ~ (the sharp s).
fn is_sign(b: u8) -> bool
    ensures { result ≡ sign b }
{
    (b == b' ')
        | ((b >= b'$') & (b <= b'&'))
        | ((b >= b'*') & (b <= b'9'))
        | ((b >= b'A') & (b <= b']'))
        | (b == b'~')
}

// Whether all bytes of a text are permitted signs, and whether all are blanks.
#[derive(Clone, Copy)]
struct Signs {
    permitted: bool,
    blank: bool,
}

// A text is tested in two halves of 16 bytes, which share five: so each half is one step of a processor's vector unit.
const HALF: usize = 16;

const SECOND_HALF: usize = width::TEXT - HALF;

#[inline(always)]
fn signs_of(f: &[u8]) -> Signs
    requires { length f.now ≡ 27 }
    ensures { result ≡ signs_of f.now }
{
    let mut permitted = true;
    let mut blank = true;
    for i in 0..HALF {
        let b = f[i];
        let c = f[i + SECOND_HALF];
        permitted = permitted & (is_sign(b) & is_sign(c));
        blank = blank & ((b == b' ') & (c == b' '));
    }
    Signs { permitted, blank }
}

// Each leaf takes its stretch of the file itself. Handed back in a `Result` the stretch has a width that the compiler does not know, and the check
// was a fifth slower.
//
// The leaves are inlined wherever they are called. The compiler takes a test for `Ok`, the first variant, for one that mostly fails, and would call
// the fields behind it, though nearly every field of a file has its content.

// The fixed bytes want at p.
#[inline(always)]
pub fn fixed_at(s: &[u8], p: usize, want: &[u8]) -> Reading<usize>
    ensures { result ≡ of_field passings p (p + length want.now) (look_at (fixed want.now) s.now p) }
{
    let w = want.len();
    if !whole(s.len(), p, w) {
        return Err(refuse(refusals::SHORT, p));
    }
    if !same_bytes(&s[p..p + w], want) {
        return Err(refuse(refusals::NOT_FIXED, p));
    }
    Ok(p + w)
}

// w bytes b at p.
#[inline(always)]
fn fill_at(s: &[u8], p: usize, w: usize, b: u8) -> Reading<usize>
    ensures { result ≡ of_field passings p (p + w) (look_at (fixed (replicate w b)) s.now p) }
{
    if !whole(s.len(), p, w) {
        return Err(refuse(refusals::SHORT, p));
    }
    if !all_are(&s[p..p + w], b) {
        return Err(refuse(refusals::NOT_FIXED, p));
    }
    Ok(p + w)
}

// w blanks at p.
#[inline(always)]
pub fn blanks_at(s: &[u8], p: usize, w: usize) -> Reading<usize>
    ensures { result ≡ of_field passings p (p + w) (look_at (fixed (blanks w)) s.now p) }
{
    fill_at(s, p, w, b' ')
}

// w zeros at p.
#[inline(always)]
pub fn zeros_at(s: &[u8], p: usize, w: usize) -> Reading<usize>
    ensures { result ≡ of_field passings p (p + w) (look_at (fixed (zeros w)) s.now p) }
{
    fill_at(s, p, w, b'0')
}

// No number of the form has more digits than the sums of E.
const WIDEST: usize = width::E6;

// The number that f spells, the bytes of a field at p.
#[inline(always)]
fn number_in(f: &[u8], p: usize) -> Reading<u64>
    requires { length f.now ≤ widest }
    ensures { result ≡ number_in f.now p }
{
    digits_of(f).ok_or(refuse(refusals::NO_DIGIT, p))
}

// A number of w digits at p; 17 where w is more.
#[inline(always)]
pub fn number_at(s: &[u8], p: usize, w: usize) -> Reading<(u64, usize)>
    ensures { result ≡ of_field numbers p (p + min w widest) (look_at (digits (min w widest)) s.now p) }
{
    let n = w.min(WIDEST);
    if !whole(s.len(), p, n) {
        return Err(refuse(refusals::SHORT, p));
    }
    let v = number_in(&s[p..p + n], p)?;
    Ok((v, p + n))
}

// w blanks at p, or a number of w digits; 17 where w is more.
pub fn maybe_number_at(s: &[u8], p: usize, w: usize) -> Reading<(Option<u64>, usize)>
    ensures { result ≡ of_field maybe_numbers p (p + min w widest) (look_at (maybe (min w widest)) s.now p) }
{
    let n = w.min(WIDEST);
    if !whole(s.len(), p, n) {
        return Err(refuse(refusals::SHORT, p));
    }
    let f = &s[p..p + n];
    if all_are(f, b' ') {
        return Ok((None, p + n));
    }
    let v = number_in(f, p)?;
    Ok((Some(v), p + n))
}

// A text of 27 signs at p, and whether all of them are blanks: both are told by looking at it once.
#[inline(always)]
fn signs_at(s: &[u8], p: usize) -> Reading<(bool, usize)>
    ensures { result ≡ of_field texts p (p + 27) (look_at text27 s.now p) }
{
    if !whole(s.len(), p, width::TEXT) {
        return Err(refuse(refusals::SHORT, p));
    }
    let signs = signs_of(&s[p..p + width::TEXT]);
    if !signs.permitted {
        return Err(refuse(refusals::NO_SIGN, p));
    }
    Ok((signs.blank, p + width::TEXT))
}

// A text of 27 signs at p.
#[inline(always)]
pub fn text_at(s: &[u8], p: usize) -> Reading<usize>
    ensures { result ≡ of_field passings p (p + 27) (look_at text27 s.now p) }
{
    let (_, q) = signs_at(s, p)?;
    Ok(q)
}

// A text of 27 signs at p, not all of them blanks.
#[inline(always)]
pub fn name_at(s: &[u8], p: usize) -> Reading<usize>
    ensures { result ≡ of_field passings p (p + 27) (field_at text27 rules_of_names s.now p) }
{
    let (blank, q) = signs_at(s, p)?;
    if blank {
        return Err(refuse(refusals::CONDITION, p));
    }
    Ok(q)
}

// The kind of file, A3, at p.
pub fn kind_at(s: &[u8], p: usize) -> Reading<(FileKind, usize)>
    ensures { result ≡ of_field kinds p (p + 2) (look_at (choice 2 file_kinds) s.now p) }
{
    if !whole(s.len(), p, width::A3) {
        return Err(refuse(refusals::SHORT, p));
    }
    let first = s[p];
    let second = s[p + 1];
    let credit = first == b'G';
    let customer = second == b'K';
    let named = (credit | (first == b'L')) & (customer | (second == b'B'));
    if !named {
        return Err(refuse(refusals::NOT_FIXED, p));
    }
    Ok((FileKind { credit, customer }, p + width::A3))
}
