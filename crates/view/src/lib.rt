// The view of one payment: it holds the file and where the payment begins, and hands out the payment's texts as stretches of the file itself.
// What branches stands in `finder`, on plain parameters, but for the choice between two verdicts. The calls here make a view, take one or take one
// apart, and only go from a spot to a stretch of the file.
#![tactic(auto)]

ghost use Rattle.std.specs.Prelude.{◌≡◌, ◌≤◌, length};
ghost use Rattle.finder.specs.Spots.{find_at, locate_at};
ghost use Rattle.view.specs.Views.{Stretch, IsMade, IsHanded, IsText, first_of, verdict_for};

use finder::Wanted;
use verdict::Verdict;

// A view of one payment: the file, and where the payment begins in it.
#[derive(Clone, Copy)]
pub struct View<'a> {
    pub file: &'a [u8],
    pub start: usize,
}

// What making gives back: the view, and the verdict. A refused view has no bytes, and start 0: it is handed out too, so this is no `Result`.
#[derive(Clone, Copy)]
pub struct Made<'a> {
    pub view: View<'a>,
    pub verdict: Verdict,
}

// What a hand-out gives back: the text, and the verdict. A refused text is empty: it is handed out too, so this is no `Result`.
#[derive(Clone, Copy)]
pub struct Handed<'a> {
    pub text: &'a [u8],
    pub verdict: Verdict,
}

// A stretch of the file itself.
fn stretch(s: &[u8], from: usize, to: usize) -> &[u8]
    requires { (from ≤ to) × (to ≤ length s.now) }
    ensures { Stretch s.entry from to result }
{
    &s[from..to]
}

// The view of payment n of the file, from 0.
pub fn make<'a>(file: &'a [u8], n: usize) -> Made<'a>
    ensures { IsMade file.entry (find_at file.now n) result }
{
    let spot = finder::find(file, n);
    let bytes = stretch(file, 0, spot.to);
    Made {
        view: View {
            file: bytes,
            start: spot.from,
        },
        verdict: spot.verdict,
    }
}

// A text of a view's payment; file and start are checked again, whatever made the view.
pub fn hand<'a>(v: View<'a>, w: Wanted) -> Handed<'a>
    ensures { IsHanded v.entry.file (locate_at v.entry.file.now v.entry.start w) result }
{
    let spot = finder::locate(v.file, v.start, w);
    let text = stretch(v.file, spot.from, spot.to);
    Handed {
        text,
        verdict: spot.verdict,
    }
}

// The text of payment n, through a view of it, for callers that keep no view; empty where making or hand-out is refused.
pub fn text_of<'a>(file: &'a [u8], n: usize, w: Wanted) -> &'a [u8]
    ensures { IsText file.entry n w result }
{
    let made = make(file, n);
    let handed = hand(made.view, w);
    handed.text
}

// The verdict on the text that `text_of` gives: the refusal of the making, or else the verdict of the hand-out.
pub fn verdict_of(file: &[u8], n: usize, w: Wanted) -> Verdict
    ensures { result ≡ verdict_for file.now n w }
{
    let made = make(file, n);
    let handed = hand(made.view, w);
    first_of(made.verdict, handed.verdict)
}

// The first refusal of two.
fn first_of(a: Verdict, b: Verdict) -> Verdict
    ensures { result ≡ first_of a b }
{
    if a.number == 0 {
        return b;
    }
    a
}
