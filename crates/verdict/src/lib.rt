// What every call gives back of its input: accepted, 0 at 0, or refused, with one number and one place.
#![tactic(auto)]

ghost use Rattle.std.specs.Prelude.{◌≡◌};
ghost use Rattle.verdict.specs.Verdicts.{refusing};

// It is no `Result`: C is given number and place of every call, and 0 is the number of an accepted one.
#[derive(Clone, Copy)]
pub struct Verdict {
    pub number: u8,
    pub place: usize,
}

pub const ACCEPTED: Verdict = Verdict {
    number: 0,
    place: 0,
};

// Where the verdict of every refused call is made.
pub fn refuse(number: u8, place: usize) -> Verdict
    ensures { result ≡ refusing number place }
{
    Verdict { number, place }
}
