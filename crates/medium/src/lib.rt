// The check of a medium: one file or more end to end, in one pass over all of them.
#![tactic(auto)]

ghost use Rattle.std.specs.Prelude.{◌≡◌};
ghost use Rattle.diskette.specs.Medium.{medium_answer, medium_outcome};
ghost use Rattle.medium.specs.Checking.{medium_checked_of, refused_with};

use fields::Refusal;
use verdict::Verdict;

// What the check of a medium gives back: the verdict, how many files, and how many payments in all of them; a refused medium has no figures. They
// are told too, 0 each, so this is no `Result`.
#[derive(Clone, Copy)]
pub struct MediumChecked {
    pub verdict: Verdict,
    pub files: u64,
    pub payments: u64,
}

// What is given back of a medium that is refused so.
impl From<Refusal> for MediumChecked {
    ghost from_gives = { λ why v. v ≡ refused_with why };

    fn from(why: Refusal) -> MediumChecked {
        MediumChecked {
            verdict: Verdict::from(why),
            files: 0,
            payments: 0,
        }
    }
}

// The answer to a medium, whatever its bytes. Count and totals begin anew with each file, and so do their limits.
pub fn check_medium(s: &[u8]) -> MediumChecked
    ensures { result ≡ medium_checked_of (medium_outcome (medium_answer s.now)) }
{
    let mut p = 0;
    let mut files: u64 = 0;
    let mut payments: u64 = 0;
    // Where a file begins hangs on the one before it, so no range tells the places.
    loop {
        let file = match checker::file_at(s, p) {
            Ok(file) => file,
            Err(why) => return MediumChecked::from(why),
        };
        files += 1;
        payments += file.count;
        if file.end >= s.len() {
            return MediumChecked {
                verdict: verdict::ACCEPTED,
                files,
                payments,
            };
        }
        p = file.end;
    }
}
