// The calls as C makes them, which crates/dtaus_c exports: each on numbers and lent slices alone. What a call finds it tells in a lent slice of
// numbers, the result; the number that it returns is the result's first, or 16 where the result is too short.
#![tactic(auto)]

ghost use Rattle.std.specs.Prelude.{◌≡◌, ◌≤◌, [], ◌∷◌, length};
ghost use Rattle.verdict.specs.Lent.{filled};
ghost use Rattle.sums.specs.Sums.{totals_of};
ghost use Rattle.listing.specs.Endings.{written};
ghost use Rattle.output.specs.Writing.{written_of};
ghost use Rattle.document.specs.Medium.{all_payments};
ghost use Rattle.loader.specs.Columns.{bank_codes, accounts, cents, starts};
ghost use Rattle.loader.specs.Medium.{medium_starts, file_starts, file_counts, file_accounts, file_bank_codes, file_cents};
ghost use Rattle.dtaus.specs.Figures.{outcome_figures, medium_figures, written_figures, spot_figures, told};
ghost use Rattle.dtaus.specs.Version.{version};
ghost use Rattle.dtaus.specs.Calls.{text_named, checking, loading_with, rows_of, checking_medium, loading_medium, files_with, listing_with, composing_with, finding_with, locating_with};

use checker::Checked;
use fields::refusals;
use finder::{Spot, Wanted};
use medium::MediumChecked;
use output::Written;

// How many figures a result has: of a check or a load, of a check or a load of a medium, of a call that writes, of a stretch of the file.
const OUTCOME_FIGURES: usize = 6;

const MEDIUM_FIGURES: usize = 4;

const WRITTEN_FIGURES: usize = 3;

const SPOT_FIGURES: usize = 4;

// Tells the figures: the result begins with them.
#[tactic(auto, using(crate::proofs::TellingLaws::all_told))]
fn tell(res: &mut [u64], figures: &[u64])
    requires { length figures.now ≤ length res.old }
    ensures { res.new ≡ told figures.now res.old }
{
    res[..figures.len()].copy_from_slice(figures);
}

// Tells number and place, the count, and the sums in the order of E.
fn tell_outcome(res: &mut [u64], checked: Checked)
    requires { 6 ≤ length res.old }
    ensures { res.new ≡ told (outcome_figures (record { verdict = checked.verdict; totals = totals_of checked.count checked.sums })) res.old }
{
    tell(
        res,
        &[
            u64::from(checked.verdict.number),
            checked.verdict.place as u64,
            checked.count,
            checked.sums.accounts.0,
            checked.sums.banks.0,
            checked.sums.cents.0,
        ],
    );
}

// Tells number and place, the number of files, and that of their payments.
fn tell_medium(res: &mut [u64], checked: MediumChecked)
    requires { 4 ≤ length res.old }
    ensures { res.new ≡ told (medium_figures (record { verdict = checked.verdict; files = checked.files; payments = checked.payments })) res.old }
{
    tell(
        res,
        &[
            u64::from(checked.verdict.number),
            checked.verdict.place as u64,
            checked.files,
            checked.payments,
        ],
    );
}

// Tells number and place, and the length.
fn tell_written(res: &mut [u64], w: Written)
    requires { 3 ≤ length res.old }
    ensures { res.new ≡ told (written_figures w) res.old }
{
    tell(
        res,
        &[
            u64::from(w.verdict.number),
            w.verdict.place as u64,
            w.length as u64,
        ],
    );
}

// Tells number and place, and where the stretch begins and ends.
fn tell_spot(res: &mut [u64], spot: Spot)
    requires { 4 ≤ length res.old }
    ensures { res.new ≡ told (spot_figures spot) res.old }
{
    tell(
        res,
        &[
            u64::from(spot.verdict.number),
            spot.verdict.place as u64,
            spot.from as u64,
            spot.to as u64,
        ],
    );
}

// The text that a number names: 0, 1 and 2 are C14a, C15 and C16, and what follows the parts, from the first on.
fn text_named(wanted: usize) -> Wanted
    ensures { result ≡ text_named wanted }
{
    match wanted {
        0 => Wanted::C14a,
        1 => Wanted::C15,
        2 => Wanted::C16,
        _ => Wanted::Part(wanted - 2),
    }
}

// As the header's DTAUS_VERSION.
const VERSION: u32 = 3;

// The version of the header that belongs to the archive.
pub fn dtaus_version() -> u32
    ensures { result ≡ version }
{
    VERSION
}

// Checks a file.
pub fn dtaus_check(file: &[u8], res: &mut [u64]) -> u8
    ensures number { result ≡ (checking res.old file.now).verdict.number }
    ensures res { res.new ≡ told (outcome_figures (checking res.old file.now)) res.old }
{
    if res.len() < OUTCOME_FIGURES {
        return refusals::NO_ROOM;
    }
    let checked = checker::check(file);
    tell_outcome(res, checked);
    checked.verdict.number
}

// Loads the payments of a file into four columns: C4, C5, C12, and the byte where the payment begins.
pub fn dtaus_load(
    file: &[u8],
    c4: &mut [u64],
    c5: &mut [u64],
    c12: &mut [u64],
    start: &mut [u64],
    res: &mut [u64],
) -> u8
    ensures number { result ≡ (loading_with (c4.old ∷ c5.old ∷ c12.old ∷ start.old ∷ []) res.old file.now).verdict.number }
    ensures c4 { c4.new ≡ filled (bank_codes (rows_of result file.now)) c4.old }
    ensures c5 { c5.new ≡ filled (accounts (rows_of result file.now)) c5.old }
    ensures c12 { c12.new ≡ filled (cents (rows_of result file.now)) c12.old }
    ensures start { start.new ≡ filled (starts (rows_of result file.now)) start.old }
    ensures res { res.new ≡ told (outcome_figures (loading_with (c4.old ∷ c5.old ∷ c12.old ∷ start.old ∷ []) res.old file.now)) res.old }
{
    if res.len() < OUTCOME_FIGURES {
        return refusals::NO_ROOM;
    }
    let loaded = loader::load(file, c4, c5, c12, start);
    tell_outcome(res, loaded);
    loaded.verdict.number
}

// Checks a medium: one file or more end to end.
pub fn dtaus_check_medium(medium: &[u8], res: &mut [u64]) -> u8
    ensures number { result ≡ (checking_medium res.old medium.now).verdict.number }
    ensures res { res.new ≡ told (medium_figures (checking_medium res.old medium.now)) res.old }
{
    if res.len() < MEDIUM_FIGURES {
        return refusals::NO_ROOM;
    }
    let medium_checked = medium::check_medium(medium);
    tell_medium(res, medium_checked);
    medium_checked.verdict.number
}

// Loads the payments of all files of a medium into four columns, as `dtaus_load` does, and the files into the five columns of a table: the byte where
// the file begins, its count, and its sums of C5, C4 and C12.
pub fn dtaus_load_medium(
    medium: &[u8],
    c4: &mut [u64],
    c5: &mut [u64],
    c12: &mut [u64],
    start: &mut [u64],
    begin: &mut [u64],
    count: &mut [u64],
    sum5: &mut [u64],
    sum4: &mut [u64],
    sum12: &mut [u64],
    res: &mut [u64],
) -> u8
    ensures number { result ≡ (loading_medium (c4.old ∷ c5.old ∷ c12.old ∷ start.old ∷ []) (begin.old ∷ count.old ∷ sum5.old ∷ sum4.old ∷ sum12.old ∷ []) res.old medium.now).verdict.number }
    ensures c4 { c4.new ≡ filled (bank_codes (all_payments (files_with result medium.now))) c4.old }
    ensures c5 { c5.new ≡ filled (accounts (all_payments (files_with result medium.now))) c5.old }
    ensures c12 { c12.new ≡ filled (cents (all_payments (files_with result medium.now))) c12.old }
    ensures start { start.new ≡ filled (medium_starts 0 (files_with result medium.now)) start.old }
    ensures begin { begin.new ≡ filled (file_starts 0 (files_with result medium.now)) begin.old }
    ensures count { count.new ≡ filled (file_counts (files_with result medium.now)) count.old }
    ensures sum5 { sum5.new ≡ filled (file_accounts (files_with result medium.now)) sum5.old }
    ensures sum4 { sum4.new ≡ filled (file_bank_codes (files_with result medium.now)) sum4.old }
    ensures sum12 { sum12.new ≡ filled (file_cents (files_with result medium.now)) sum12.old }
    ensures res { res.new ≡ told (medium_figures (loading_medium (c4.old ∷ c5.old ∷ c12.old ∷ start.old ∷ []) (begin.old ∷ count.old ∷ sum5.old ∷ sum4.old ∷ sum12.old ∷ []) res.old medium.now)) res.old }
{
    if res.len() < MEDIUM_FIGURES {
        return refusals::NO_ROOM;
    }
    let medium_loaded = loader::load_medium(
        medium, c4, c5, c12, start, begin, count, sum5, sum4, sum12,
    );
    tell_medium(res, medium_loaded);
    medium_loaded.verdict.number
}

// Lists a file into a lent output.
pub fn dtaus_list(file: &[u8], output: &mut [u8], res: &mut [u64]) -> u8
    ensures number { result ≡ (written_of (listing_with (length output.old) res.old file.now)).verdict.number }
    ensures output { output.new ≡ filled (written (listing_with (length output.old) res.old file.now)) output.old }
    ensures res { res.new ≡ told (written_figures (written_of (listing_with (length output.old) res.old file.now))) res.old }
{
    if res.len() < WRITTEN_FIGURES {
        return refusals::NO_ROOM;
    }
    let listed = lister::list(file, output);
    tell_written(res, listed);
    listed.verdict.number
}

// Composes the file of a listing into a lent output.
pub fn dtaus_compose(listing: &[u8], output: &mut [u8], res: &mut [u64]) -> u8
    ensures number { result ≡ (written_of (composing_with (length output.old) res.old listing.now)).verdict.number }
    ensures output { output.new ≡ filled (written (composing_with (length output.old) res.old listing.now)) output.old }
    ensures res { res.new ≡ told (written_figures (written_of (composing_with (length output.old) res.old listing.now))) res.old }
{
    if res.len() < WRITTEN_FIGURES {
        return refusals::NO_ROOM;
    }
    let composed = composer::compose(listing, output);
    tell_written(res, composed);
    composed.verdict.number
}

// Finds payment n of a file, from 0.
pub fn dtaus_find(file: &[u8], n: usize, res: &mut [u64]) -> u8
    ensures number { result ≡ (finding_with res.old file.now n).verdict.number }
    ensures res { res.new ≡ told (spot_figures (finding_with res.old file.now n)) res.old }
{
    if res.len() < SPOT_FIGURES {
        return refusals::NO_ROOM;
    }
    let spot = finder::find(file, n);
    tell_spot(res, spot);
    spot.verdict.number
}

// Finds a text of the payment that begins at start.
pub fn dtaus_text(file: &[u8], start: usize, wanted: usize, res: &mut [u64]) -> u8
    ensures number { result ≡ (locating_with res.old file.now start wanted).verdict.number }
    ensures res { res.new ≡ told (spot_figures (locating_with res.old file.now start wanted)) res.old }
{
    if res.len() < SPOT_FIGURES {
        return refusals::NO_ROOM;
    }
    let spot = finder::locate(file, start, text_named(wanted));
    tell_spot(res, spot);
    spot.verdict.number
}
