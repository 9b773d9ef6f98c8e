// The archive for C: each call of crates/dtaus, with the same contract, under the symbol that include/dtaus.h declares. A slice is a pointer and
// then the number of its entries.
#![tactic(auto)]

ghost use Rattle.std.specs.Prelude.{◌≡◌, [], ◌∷◌, length};
ghost use Rattle.verdict.specs.Lent.{filled};
ghost use Rattle.listing.specs.Endings.{written};
ghost use Rattle.output.specs.Writing.{written_of};
ghost use Rattle.document.specs.Medium.{all_payments};
ghost use Rattle.loader.specs.Columns.{bank_codes, accounts, cents, starts};
ghost use Rattle.loader.specs.Medium.{medium_starts, file_starts, file_counts, file_accounts, file_bank_codes, file_cents};
ghost use Rattle.dtaus.specs.Figures.{outcome_figures, medium_figures, written_figures, spot_figures, told};
ghost use Rattle.dtaus.specs.Version.{version};
ghost use Rattle.dtaus.specs.Calls.{checking, loading_with, rows_of, checking_medium, loading_medium, files_with, listing_with, composing_with, finding_with, locating_with};

// The version of the header that belongs to the archive.
#[unsafe(no_mangle)]
pub extern "C" fn dtaus_version() -> u32
    ensures { result ≡ version }
{
    dtaus::dtaus_version()
}

// Checks a file.
#[unsafe(no_mangle)]
pub extern "C" fn dtaus_check(file: &[u8], res: &mut [u64]) -> u8
    ensures number { result ≡ (checking res.old file.now).verdict.number }
    ensures res { res.new ≡ told (outcome_figures (checking res.old file.now)) res.old }
{
    dtaus::dtaus_check(file, res)
}

// Loads the payments of a file into four columns: C4, C5, C12, and the byte where the payment begins.
#[unsafe(no_mangle)]
pub extern "C" fn dtaus_load(
    file: &[u8],
    c4: &mut [u64],
    c5: &mut [u64],
    c12: &mut [u64],
    start: &mut [u64],
    res: &mut [u64],
) -> u8
    ensures number { result ≡ (loading_with (c4.old ∷ c5.old ∷ c12.old ∷ start.old ∷ []) res.old file.now).verdict.number }
    ensures c4 { c4.new ≡ filled (bank_codes (rows_of result file.now)) c4.old }
    ensures c5 { c5.new ≡ filled (accounts (rows_of result file.now)) c5.old }
    ensures c12 { c12.new ≡ filled (cents (rows_of result file.now)) c12.old }
    ensures start { start.new ≡ filled (starts (rows_of result file.now)) start.old }
    ensures res { res.new ≡ told (outcome_figures (loading_with (c4.old ∷ c5.old ∷ c12.old ∷ start.old ∷ []) res.old file.now)) res.old }
{
    dtaus::dtaus_load(file, c4, c5, c12, start, res)
}

// Checks a medium: one file or more end to end.
#[unsafe(no_mangle)]
pub extern "C" fn dtaus_check_medium(medium: &[u8], res: &mut [u64]) -> u8
    ensures number { result ≡ (checking_medium res.old medium.now).verdict.number }
    ensures res { res.new ≡ told (medium_figures (checking_medium res.old medium.now)) res.old }
{
    dtaus::dtaus_check_medium(medium, res)
}

// Loads the payments of all files of a medium into four columns, as `dtaus_load` does, and the files into the five columns of a table: the byte where
// the file begins, its count, and its sums of C5, C4 and C12.
#[unsafe(no_mangle)]
pub extern "C" fn dtaus_load_medium(
    medium: &[u8],
    c4: &mut [u64],
    c5: &mut [u64],
    c12: &mut [u64],
    start: &mut [u64],
    begin: &mut [u64],
    count: &mut [u64],
    sum5: &mut [u64],
    sum4: &mut [u64],
    sum12: &mut [u64],
    res: &mut [u64],
) -> u8
    ensures number { result ≡ (loading_medium (c4.old ∷ c5.old ∷ c12.old ∷ start.old ∷ []) (begin.old ∷ count.old ∷ sum5.old ∷ sum4.old ∷ sum12.old ∷ []) res.old medium.now).verdict.number }
    ensures c4 { c4.new ≡ filled (bank_codes (all_payments (files_with result medium.now))) c4.old }
    ensures c5 { c5.new ≡ filled (accounts (all_payments (files_with result medium.now))) c5.old }
    ensures c12 { c12.new ≡ filled (cents (all_payments (files_with result medium.now))) c12.old }
    ensures start { start.new ≡ filled (medium_starts 0 (files_with result medium.now)) start.old }
    ensures begin { begin.new ≡ filled (file_starts 0 (files_with result medium.now)) begin.old }
    ensures count { count.new ≡ filled (file_counts (files_with result medium.now)) count.old }
    ensures sum5 { sum5.new ≡ filled (file_accounts (files_with result medium.now)) sum5.old }
    ensures sum4 { sum4.new ≡ filled (file_bank_codes (files_with result medium.now)) sum4.old }
    ensures sum12 { sum12.new ≡ filled (file_cents (files_with result medium.now)) sum12.old }
    ensures res { res.new ≡ told (medium_figures (loading_medium (c4.old ∷ c5.old ∷ c12.old ∷ start.old ∷ []) (begin.old ∷ count.old ∷ sum5.old ∷ sum4.old ∷ sum12.old ∷ []) res.old medium.now)) res.old }
{
    dtaus::dtaus_load_medium(
        medium, c4, c5, c12, start, begin, count, sum5, sum4, sum12, res,
    )
}

// Lists a file into a lent output.
#[unsafe(no_mangle)]
pub extern "C" fn dtaus_list(file: &[u8], output: &mut [u8], res: &mut [u64]) -> u8
    ensures number { result ≡ (written_of (listing_with (length output.old) res.old file.now)).verdict.number }
    ensures output { output.new ≡ filled (written (listing_with (length output.old) res.old file.now)) output.old }
    ensures res { res.new ≡ told (written_figures (written_of (listing_with (length output.old) res.old file.now))) res.old }
{
    dtaus::dtaus_list(file, output, res)
}

// Composes the file of a listing into a lent output.
#[unsafe(no_mangle)]
pub extern "C" fn dtaus_compose(listing: &[u8], output: &mut [u8], res: &mut [u64]) -> u8
    ensures number { result ≡ (written_of (composing_with (length output.old) res.old listing.now)).verdict.number }
    ensures output { output.new ≡ filled (written (composing_with (length output.old) res.old listing.now)) output.old }
    ensures res { res.new ≡ told (written_figures (written_of (composing_with (length output.old) res.old listing.now))) res.old }
{
    dtaus::dtaus_compose(listing, output, res)
}

// Finds payment n of a file, from 0.
#[unsafe(no_mangle)]
pub extern "C" fn dtaus_find(file: &[u8], n: usize, res: &mut [u64]) -> u8
    ensures number { result ≡ (finding_with res.old file.now n).verdict.number }
    ensures res { res.new ≡ told (spot_figures (finding_with res.old file.now n)) res.old }
{
    dtaus::dtaus_find(file, n, res)
}

// Finds a text of the payment that begins at start.
#[unsafe(no_mangle)]
pub extern "C" fn dtaus_text(file: &[u8], start: usize, wanted: usize, res: &mut [u64]) -> u8
    ensures number { result ≡ (locating_with res.old file.now start wanted).verdict.number }
    ensures res { res.new ≡ told (spot_figures (locating_with res.old file.now start wanted)) res.old }
{
    dtaus::dtaus_text(file, start, wanted, res)
}
