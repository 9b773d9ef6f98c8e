// Loading a file, or a medium of files: it is checked, then the room in the columns, and only then are rows written.
#![tactic(auto)]

ghost use Rattle.std.specs.Prelude.{true, Some, ◌≡◌, ◌+◌, ◌≤◌, [], ◌∷◌, length, take, drop, T};
ghost use Rattle.std.proofs.lemmas.List.Edits.{sets};
ghost use Rattle.form.specs.Kind.{every, digit};
ghost use Rattle.form.specs.Reader.{number};
ghost use Rattle.form.specs.Place.{read_at};
ghost use Rattle.verdict.specs.Lent.{filled};
ghost use Rattle.document.specs.Medium.{all_payments};
ghost use Rattle.diskette.specs.Fields.{document};
ghost use Rattle.diskette.specs.Answer.{answer, payments_of};
ghost use Rattle.diskette.specs.Medium.{medium_answer, files_of};
ghost use Rattle.checker.specs.Checking.{checked_of};
ghost use Rattle.loader.specs.Columns.{bank_codes, accounts, cents, starts_in, starts};
ghost use Rattle.loader.specs.Loading.{have_room, loading, rows};
ghost use Rattle.medium.specs.Checking.{medium_checked_of};
ghost use Rattle.loader.specs.Filling.{Within, plus, payments_read, rows_read, Fillable};
ghost use Rattle.loader.specs.Medium.{medium_starts, file_starts, file_counts, file_accounts, file_bank_codes, file_cents, medium_loading, files_loaded, MediumFillable};

use checker::Checked;
use fields::refusals;
use layout::{at, length, width};
use medium::MediumChecked;
use sums::Sums;

// The number of w digits at p. The file has been accepted, so they are not tested again.
fn known_number(s: &[u8], p: usize, w: usize) -> u64
    requires { (p + w ≤ length s.now) × ((w ≤ 17) × T (every digit (take w (drop p s.now)))) }
    ensures { result ≡ number (take w (drop p s.now)) }
{
    let mut v: u64 = 0;
    for digit in &s[p..p + w] {
        v = v * 10 + (u64::from(*digit) - u64::from(b'0'));
    }
    v
}

// What the payments of one file come to, and the place behind its E.
#[derive(Clone, Copy)]
struct FileRows {
    count: u64,
    sums: Sums,
    next: usize,
}

// The sums with the numbers of one payment more. The file has been accepted, so none of them goes over its limit.
fn added(sums: Sums, account: u64, code: u64, amount: u64) -> Option<Sums>
    requires { Within (plus sums account code amount) }
    ensures { result ≡ Some (plus sums account code amount) }
{
    Some(Sums {
        accounts: sums.accounts.add(account)?,
        banks: sums.banks.add(code)?,
        cents: sums.cents.add(amount)?,
    })
}

// The same, taken out: there always are such sums, so those that stand for none are never given.
fn plus_payment(sums: Sums, account: u64, code: u64, amount: u64) -> Sums
    requires { Within (plus sums account code amount) }
    ensures { result ≡ plus sums account code amount }
{
    added(sums, account, code, amount).unwrap_or(sums::NO_SUMS)
}

// Writes the rows of the accepted file of a medium that begins at a place, from a row on: from one payment to the next, until E comes. Where the next
// payment stands hangs on C18 of this one, and E alone ends them, so no range tells the places.
fn fill_file(
    s: &[u8],
    begin: usize,
    row: usize,
    c4: &mut [u64],
    c5: &mut [u64],
    c12: &mut [u64],
    start: &mut [u64],
) -> FileRows
    requires { Fillable s.now begin row (c4.old ∷ c5.old ∷ c12.old ∷ start.old ∷ []) }
    ensures answer { result ≡ rows_read (read_at document s.now begin) }
    ensures c4 { c4.new ≡ sets c4.old row (bank_codes (payments_read (read_at document s.now begin))) }
    ensures c5 { c5.new ≡ sets c5.old row (accounts (payments_read (read_at document s.now begin))) }
    ensures c12 { c12.new ≡ sets c12.old row (cents (payments_read (read_at document s.now begin))) }
    ensures start { start.new ≡ sets start.old row (starts_in begin (payments_read (read_at document s.now begin))) }
{
    let mut p = begin + length::A;
    let mut i = row;
    let mut count: u64 = 0;
    let mut sums = sums::NO_SUMS;
    while s[p + at::C2] == b'C' {
        let bank_code = known_number(s, p + at::C4, width::C4);
        let account = known_number(s, p + at::C5, width::C5);
        let amount = known_number(s, p + at::C12, width::C12);
        let k = parts::count_at(s, p);
        c4[i] = bank_code;
        c5[i] = account;
        c12[i] = amount;
        start[i] = p as u64;
        sums = plus_payment(sums, account, bank_code, amount);
        p += layout::bytes_of(k);
        i += 1;
        count += 1;
    }
    FileRows {
        count,
        sums,
        next: p + length::E,
    }
}

// Writes the rows of the n payments of an accepted file. The check has counted them, and has their sums: `fill_file` would add these up again.
fn fill(s: &[u8], n: usize, c4: &mut [u64], c5: &mut [u64], c12: &mut [u64], start: &mut [u64])
    requires { (n ≡ length (payments_of (answer s.now))) × (have_room n (c4.old ∷ c5.old ∷ c12.old ∷ start.old ∷ []) ≡ true) }
    ensures c4 { c4.new ≡ filled (bank_codes (payments_of (answer s.now))) c4.old }
    ensures c5 { c5.new ≡ filled (accounts (payments_of (answer s.now))) c5.old }
    ensures c12 { c12.new ≡ filled (cents (payments_of (answer s.now))) c12.old }
    ensures start { start.new ≡ filled (starts (payments_of (answer s.now))) start.old }
{
    let mut p = length::A;
    // Where the next payment stands hangs on C18 of this one: the range counts them.
    for row in 0..n {
        let bank_code = known_number(s, p + at::C4, width::C4);
        let account = known_number(s, p + at::C5, width::C5);
        let amount = known_number(s, p + at::C12, width::C12);
        let k = parts::count_at(s, p);
        c4[row] = bank_code;
        c5[row] = account;
        c12[row] = amount;
        start[row] = p as u64;
        p += layout::bytes_of(k);
    }
}

// Loads the payments of a file into four columns: C4, C5, C12, and the byte where the payment begins.
pub fn load(s: &[u8], c4: &mut [u64], c5: &mut [u64], c12: &mut [u64], start: &mut [u64]) -> Checked
    ensures answer { result ≡ checked_of (loading (c4.old ∷ c5.old ∷ c12.old ∷ start.old ∷ []) (answer s.now)) }
    ensures c4 { c4.new ≡ filled (bank_codes (rows result s.now)) c4.old }
    ensures c5 { c5.new ≡ filled (accounts (rows result s.now)) c5.old }
    ensures c12 { c12.new ≡ filled (cents (rows result s.now)) c12.old }
    ensures start { start.new ≡ filled (starts (rows result s.now)) start.old }
{
    let checked = checker::check(s);
    if checked.verdict.number != 0 {
        return checked;
    }
    let n = checked.count as usize;
    let roomy = (n <= c4.len()) & ((n <= c5.len()) & ((n <= c12.len()) & (n <= start.len())));
    if !roomy {
        return Checked::from(fields::refuse(refusals::NO_ROOM, 0));
    }
    fill(s, n, c4, c5, c12, start);
    checked
}

// Writes the rows of all files of an accepted medium, and for each file its row of the table. Where the next file begins hangs on what this one
// held, so no range tells the places. The columns stand apart, as C lends them: in a struct, `fill_file` and this would owe for each column a clause
// more, that the struct keeps its reference.
fn fill_medium(
    s: &[u8],
    c4: &mut [u64],
    c5: &mut [u64],
    c12: &mut [u64],
    start: &mut [u64],
    begin: &mut [u64],
    count: &mut [u64],
    sum5: &mut [u64],
    sum4: &mut [u64],
    sum12: &mut [u64],
)
    requires { MediumFillable s.now (c4.old ∷ c5.old ∷ c12.old ∷ start.old ∷ []) (begin.old ∷ count.old ∷ sum5.old ∷ sum4.old ∷ sum12.old ∷ []) }
    ensures c4 { c4.new ≡ sets c4.old 0 (bank_codes (all_payments (files_of (medium_answer s.now)))) }
    ensures c5 { c5.new ≡ sets c5.old 0 (accounts (all_payments (files_of (medium_answer s.now)))) }
    ensures c12 { c12.new ≡ sets c12.old 0 (cents (all_payments (files_of (medium_answer s.now)))) }
    ensures start { start.new ≡ sets start.old 0 (medium_starts 0 (files_of (medium_answer s.now))) }
    ensures begin { begin.new ≡ sets begin.old 0 (file_starts 0 (files_of (medium_answer s.now))) }
    ensures count { count.new ≡ sets count.old 0 (file_counts (files_of (medium_answer s.now))) }
    ensures sum5 { sum5.new ≡ sets sum5.old 0 (file_accounts (files_of (medium_answer s.now))) }
    ensures sum4 { sum4.new ≡ sets sum4.old 0 (file_bank_codes (files_of (medium_answer s.now))) }
    ensures sum12 { sum12.new ≡ sets sum12.old 0 (file_cents (files_of (medium_answer s.now))) }
{
    let mut p = 0;
    let mut row = 0;
    let mut file = 0;
    while p < s.len() {
        let rows = fill_file(s, p, row, c4, c5, c12, start);
        begin[file] = p as u64;
        count[file] = rows.count;
        sum5[file] = rows.sums.accounts.0;
        sum4[file] = rows.sums.banks.0;
        sum12[file] = rows.sums.cents.0;
        p = rows.next;
        row += rows.count as usize;
        file += 1;
    }
}

// Loads the payments of all files of a medium into four columns, as a file's are, with starts from the medium's first byte; and of each file the
// byte where it begins, its count and its sums of C5, C4 and C12, in the order of E, into the five columns of a table.
pub fn load_medium(
    s: &[u8],
    c4: &mut [u64],
    c5: &mut [u64],
    c12: &mut [u64],
    start: &mut [u64],
    begin: &mut [u64],
    count: &mut [u64],
    sum5: &mut [u64],
    sum4: &mut [u64],
    sum12: &mut [u64],
) -> MediumChecked
    ensures answer { result ≡ medium_checked_of (medium_loading (c4.old ∷ c5.old ∷ c12.old ∷ start.old ∷ [])
        (begin.old ∷ count.old ∷ sum5.old ∷ sum4.old ∷ sum12.old ∷ []) (medium_answer s.now)) }
    ensures c4 { c4.new ≡ filled (bank_codes (all_payments (files_loaded result s.now))) c4.old }
    ensures c5 { c5.new ≡ filled (accounts (all_payments (files_loaded result s.now))) c5.old }
    ensures c12 { c12.new ≡ filled (cents (all_payments (files_loaded result s.now))) c12.old }
    ensures start { start.new ≡ filled (medium_starts 0 (files_loaded result s.now)) start.old }
    ensures begin { begin.new ≡ filled (file_starts 0 (files_loaded result s.now)) begin.old }
    ensures count { count.new ≡ filled (file_counts (files_loaded result s.now)) count.old }
    ensures sum5 { sum5.new ≡ filled (file_accounts (files_loaded result s.now)) sum5.old }
    ensures sum4 { sum4.new ≡ filled (file_bank_codes (files_loaded result s.now)) sum4.old }
    ensures sum12 { sum12.new ≡ filled (file_cents (files_loaded result s.now)) sum12.old }
{
    let medium_checked = medium::check_medium(s);
    if medium_checked.verdict.number != 0 {
        return medium_checked;
    }
    let payments = medium_checked.payments as usize;
    let files = medium_checked.files as usize;
    let amounts = (payments <= c12.len()) & (payments <= start.len());
    let columns = (payments <= c4.len()) & ((payments <= c5.len()) & amounts);
    let sums = (files <= sum5.len()) & ((files <= sum4.len()) & (files <= sum12.len()));
    let table = (files <= begin.len()) & ((files <= count.len()) & sums);
    if !(columns & table) {
        return MediumChecked::from(fields::refuse(refusals::NO_ROOM, 0));
    }
    fill_medium(s, c4, c5, c12, start, begin, count, sum5, sum4, sum12);
    medium_checked
}
