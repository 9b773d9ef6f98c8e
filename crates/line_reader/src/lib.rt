// A payment's line read in one walk, straight from the listing, with no record laid out. Where composing makes no payment of the line the answer
// is no, and the fault is named by the reading that lays out the record. The fields are those that `payment_fields` reads in a file. They are read
// here by functions of their own for speed: no record is laid out for them (docs/DECISIONS.md, B-57), and those of the check, called from here too,
// would no longer be built into it (B-59).
#![tactic(auto)]

ghost use Rattle.std.specs.Prelude.{◌≡◌, ◌+◌, ◌≤◌, length, drop};
ghost use Rattle.layout.specs.Lines.{tab_of_texts};
ghost use Rattle.fields.specs.Answers.{letters_of};
ghost use Rattle.document.specs.Signs.{sign};
ghost use Rattle.sums.specs.Sums.{totals_of};
ghost use Rattle.listing.specs.Lines.{line_end, split};
ghost use Rattle.line_reader.specs.Lines.{parted, Receivers, Amounts, Numbers, signs_end, Texts, Names, OnePart, AllParts};
ghost use Rattle.line_reader.specs.Told.{line_seen};

use fields::{FileKind, fixed};
use layout::{line, width};
use sums::{AccountSum, BankCodeSum, CentSum, Sums};

pub mod reaching;

// The letter of a payment's line.
const LETTER: u8 = fixed::LETTER_C[0];

// The permitted signs of the 64 bytes from the blank on, a bit for each by its last six bits. The sharp s stands behind them.
const SIGNS: u64 = 0x03FF_FC71_3FFF_FFFE;

// What is seen of a payment's line: the sums with the payment, its bytes in the file, and the place behind its line.
#[derive(Clone, Copy)]
pub struct SeenLine {
    pub sums: Sums,
    pub bytes: usize,
    pub next: usize,
}

// The letter at p, and tabs behind it and behind each number but the last. This and the next two are steps of `numbers_at`, which tests once that
// they may look so far. A struct of the listing and p, with that for an invariant, would be one more name for what three lines say.
fn parted(l: &[u8], p: usize) -> bool
    requires { p + tab_of_texts ≤ length l.now }
    ensures { result ≡ parted l.now p }
{
    let letter = (l[p] == LETTER) & (l[p + line::LETTER_END] == line::TAB);
    let receiver = (l[p + line::C3_END] == line::TAB)
        & (l[p + line::C4_END] == line::TAB)
        & (l[p + line::C5_END] == line::TAB);
    let keys = (l[p + line::C6_END] == line::TAB)
        & (l[p + line::C7A_END] == line::TAB)
        & (l[p + line::C7B_END] == line::TAB);
    let amount = (l[p + line::C10_END] == line::TAB) & (l[p + line::C11_END] == line::TAB);
    (letter & receiver) & (keys & amount)
}

// C3 to C7b of the line at p: the sums with its account number and bank code.
fn receiver_at(
    l: &[u8],
    p: usize,
    kind: FileKind,
    accounts: AccountSum,
    banks: BankCodeSum,
) -> Option<(AccountSum, BankCodeSum)>
    requires { p + tab_of_texts ≤ length l.now }
    ensures { Receivers l.now p (letters_of kind) accounts.0 banks.0 result }
{
    fields::number_at(l, p + line::C3, width::C3).ok()?;
    let (bank_code, _) = fields::number_at(l, p + line::C4, width::C4).ok()?;
    let (account, _) = fields::number_at(l, p + line::C5, width::C5).ok()?;
    let (customer, _) = fields::number_at(l, p + line::C6, width::C6).ok()?;
    let (key, _) = fields::number_at(l, p + line::C7A, width::C7A).ok()?;
    let (supplement, _) = fields::number_at(l, p + line::C7B, width::C7B).ok()?;
    let receiver = payment_fields::bank_code_ok(bank_code) & (account != 0);
    let keys = payment_fields::key_ok(kind, key) & payment_fields::supplement_ok(key, supplement);
    if !(receiver & payment_fields::customer_ok(customer) & keys) {
        return None;
    }
    let new_accounts = accounts.add(account)?;
    let new_banks = banks.add(bank_code)?;
    Some((new_accounts, new_banks))
}

// C10 to C12 of the line at p: the sum with its cents.
fn amount_at(l: &[u8], p: usize, cents: CentSum) -> Option<CentSum>
    requires { p + tab_of_texts ≤ length l.now }
    ensures { Amounts l.now p cents.0 result }
{
    let (bank_code, _) = fields::number_at(l, p + line::C10, width::C10).ok()?;
    let (account, _) = fields::number_at(l, p + line::C11, width::C11).ok()?;
    let (v, _) = fields::number_at(l, p + line::C12, width::C12).ok()?;
    let sender = payment_fields::bank_code_ok(bank_code) & (account != 0);
    if !(sender & (v != 0)) {
        return None;
    }
    cents.add(v)
}

// All numbers of the line at p, and the tabs between them: the sums with these numbers.
fn numbers_at(l: &[u8], p: usize, kind: FileKind, sums: Sums) -> Option<Sums>
    ensures { Numbers l.now p (letters_of kind) sums result }
{
    if !fields::whole(l.len(), p, line::C12_END) {
        return None;
    }
    if !parted(l, p) {
        return None;
    }
    let (accounts, banks) = receiver_at(l, p, kind, sums.accounts, sums.banks)?;
    let cents = amount_at(l, p, sums.cents)?;
    Some(Sums {
        accounts,
        banks,
        cents,
    })
}

// Whether b is a permitted sign. Here bytes are tried one by one, and one look at the bits is less than the three ranges and two signs of
// `fields` (docs/DECISIONS.md, B-58).
fn is_sign(b: u8) -> bool
    ensures { result ≡ sign b }
{
    let in_word = (SIGNS >> (b & 63)) & 1 == 1;
    (in_word & ((b >= 0x20) & (b < 0x60))) | (b == b'~')
}

// Where the permitted signs from p on end, as many as a text has at the most.
fn signs_end(l: &[u8], p: usize) -> usize
    requires { p ≤ length l.now }
    ensures { result ≡ signs_end l.now p }
{
    let end = l.len().min(p + width::TEXT);
    for i in p..end {
        if !is_sign(l[i]) {
            return i;
        }
    }
    end
}

// The tab at q and the text behind it: the place behind the text. A text that is empty is told from one that ends in a blank by its tab.
fn text_at(l: &[u8], q: usize) -> Option<usize>
    ensures { Texts l.now q result }
{
    if q >= l.len() {
        return None;
    }
    if l[q] != line::TAB {
        return None;
    }
    let e = signs_end(l, q + 1);
    if l[e - 1] == b' ' {
        return None;
    }
    Some(e)
}

// C14a, C15 and C16, each from its tab on, the first at q: the place behind the three. The first two are not empty.
fn names_at(l: &[u8], q: usize) -> Option<usize>
    ensures { Names l.now q result }
{
    let tab_of_c15 = text_at(l, q)?;
    if tab_of_c15 - q < 2 {
        return None;
    }
    let tab_of_c16 = text_at(l, tab_of_c15)?;
    if tab_of_c16 - tab_of_c15 < 2 {
        return None;
    }
    text_at(l, tab_of_c16)
}

// A part, the tab of its mark at q, where so many parts may still stand, this one among them: its mark, and the place behind the part.
fn part_at(l: &[u8], q: usize, room: u64) -> Option<(u64, usize)>
    requires { q + 1 ≤ length l.now }
    ensures { OnePart l.now q room result }
{
    if l[q] != line::TAB {
        return None;
    }
    let (mark, behind) = fields::number_at(l, q + 1, width::MARK).ok()?;
    if !parts::mark_ok(room, mark) {
        return None;
    }
    let e = text_at(l, behind)?;
    Some((mark, e))
}

// The parts from `start` on, up to the line's end: how many there are, and where the line ends. A step goes on by a part, and not by one, so this
// is no `for`.
fn parts_from(l: &[u8], start: usize) -> Option<(usize, usize)>
    ensures { AllParts l.now start result }
{
    let mut q = start;
    let mut k = 0;
    let mut room: u64 = parts::MOST_PARTS;
    while q < l.len() {
        if l[q] == line::END {
            return Some((k, q));
        }
        let (mark, e) = part_at(l, q, room)?;
        room = parts::room_after(mark, room);
        k += 1;
        q = e;
    }
    None
}

// The payment whose line begins at p, in a file of this kind, after so many payments that come to these sums.
pub fn read_line(l: &[u8], p: usize, kind: FileKind, count: u64, sums: Sums) -> Option<SeenLine>
    ensures { result ≡ line_seen (letters_of kind) (totals_of count sums) sums p (split line_end (drop p l.now)) }
{
    if count >= payment::MOST_PAYMENTS {
        return None;
    }
    let new_sums = numbers_at(l, p, kind, sums)?;
    let first = names_at(l, p + line::C12_END)?;
    let (k, e) = parts_from(l, first)?;
    let seen = SeenLine {
        sums: new_sums,
        bytes: layout::bytes_of(k),
        next: e + 1,
    };
    Some(seen)
}
