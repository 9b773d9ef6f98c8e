// The lines of a listing: what parts and ends them, how many fields they have, and where the numbers of a payment's line stand.
use crate::width;

// What parts the fields of a line.
pub const TAB: u8 = b'\t';

// What ends a line.
pub const END: u8 = b'\n';

// Where the letter of a line ends: there a tab stands.
pub const LETTER_END: usize = 1;

// Where the first field of a line stands: behind the letter and the tab.
pub const FIRST: usize = LETTER_END + 1;

// How many fields stand behind the letter in the line of A.
pub const FIELDS_OF_A: usize = 8;

// How many fields of a payment's line have their full width: its numbers, which come first.
pub const NUMBERS_OF_C: usize = 9;

// How many fields stand behind the letter in the line of a payment without parts.
pub const FIELDS_OF_C: usize = 12;

// How many fields stand behind the letter in the line of a payment with the most parts.
pub const MOST_FIELDS: usize = FIELDS_OF_C + 2 * crate::length::MOST_PARTS;

// Where the numbers of a payment's line stand, from the line's first byte, and where each ends: there a tab stands, and the next is behind it.
pub const C3: usize = FIRST;

pub const C3_END: usize = C3 + width::C3;

pub const C4: usize = C3_END + 1;

pub const C4_END: usize = C4 + width::C4;

pub const C5: usize = C4_END + 1;

pub const C5_END: usize = C5 + width::C5;

pub const C6: usize = C5_END + 1;

pub const C6_END: usize = C6 + width::C6;

pub const C7A: usize = C6_END + 1;

pub const C7A_END: usize = C7A + width::C7A;

pub const C7B: usize = C7A_END + 1;

pub const C7B_END: usize = C7B + width::C7B;

pub const C10: usize = C7B_END + 1;

pub const C10_END: usize = C10 + width::C10;

pub const C11: usize = C10_END + 1;

pub const C11_END: usize = C11 + width::C11;

pub const C12: usize = C11_END + 1;

pub const C12_END: usize = C12 + width::C12;

// Where the texts of a payment's line begin.
pub const TEXTS: usize = C12_END + 1;
