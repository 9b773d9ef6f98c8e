// How wide the fields of A, C and E are, in bytes.

// A text.
pub const TEXT: usize = 27;

// An extension part: its mark, then its text.
pub const MARK: usize = 2;

pub const PART: usize = MARK + TEXT;

// The fields of A.
pub const A1: usize = 4;

pub const A2: usize = 1;

pub const A3: usize = 2;

pub const A4: usize = 8;

pub const A5: usize = 8;

pub const A6: usize = TEXT;

pub const A7: usize = 6;

pub const A8: usize = 4;

pub const A9: usize = 10;

pub const A10: usize = 10;

pub const A11A: usize = 15;

pub const A11B: usize = 8;

pub const A11C: usize = 24;

pub const A12: usize = 1;

// The fields of C.
pub const C1: usize = 4;

pub const C2: usize = 1;

pub const C3: usize = 8;

pub const C4: usize = 8;

pub const C5: usize = 10;

pub const C6: usize = 13;

pub const C7A: usize = 2;

pub const C7B: usize = 3;

pub const C8: usize = 1;

pub const C9: usize = 11;

pub const C10: usize = 8;

pub const C11: usize = 10;

pub const C12: usize = 11;

pub const C13: usize = 3;

pub const C14A: usize = TEXT;

pub const C14B: usize = 8;

pub const C15: usize = TEXT;

pub const C16: usize = TEXT;

pub const C17A: usize = 1;

pub const C17B: usize = 2;

pub const C18: usize = 2;

// The fields of E.
pub const E1: usize = 4;

pub const E2: usize = 1;

pub const E3: usize = 5;

pub const E4: usize = 7;

pub const E5: usize = 13;

pub const E6: usize = 17;

pub const E7: usize = 17;

pub const E8: usize = 13;

pub const E9: usize = 51;
