// Where the fields of A, C and E stand, from the first byte of the record: each behind the one before it.
use crate::width;

// The fields of A.
pub const A1: usize = 0;

pub const A2: usize = A1 + width::A1;

pub const A3: usize = A2 + width::A2;

pub const A4: usize = A3 + width::A3;

pub const A5: usize = A4 + width::A4;

pub const A6: usize = A5 + width::A5;

pub const A7: usize = A6 + width::A6;

pub const A8: usize = A7 + width::A7;

pub const A9: usize = A8 + width::A8;

pub const A10: usize = A9 + width::A9;

pub const A11A: usize = A10 + width::A10;

pub const A11B: usize = A11A + width::A11A;

pub const A11C: usize = A11B + width::A11B;

pub const A12: usize = A11C + width::A11C;

// The fields of C; the parts begin behind C18.
pub const C1: usize = 0;

pub const C2: usize = C1 + width::C1;

pub const C3: usize = C2 + width::C2;

pub const C4: usize = C3 + width::C3;

pub const C5: usize = C4 + width::C4;

pub const C6: usize = C5 + width::C5;

pub const C7A: usize = C6 + width::C6;

pub const C7B: usize = C7A + width::C7A;

pub const C8: usize = C7B + width::C7B;

pub const C9: usize = C8 + width::C8;

pub const C10: usize = C9 + width::C9;

pub const C11: usize = C10 + width::C10;

pub const C12: usize = C11 + width::C11;

pub const C13: usize = C12 + width::C12;

pub const C14A: usize = C13 + width::C13;

pub const C14B: usize = C14A + width::C14A;

pub const C15: usize = C14B + width::C14B;

pub const C16: usize = C15 + width::C15;

pub const C17A: usize = C16 + width::C16;

pub const C17B: usize = C17A + width::C17A;

pub const C18: usize = C17B + width::C17B;

pub const PARTS: usize = C18 + width::C18;

// The fields of E.
pub const E1: usize = 0;

pub const E2: usize = E1 + width::E1;

pub const E3: usize = E2 + width::E2;

pub const E4: usize = E3 + width::E3;

pub const E5: usize = E4 + width::E4;

pub const E6: usize = E5 + width::E5;

pub const E7: usize = E6 + width::E6;

pub const E8: usize = E7 + width::E7;

pub const E9: usize = E8 + width::E8;
