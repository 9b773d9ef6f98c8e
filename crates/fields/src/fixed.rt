// The fixed byte strings of the records A, C and E.

// A1, and E1.
pub const LENGTH_128: [u8; 4] = *b"0128";

// A2, C2 and E2.
pub const LETTER_A: [u8; 1] = *b"A";

pub const LETTER_C: [u8; 1] = *b"C";

pub const LETTER_E: [u8; 1] = *b"E";

// A12 and C17a: the file is in euro.
pub const EURO: [u8; 1] = *b"1";
