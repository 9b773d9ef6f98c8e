// The fields of a line by their number behind the letter: where they stand in their record, and how wide.
use crate::{at, line, width};

// A6, which is a text, and A11b, which may be absent.
pub(crate) const A6: usize = 3;

pub(crate) const A11B: usize = 7;

// Where a field stands in its record, and how wide.
#[derive(Clone, Copy)]
pub(crate) struct Span {
    pub(crate) place: usize,
    pub(crate) width: usize,
}

// A3, A4, A5, A6, A7, A9, A10, A11b.
pub(crate) static FIELDS_OF_A: [Span; line::FIELDS_OF_A] = [
    Span {
        place: at::A3,
        width: width::A3,
    },
    Span {
        place: at::A4,
        width: width::A4,
    },
    Span {
        place: at::A5,
        width: width::A5,
    },
    Span {
        place: at::A6,
        width: width::A6,
    },
    Span {
        place: at::A7,
        width: width::A7,
    },
    Span {
        place: at::A9,
        width: width::A9,
    },
    Span {
        place: at::A10,
        width: width::A10,
    },
    Span {
        place: at::A11B,
        width: width::A11B,
    },
];

// C3, C4, C5, C6, C7a, C7b, C10, C11, C12, C14a, C15, C16.
pub(crate) static FIELDS_OF_C: [Span; line::FIELDS_OF_C] = [
    Span {
        place: at::C3,
        width: width::C3,
    },
    Span {
        place: at::C4,
        width: width::C4,
    },
    Span {
        place: at::C5,
        width: width::C5,
    },
    Span {
        place: at::C6,
        width: width::C6,
    },
    Span {
        place: at::C7A,
        width: width::C7A,
    },
    Span {
        place: at::C7B,
        width: width::C7B,
    },
    Span {
        place: at::C10,
        width: width::C10,
    },
    Span {
        place: at::C11,
        width: width::C11,
    },
    Span {
        place: at::C12,
        width: width::C12,
    },
    Span {
        place: at::C14A,
        width: width::C14A,
    },
    Span {
        place: at::C15,
        width: width::C15,
    },
    Span {
        place: at::C16,
        width: width::C16,
    },
];
