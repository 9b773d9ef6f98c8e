// That the constants are the layout: each function lists those of one record, or of a payment's line, and by its contract they are the layout's,
// one by one. No call needs them.
ghost use Rattle.std.specs.Prelude.{◌≡◌};
ghost use Rattle.layout.specs.Widths.{widths_of_a, widths_of_c, widths_of_e};
ghost use Rattle.layout.specs.Places.{places_of_a, places_of_c, places_of_e};
ghost use Rattle.layout.specs.Lines.{numbers_of_line};

use crate::{at, line, width};

fn widths_of_a() -> [usize; 14]
    ensures { result ≡ widths_of_a }
{
    [
        width::A1,
        width::A2,
        width::A3,
        width::A4,
        width::A5,
        width::A6,
        width::A7,
        width::A8,
        width::A9,
        width::A10,
        width::A11A,
        width::A11B,
        width::A11C,
        width::A12,
    ]
}

fn places_of_a() -> [usize; 14]
    ensures { result ≡ places_of_a }
{
    [
        at::A1,
        at::A2,
        at::A3,
        at::A4,
        at::A5,
        at::A6,
        at::A7,
        at::A8,
        at::A9,
        at::A10,
        at::A11A,
        at::A11B,
        at::A11C,
        at::A12,
    ]
}

fn widths_of_c() -> [usize; 21]
    ensures { result ≡ widths_of_c }
{
    [
        width::C1,
        width::C2,
        width::C3,
        width::C4,
        width::C5,
        width::C6,
        width::C7A,
        width::C7B,
        width::C8,
        width::C9,
        width::C10,
        width::C11,
        width::C12,
        width::C13,
        width::C14A,
        width::C14B,
        width::C15,
        width::C16,
        width::C17A,
        width::C17B,
        width::C18,
    ]
}

fn places_of_c() -> [usize; 21]
    ensures { result ≡ places_of_c }
{
    [
        at::C1,
        at::C2,
        at::C3,
        at::C4,
        at::C5,
        at::C6,
        at::C7A,
        at::C7B,
        at::C8,
        at::C9,
        at::C10,
        at::C11,
        at::C12,
        at::C13,
        at::C14A,
        at::C14B,
        at::C15,
        at::C16,
        at::C17A,
        at::C17B,
        at::C18,
    ]
}

fn widths_of_e() -> [usize; 9]
    ensures { result ≡ widths_of_e }
{
    [
        width::E1,
        width::E2,
        width::E3,
        width::E4,
        width::E5,
        width::E6,
        width::E7,
        width::E8,
        width::E9,
    ]
}

fn places_of_e() -> [usize; 9]
    ensures { result ≡ places_of_e }
{
    [
        at::E1,
        at::E2,
        at::E3,
        at::E4,
        at::E5,
        at::E6,
        at::E7,
        at::E8,
        at::E9,
    ]
}

fn numbers_of_line() -> [usize; line::NUMBERS_OF_C]
    ensures { result ≡ numbers_of_line }
{
    [
        line::C3,
        line::C4,
        line::C5,
        line::C6,
        line::C7A,
        line::C7B,
        line::C10,
        line::C11,
        line::C12,
    ]
}
