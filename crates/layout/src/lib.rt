// Where things stand: the fields of A, C and E in their records, and those of a listing's lines. Every place and every width that the code
// knows is a constant of this crate, and stands here once.
#![tactic(auto)]

ghost use Rattle.std.specs.Prelude.{◌≡◌, ◌*◌, min, true, false};
ghost use Rattle.document.specs.Marks.{most_parts};
ghost use Rattle.diskette.specs.Writing.{section};
ghost use Rattle.listing.specs.Records.{fields_with};
ghost use Rattle.layout.specs.Cells.{cell_at};

pub mod at;
pub mod length;
pub mod line;
mod listed;
mod tables;
pub mod width;

// A field of a line: where it stands in its record and how wide; whether it is a text, which may be shorter in the line, and whether it may be
// absent.
#[derive(Clone, Copy)]
pub struct Cell {
    pub place: usize,
    pub width: usize,
    pub text: bool,
    pub optional: bool,
}

// No field.
const NO_CELL: Cell = Cell {
    place: 0,
    width: 0,
    text: false,
    optional: false,
};

// Field i of the line of A, from 0 behind the letter.
fn header_cell(i: usize) -> Cell
    ensures { result ≡ cell_at true i }
{
    if i >= line::FIELDS_OF_A {
        return NO_CELL;
    }
    let span = tables::FIELDS_OF_A[i];
    Cell {
        place: span.place,
        width: span.width,
        text: i == tables::A6,
        optional: i == tables::A11B,
    }
}

// Where in C the mark of part i stands, from 0: the second section takes 2 parts, the third to fifth 4 each, the sixth 1. 0 where a payment has no
// such part.
// No Option, since its clause and the definition `cell_at` answer so: what is no field has the place 0.
pub fn mark_at(i: usize) -> usize
    ensures { result ≡ (cell_at false (fields_with i)).place }
{
    if i >= length::MOST_PARTS {
        return 0;
    }
    if i < 2 {
        return at::PARTS + width::PART * i;
    }
    length::SHORTEST_C + length::SECTION * ((i - 2) / 4) + width::PART * ((i - 2) % 4)
}

// Field i of the line of a C, from 0 behind the letter: those of every C, then mark and text of each part.
fn payment_cell(i: usize) -> Cell
    ensures { result ≡ cell_at false i }
{
    if i < line::FIELDS_OF_C {
        let span = tables::FIELDS_OF_C[i];
        return Cell {
            place: span.place,
            width: span.width,
            text: i >= line::NUMBERS_OF_C,
            optional: false,
        };
    }
    if i >= line::MOST_FIELDS {
        return NO_CELL;
    }
    let behind = i - line::FIELDS_OF_C;
    let mark = mark_at(behind / 2);
    if behind % 2 == 0 {
        return Cell {
            place: mark,
            width: width::MARK,
            text: false,
            optional: false,
        };
    }
    Cell {
        place: mark + width::MARK,
        width: width::TEXT,
        text: true,
        optional: false,
    }
}

// Field i of the line of A or of a C, from 0 behind the letter. Which of the two is a Boolean here and wherever `head` is passed, since the
// definitions of lines, `cell_at` and `cells_of`, take one.
// Where there is no such field the answer is NO_CELL and no Option, since its clause and the definition `cell_at` answer so.
pub fn cell_at(head: bool, i: usize) -> Cell
    ensures { result ≡ cell_at head i }
{
    if head {
        return header_cell(i);
    }
    payment_cell(i)
}

// The bytes of a C of k parts, or of the most where k is more: a section at a time.
pub fn bytes_of(k: usize) -> usize
    ensures { result ≡ 128 * section (min k most_parts) }
{
    if k <= 2 {
        return length::SHORTEST_C;
    }
    if k >= length::MOST_PARTS {
        return length::LONGEST_C;
    }
    length::SECTION * (3 + (k - 3) / 4)
}
