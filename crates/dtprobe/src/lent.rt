// What a request has behind its letter: the numbers of its head line, and bytes and columns of the lengths that they tell. All of it is read into
// arrays that are lent: so a request needs nothing of a heap.
ghost use Rattle.std.specs.Prelude.{◌≡◌, IfOk};
ghost use Rattle.std.specs.Io.{ReadsAtMost};

use crate::requests::NoRequest;
use std::io::Read;

// The most bytes of an input, and of a lent output.
pub(crate) const MOST_BYTES: usize = 65536;

// The most rows of a column.
pub(crate) const MOST_ROWS: usize = 256;

// The most numbers of a head line.
pub(crate) const MOST_NUMBERS: usize = 12;

// The bytes of a number of a head line: a blank and six digits.
pub(crate) const NUMBER: usize = 7;

// The largest number of six digits.
const LARGEST: usize = 999999;

// The digits of a row.
const ROW: usize = 17;

// The number that digits tell; None where another sign is among them.
fn number_of(digits: &[u8]) -> Option<u64> {
    digits.iter().try_fold(0u64, |number, sign| {
        let digit = char::from(*sign).to_digit(10)?;
        number.checked_mul(10)?.checked_add(u64::from(digit))
    })
}

// The next N bytes of a request. Where the input ends before, the request is none.
pub(crate) fn read_array<R: Read, const N: usize>(reader: &mut R) -> Result<[u8; N], NoRequest> {
    let mut bytes = [0u8; N];
    let n = reading::read_full(reader, &mut bytes)?;
    if n < N {
        return Err(NoRequest::Bad);
    }
    Ok(bytes)
}

// The next n bytes, to the start of what is lent for them. Where there is no room for them, or the input ends before, the request is none.
fn read_bytes<R: Read>(reader: &mut R, bytes: &mut [u8], n: usize) -> Result<usize, NoRequest>
    ensures in_bytes { ReadsAtMost result bytes.new }
    ensures all { IfOk result (λ count. count ≡ n) }
{
    if n > bytes.len() {
        return Err(NoRequest::Bad);
    }
    let read = reading::read_full(reader, &mut bytes[..n])?;
    if read < n {
        return Err(NoRequest::Bad);
    }
    Ok(n)
}

// The next row of a column: a number in digits, or 0 where they are no digits.
fn read_row<R: Read>(reader: &mut R) -> Result<u64, NoRequest> {
    let digits: [u8; ROW] = read_array(reader)?;
    Ok(number_of(&digits).unwrap_or(0))
}

// The next n rows, to the start of a column. Where it has no room for them, or the input ends before, the request is none.
fn read_rows<R: Read>(reader: &mut R, column: &mut [u64], n: usize) -> Result<usize, NoRequest>
    ensures in_column { ReadsAtMost result column.new }
    ensures all { IfOk result (λ count. count ≡ n) }
{
    if n > column.len() {
        return Err(NoRequest::Bad);
    }
    for row in &mut column[..n] {
        *row = read_row(reader)?;
    }
    Ok(n)
}

// The numbers of a head line, behind its letter: each a blank and six digits. Those that it does not have are 0, and no call asks for them.
pub(crate) fn numbers_in(line: &[u8]) -> Result<[usize; MOST_NUMBERS], NoRequest> {
    let mut numbers = [0; MOST_NUMBERS];
    for (number, text) in numbers.iter_mut().zip(line.chunks_exact(NUMBER)) {
        *number = number_of(&text[1..]).ok_or(NoRequest::Bad)? as usize;
    }
    Ok(numbers)
}

// Where the rest of a request comes from: the numbers of its head line, of which each is taken once, and the reader.
#[derive(Drop)]
pub(crate) struct Source<'a, R> {
    reader: &'a mut R,
    numbers: [usize; MOST_NUMBERS],
    taken: usize,
}

impl<'a, R: Read> Source<'a, R> {
    pub(crate) fn new(reader: &'a mut R, numbers: [usize; MOST_NUMBERS]) -> Source<'a, R> {
        Source {
            reader,
            numbers,
            taken: 0,
        }
    }

    pub(crate) fn number(&mut self) -> Result<usize, NoRequest> {
        let number = self.numbers.get(self.taken).copied().ok_or(NoRequest::Bad)?;
        self.taken += 1;
        Ok(number)
    }

    // A number that is no length: the largest there is stands for the largest of all.
    pub(crate) fn index(&mut self) -> Result<usize, NoRequest> {
        match self.number()? {
            LARGEST => Ok(usize::MAX),
            number => Ok(number),
        }
    }

    // As many bytes as the next number tells, to the start of what is lent for them; it gives back how many they are.
    pub(crate) fn bytes(&mut self, bytes: &mut [u8]) -> Result<usize, NoRequest>
        ensures { ReadsAtMost result bytes.new }
    {
        let n = self.number()?;
        read_bytes(self.reader, bytes, n)
    }

    // As many rows as the next number tells, to the start of a column; it gives back how many they are.
    pub(crate) fn rows(&mut self, column: &mut [u64]) -> Result<usize, NoRequest>
        ensures { ReadsAtMost result column.new }
    {
        let n = self.number()?;
        read_rows(self.reader, column, n)
    }
}
