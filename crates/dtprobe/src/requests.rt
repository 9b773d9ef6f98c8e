// Reading a request: its head line, the input and the call that it asks for.
use crate::answers;
use crate::lent::{MOST_NUMBERS, NUMBER, Source, numbers_in, read_array};
use finder::Wanted;
use std::io;
use std::io::{Read, Write};

// The bytes of a head line behind its letter: five numbers, for a call over media twelve, and the line end.
const LINE: usize = 5 * NUMBER + 1;

const MEDIUM_LINE: usize = MOST_NUMBERS * NUMBER + 1;

// Why there is no request: there is none of that form, or reading it failed.
#[derive(Debug, Drop)]
pub(crate) enum NoRequest {
    Bad,
    Failed(io::Error),
}

impl From<io::Error> for NoRequest {
    fn from(e: io::Error) -> NoRequest {
        NoRequest::Failed(e)
    }
}

// What is asked for, with the numbers that a head line has for it beside lengths.
#[derive(Clone, Copy)]
pub(crate) enum Call {
    Check,
    CheckMedium,
    Load,
    LoadMedium,
    List,
    Compose,
    Find(usize),
    Locate(usize, Wanted),
    View(usize, Wanted),
}

impl Call {
    // The call of this letter.
    fn read<R: Read>(letter: u8, source: &mut Source<'_, R>) -> Result<Call, NoRequest> {
        match letter {
            b'C' => Ok(Call::Check),
            b'N' => Ok(Call::CheckMedium),
            b'L' => Ok(Call::Load),
            b'O' => Ok(Call::LoadMedium),
            b'P' => Ok(Call::List),
            b'M' => Ok(Call::Compose),
            b'F' => Ok(Call::Find(source.index()?)),
            b'H' => Ok(Call::Locate(source.index()?, wanted(source)?)),
            b'V' => Ok(Call::View(source.index()?, wanted(source)?)),
            _ => Err(NoRequest::Bad),
        }
    }
}

// Which text the head line names: a field by its number, else a part.
fn wanted<R: Read>(source: &mut Source<'_, R>) -> Result<Wanted, NoRequest> {
    let field = source.number()?;
    let part = source.index()?;
    match field {
        14 => Ok(Wanted::C14a),
        15 => Ok(Wanted::C15),
        16 => Ok(Wanted::C16),
        _ => Ok(Wanted::Part(part)),
    }
}

// Reads the next request into what is lent for its input and its output, and answers it; false where there is none behind the last.
pub(crate) fn answer_next<R: Read, W: Write>(
    reader: &mut R,
    writer: &mut W,
    input: &mut [u8],
    out: &mut [u8],
) -> Result<bool, NoRequest> {
    let mut letter = [0u8; 1];
    if reading::read_full(reader, &mut letter)? == 0 {
        return Ok(false);
    }
    let [letter] = letter;
    let numbers = match letter {
        b'N' | b'O' => {
            let line: [u8; MEDIUM_LINE] = read_array(reader)?;
            numbers_in(&line)?
        }
        _ => {
            let line: [u8; LINE] = read_array(reader)?;
            numbers_in(&line)?
        }
    };
    let mut source = Source::new(reader, numbers);
    let n = source.bytes(input)?;
    let call = Call::read(letter, &mut source)?;
    answers::answer(&mut source, writer, call, &input[..n], out)?;
    Ok(true)
}
