// The call that a request asks for: what is lent is read, the call is made on it and on the input, and its answer printed.
use crate::lent::{MOST_ROWS, Source};
use crate::printing;
use crate::requests::{Call, NoRequest};
use output::Written;
use std::io::{Read, Write};

// Loads a file into the lent columns, and prints what every one of them then holds. It is not inlined, nor is the load of a medium, so that no other
// call has their columns on its stack.
#[inline(never)]
fn load<R: Read, W: Write>(
    source: &mut Source<'_, R>,
    writer: &mut W,
    input: &[u8],
) -> Result<(), NoRequest> {
    let mut c4 = [0u64; MOST_ROWS];
    let mut c5 = [0u64; MOST_ROWS];
    let mut c12 = [0u64; MOST_ROWS];
    let mut start = [0u64; MOST_ROWS];
    let a = source.rows(&mut c4)?;
    let b = source.rows(&mut c5)?;
    let c = source.rows(&mut c12)?;
    let d = source.rows(&mut start)?;
    let checked = loader::load(
        input,
        &mut c4[..a],
        &mut c5[..b],
        &mut c12[..c],
        &mut start[..d],
    );
    printing::outcome(writer, checked)?;
    printing::rows(writer, &c4[..a])?;
    printing::rows(writer, &c5[..b])?;
    printing::rows(writer, &c12[..c])?;
    printing::rows(writer, &start[..d])?;
    Ok(())
}

// Loads a medium into the lent columns and the lent table, and prints what every one of them then holds.
fn load_medium_into<W: Write>(
    writer: &mut W,
    input: &[u8],
    c4: &mut [u64],
    c5: &mut [u64],
    c12: &mut [u64],
    start: &mut [u64],
    begin: &mut [u64],
    count: &mut [u64],
    sum5: &mut [u64],
    sum4: &mut [u64],
    sum12: &mut [u64],
) -> Result<(), NoRequest> {
    let checked = loader::load_medium(input, c4, c5, c12, start, begin, count, sum5, sum4, sum12);
    printing::medium(writer, checked)?;
    printing::rows(writer, c4)?;
    printing::rows(writer, c5)?;
    printing::rows(writer, c12)?;
    printing::rows(writer, start)?;
    printing::rows(writer, begin)?;
    printing::rows(writer, count)?;
    printing::rows(writer, sum5)?;
    printing::rows(writer, sum4)?;
    printing::rows(writer, sum12)?;
    Ok(())
}

// Reads the columns and the table that are lent, and loads a medium into them.
#[inline(never)]
fn load_medium<R: Read, W: Write>(
    source: &mut Source<'_, R>,
    writer: &mut W,
    input: &[u8],
) -> Result<(), NoRequest> {
    let mut c4 = [0u64; MOST_ROWS];
    let mut c5 = [0u64; MOST_ROWS];
    let mut c12 = [0u64; MOST_ROWS];
    let mut start = [0u64; MOST_ROWS];
    let mut begin = [0u64; MOST_ROWS];
    let mut count = [0u64; MOST_ROWS];
    let mut sum5 = [0u64; MOST_ROWS];
    let mut sum4 = [0u64; MOST_ROWS];
    let mut sum12 = [0u64; MOST_ROWS];
    let a = source.rows(&mut c4)?;
    let b = source.rows(&mut c5)?;
    let c = source.rows(&mut c12)?;
    let d = source.rows(&mut start)?;
    let e = source.rows(&mut begin)?;
    let f = source.rows(&mut count)?;
    let g = source.rows(&mut sum5)?;
    let h = source.rows(&mut sum4)?;
    let i = source.rows(&mut sum12)?;
    load_medium_into(
        writer,
        input,
        &mut c4[..a],
        &mut c5[..b],
        &mut c12[..c],
        &mut start[..d],
        &mut begin[..e],
        &mut count[..f],
        &mut sum5[..g],
        &mut sum4[..h],
        &mut sum12[..i],
    )
}

// Lists or composes into the lent output, and prints what it then holds.
fn write_into<R: Read, W: Write, F: FnOnce(&[u8], &mut [u8]) -> Written>(
    source: &mut Source<'_, R>,
    writer: &mut W,
    call: F,
    input: &[u8],
    out: &mut [u8],
) -> Result<(), NoRequest>
    requires { F.IsAlwaysCallable call }
{
    let n = source.bytes(out)?;
    let written = call(input, &mut out[..n]);
    printing::written(writer, written, &out[..n])?;
    Ok(())
}

pub(crate) fn answer<R: Read, W: Write>(
    source: &mut Source<'_, R>,
    writer: &mut W,
    call: Call,
    input: &[u8],
    out: &mut [u8],
) -> Result<(), NoRequest> {
    match call {
        Call::Check => printing::outcome(writer, checker::check(input))?,
        Call::CheckMedium => printing::medium(writer, medium::check_medium(input))?,
        Call::Load => load(source, writer, input)?,
        Call::LoadMedium => load_medium(source, writer, input)?,
        Call::List => write_into(source, writer, lister::list, input, out)?,
        Call::Compose => write_into(source, writer, composer::compose, input, out)?,
        Call::Find(payment) => printing::spot(writer, finder::find(input, payment))?,
        Call::Locate(start, text) => printing::spot(writer, finder::locate(input, start, text))?,
        Call::View(payment, text) => {
            let verdict = view::verdict_of(input, payment, text);
            printing::text(writer, verdict, view::text_of(input, payment, text))?
        }
    }
    Ok(())
}
