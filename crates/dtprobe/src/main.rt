// A program for tests: reads requests from standard input, makes each call of the library with just the slices that the request lends, and
// prints the call's whole result and what every lent slice holds afterwards. crates/dtprobe/README.md has the form of requests and answers.
#![tactic(auto)]

use crate::lent::MOST_BYTES;
use crate::requests::NoRequest;
use std::io;
use std::io::{BufReader, BufWriter, Read, Write};

mod answers;
mod lent;
mod printing;
mod requests;

// Answers the requests up to the end of the input. A proved loop has to end, and nothing says that the requests do. So it counts its turns, up to
// a number that no run comes to. What is asked next may rest on an answer: each is out before the next request is read.
fn answer_all<R: Read, W: Write>(
    reader: &mut R,
    writer: &mut W,
    input: &mut [u8],
    out: &mut [u8],
) -> Result<(), NoRequest> {
    for _ in 0..u64::MAX {
        if !requests::answer_next(reader, writer, input, out)? {
            break;
        }
        writer.flush()?;
    }
    Ok(())
}

// Answers the requests, up to one that is none.
fn serve<R: Read, W: Write>(
    reader: &mut R,
    writer: &mut W,
    input: &mut [u8],
    out: &mut [u8],
) -> io::Result<()> {
    match answer_all(reader, writer, input, out) {
        Ok(()) => Ok(()),
        Err(NoRequest::Failed(e)) => Err(e),
        Err(NoRequest::Bad) => {
            writer.write_all(b"bad request\n")?;
            writer.flush()
        }
    }
}

fn main(rt: HostRuntime) -> io::Result<()> {
    let mut input = [0u8; MOST_BYTES];
    let mut out = [0u8; MOST_BYTES];
    let mut reader = BufReader::new(rt.alloc(), rt.stdin())?;
    let mut writer = BufWriter::new(rt.alloc(), rt.stdout())?;
    serve(&mut reader, &mut writer, &mut input, &mut out)
}
