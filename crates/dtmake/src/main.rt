// Reads a listing on standard input and prints the file composed from it, or its refusal: number, tab, place.
#![tactic(auto)]

ghost use Rattle.std.specs.Prelude.{◌≡◌, take, IfSome, OnOk};
ghost use Rattle.std.specs.Io.KnownBytes.{Appends};
ghost use Rattle.reply.specs.Reply.{make_reply};

use std::io;
use std::io::{Read, Write};

// The bytes of the input and of the output: of a longer input no more are read.
const ROOM: usize = 65536;

// No contract can say which bytes reach standard output. That the reply to what was read is handed to the writer is said here.
fn print<W: Write>(writer: &mut W, input: &[u8], reply: &[u8]) -> io::Result<()>
    requires { reply.now ≡ make_reply 65536 input.now }
    ensures { OnOk result (Appends (W.contents writer.old) (W.contents writer.new) (make_reply 65536 input.now)) }
{
    writer.write_all(reply)
}

// Prints the reply to what the reader gives. dtlist has these lines with `reply::list`: one function for both would be passed the call, and would
// have to require that it may be called, but no function requires anything of another crate; a trait over both is longer than these lines.
fn serve<R: Read, W: Write>(reader: &mut R, writer: &mut W) -> io::Result<()>
    ensures { OnOk result (IfSome (R.remaining reader.old) (λ input. Appends (W.contents writer.old) (W.contents writer.new) (make_reply 65536 (take 65536 input)))) }
{
    // An array and no vector, so that nothing can fail but a read or a write.
    let mut input = [0u8; ROOM];
    let n = reading::read_full(reader, &mut input)?;
    // The library has no heap: it writes into what it is lent, and gives back the length.
    let mut out = [0u8; ROOM];
    let length = reply::make(&input[..n], &mut out);
    print(writer, &input[..n], &out[..length])
}

fn main(rt: HostRuntime) -> io::Result<()> {
    serve(&mut rt.stdin(), &mut rt.stdout())
}
