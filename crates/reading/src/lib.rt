// Reading from any reader until there is enough or the input ends. All that the programs read comes in through `read_full`, which cannot run out of
// memory; `read_up_to` is for a caller that has a heap.
#![tactic(auto)]

ghost use Rattle.std.specs.Prelude.{◌≡◌, ◌<◌, ◌≤◌, length, take, vec_len, IfOk, IfSome};
ghost use Rattle.std.specs.Io.{ReadsAtMost};
ghost use Rattle.std.specs.Io.KnownBytes.{Consumes, IsAtEnd};

use std::alloc::Global;
use std::io;
use std::io::Read;

// Reads until buf is full or the input ends, and gives back how many bytes it has put at the start of buf.
pub fn read_full<R: Read>(reader: &mut R, buf: &mut [u8]) -> io::Result<usize>
    ensures bound { ReadsAtMost result buf.new }
    ensures input { IfOk result (λ n. IfSome (R.remaining reader.old) (λ input. take n buf.new ≡ take (length buf.new) input)) }
    ensures bytes { IfOk result (λ n. Consumes (R.remaining reader.old) (R.remaining reader.new) (take n buf.new)) }
    ensures end { IfOk result (λ n. n < length buf.new → IsAtEnd (R.remaining reader.new)) }
{
    let mut done = 0;
    // A step goes on by as much as the reader gave, which no range tells.
    while done < buf.len() {
        let n = reader.read(&mut buf[done..])?;
        if n == 0 {
            break;
        }
        done += n;
    }
    Ok(done)
}

// Reads so many bytes, or fewer where the input ends before. std's `read_to_end` of a reader's `take` reads the same, but its contract
// does not bound what it gives of bytes that are not known.
pub fn read_up_to<R: Read>(alloc: Global, reader: &mut R, most: usize) -> io::Result<Vec<u8>>
    ensures bound { IfOk result (λ read. vec_len read ≤ most) }
    ensures input { IfOk result (λ read. IfSome (R.remaining reader.old) (λ input. read.items ≡ take most input)) }
    ensures bytes { IfOk result (λ read. Consumes (R.remaining reader.old) (R.remaining reader.new) read.items) }
    ensures end { IfOk result (λ read. vec_len read < most → IsAtEnd (R.remaining reader.new)) }
{
    let mut read = vec![in alloc; 0u8; most]?;
    let n = read_full(reader, &mut read)?;
    read.truncate(n);
    Ok(read)
}

// No contract can say that there is memory for what is read.
#[cfg(test)]
mod tests {
    use super::*;

    #[test]
    fn reads_up_to_the_end(rt: HostRuntime) {
        let mut input: &[u8] = b"abcdef";
        let first = read_up_to(rt.alloc(), &mut input, 4).expect(&rt, "four bytes");
        let rest = read_up_to(rt.alloc(), &mut input, 4).expect(&rt, "two bytes");
        assert_eq!(rt; first.as_slice(), b"abcd".as_slice());
        assert_eq!(rt; rest.as_slice(), b"ef".as_slice());
    }
}
