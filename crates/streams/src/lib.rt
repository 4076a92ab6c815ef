// What the programs share of reading and writing: bytes until a buffer is full or the input ends, and how a program
// ends whose reader has gone.
#![tactic(auto)]

ghost use Rattle.std.specs.Prelude.{◌≡◌, ◌≤◌, ◌<◌, ◌↔◌, length, take, IfOk, IsTrue};
ghost use Rattle.std.specs.IoError.{error_kind};
ghost use Rattle.std.specs.Io.KnownBytes.{Consumes, IsAtEnd};

use std::io;
use std::io::{ErrorKind, Read};

// The status of a program whose lines nobody reads any more: the one that a shell tells of a program that SIGPIPE
// ended. It is no complaint.
pub const READER_GONE: u8 = 141;

// Whether a write failed because whoever read has gone.
pub fn is_reader_gone(error: &io::Error) -> bool
    ensures { IsTrue result ↔ (error_kind error.now ≡ ErrorKind.BrokenPipe) }
{
    error.kind() == ErrorKind::BrokenPipe
}

// Reads until the buffer is full or the input ends, and answers how many bytes came to its front. A read that fails
// ends it.
pub fn read<R: Read>(input: &mut R, buf: &mut [u8]) -> io::Result<usize>
    ensures within { IfOk result (λ n. n ≤ length buf.new) }
    ensures bytes { IfOk result (λ n. Consumes (R.remaining input.old) (R.remaining input.new) (take n buf.new)) }
    ensures end { IfOk result (λ n. n < length buf.new → IsAtEnd (R.remaining input.new)) }
{
    let mut n = 0;
    // No `for`: a read brings as many bytes as it likes, and the library has no read that says how many filled a buffer.
    while n < buf.len() {
        let more = input.read(&mut buf[n..])?;
        if more == 0 {
            return Ok(n);
        }
        n += more;
    }
    Ok(n)
}
