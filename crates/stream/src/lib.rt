// Reading from a reader and writing to a writer of std, so that a failure is told from the end of the input.
// A call that a signal interrupts before it moves a byte is a failure too, since no error is looked into. (A program that handles no signal is not
// interrupted so.)
// Which bytes go out is said of a writer whose bytes are known, as `read_once` says it of a reader: of a call on standard input or output std promises
// only the number of bytes, and `read_all` promises no more.
#![tactic(auto)]

ghost use Rattle.std.specs.Prelude.{◌≡◌, ◌≤◌, length, take};
ghost use Rattle.std.specs.Result.{IfOk, IsErr};
ghost use Rattle.std.specs.Io.KnownBytes.{Appends, ReadConsumes};
ghost use Rattle.stream.specs.Stream.{ReadInto};
ghost use Rattle.stream.specs.inner.Steps.{Stored};

use std::io;
use std::io::{Read, Write};

// Puts the bytes that a read gave at the front of buf, and hands on what the read answered: an error, and nothing else, is a failure. A failure changes
// nothing.
fn store(answer: io::Result<usize>, chunk: &[u8], buf: &mut [u8]) -> io::Result<usize>
    requires { IfOk answer (λ n. (n ≤ length chunk.now) × (n ≤ length buf.old)) }
    ensures told { result ≡ answer }
    ensures stored { Stored answer chunk.now buf.old buf.new }
{
    if let Ok(count) = answer {
        buf[..count].copy_from_slice(&chunk[..count]);
    }
    answer
}

// One read, of at most 4,096 bytes, into the front of buf. No bytes are the end of the input. The bytes come by way of an array, since a reader does
// not promise to leave those after them as they were.
fn read_once<R: Read>(from: &mut R, buf: &mut [u8]) -> io::Result<usize>
    ensures into { ReadInto result buf.old buf.new }
    ensures kept { IsErr result → buf.new ≡ buf.old }
    ensures bytes { ReadConsumes (R.remaining from.old) (R.remaining from.new) result buf.new }
{
    let mut chunk = [0u8; 4096];
    let room = buf.len().min(chunk.len());
    let answer = from.read(&mut chunk[..room]);
    store(answer, &chunk, buf)
}

// Reads until the input ends or buf is full, and counts the bytes, which stand at the front of buf. Those after them are as they were.
// Where a read fails, bytes that came before it may stand at the front.
pub fn read_all<R: Read>(from: &mut R, buf: &mut [u8]) -> io::Result<usize>
    ensures { ReadInto result buf.old buf.new }
{
    let mut done = 0;
    // Kept: the count is what is returned. A `rest` of buf cut short at its front needs buf's length beside it, and a longer proof.
    while done < buf.len() {
        match read_once(from, &mut buf[done..])? {
            0 => break,
            count => done += count,
        }
    }
    Ok(done)
}

// Writes buf until all of it is taken, or a write fails or takes nothing, and counts the bytes that were taken, those at its front: fewer than all only
// where that happened. No `io::Result<()>`: this cannot fail, and a count below the length says that a write did.
pub fn write_all<W: Write>(to: &mut W, buf: &[u8]) -> usize
    ensures count { result ≤ length buf.now }
    ensures bytes { Appends (W.contents to.old) (W.contents to.new) (take result buf.now) }
{
    let mut rest = buf;
    while !rest.is_empty() {
        match to.write(rest) {
            Ok(0) | Err(_) => break,
            Ok(count) => rest = &rest[count..],
        }
    }
    buf.len() - rest.len()
}
