// A program's input and output: all of an input read, all of an output written. A call that a signal interrupts is made again.
#![tactic(auto)]

ghost use Rattle.std.specs.Prelude.{◌≤◌, length};
ghost use Rattle.std.specs.Io.{ReadsAtMost, WritesAtMost};

use std::io::{Error, ErrorKind, Read, Result, Write};

// How often an interrupted call is made at most: more often than a program lives for, so that the loop ends.
const AGAIN: u64 = u64::MAX;

// What one read answers that no signal interrupts.
fn read<R: Read>(from: &mut R, buffer: &mut [u8]) -> Result<usize>
    ensures { ReadsAtMost result buffer.new }
{
    for _ in 0..AGAIN {
        match from.read(buffer) {
            Err(error) if error.kind() == ErrorKind::Interrupted => {}
            answer => return answer,
        }
    }
    Err(Error::from(ErrorKind::Interrupted))
}

// What one write answers that no signal interrupts.
fn write<W: Write>(to: &mut W, bytes: &[u8]) -> Result<usize>
    ensures { WritesAtMost result bytes.now }
{
    for _ in 0..AGAIN {
        match to.write(bytes) {
            Err(error) if error.kind() == ErrorKind::Interrupted => {}
            answer => return answer,
        }
    }
    Err(Error::from(ErrorKind::Interrupted))
}

// Reads until the buffer is full or the input ends, in as many pieces as it comes in; how many bytes came, at the front of the buffer.
pub fn read_all<R: Read>(from: &mut R, buffer: &mut [u8]) -> Result<usize>
    ensures { ReadsAtMost result buffer.new }
{
    let mut done: usize = 0;
    while done < buffer.len() {
        let more = read(from, &mut buffer[done..])?;
        if more == 0 {
            return Ok(done);
        }
        done += more;
    }
    Ok(done)
}

// Writes the bytes, in as many pieces as they are taken in; how many were written, which is fewer than all if a write fails.
pub fn write_all<W: Write>(to: &mut W, bytes: &[u8]) -> usize
    ensures { result ≤ length bytes.now }
{
    let mut written: usize = 0;
    while written < bytes.len() {
        let Ok(more) = write(to, &bytes[written..]) else {
            return written;
        };
        if more == 0 {
            return written;
        }
        written += more;
    }
    written
}

// Writes the bytes to standard output, and says so on standard error if it cannot; how many were written.
pub fn print(rt: &HostRuntime, bytes: &[u8]) -> usize
    ensures { result ≤ length bytes.now }
{
    let printed = write_all(&mut rt.stdout(), bytes);
    if printed < bytes.len() {
        write_all(&mut rt.stderr(), b"cannot write\n");
    }
    printed
}
