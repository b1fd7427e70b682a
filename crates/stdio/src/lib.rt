// Standard input and output, nothing lost without a word; and whether there is an argument.
//
// What standard input gives and standard output takes is no fact of the logic. A read that fails because a signal interrupts
// it counts as failed: the programs catch no signal, so none does.
#![tactic(auto)]

ghost use Rattle.std.specs.Prelude.{◌≡◌, ◌<◌, ◌≤◌, length, take, true, IfOk, OnErr};
ghost use Rattle.std.specs.Io.KnownBytes.{Consumes, IsAtEnd};
ghost use Rattle.stdio.specs.Input.{reader_of, has_failed, input_of};

use std::env::{Env, FillError};
use std::io;
use std::io::Read;

// Whether the program was started with an argument at a place; its name stands at 0. Which there are is no fact of the logic.
pub fn has_argument(rt: &HostRuntime, at: usize) -> bool {
    !matches!(rt.arg(at, &mut [0u8; 1]), Err(FillError::NotPresent))
}

// A reader, and whether a read of it has failed.
#[derive(Drop)]
pub struct Input<R> {
    reader: R,
    failed: bool,
}

impl<R: Read> Input<R> {
    pub fn new(reader: R) -> Input<R>
        ensures { result ≡ input_of reader }
    {
        Input {
            reader,
            failed: false,
        }
    }

    // Reads into a buffer until that is full, the input ends or a read fails. Answers how many of the buffer's bytes it filled: all
    // of them where the buffer is full, and more may come; fewer only where the input has ended.
    pub fn fill(&mut self, buf: &mut [u8]) -> io::Result<usize>
        ensures bytes { IfOk result (λ n. Consumes (R.remaining (reader_of self.old)) (R.remaining (reader_of self.new)) (take n buf.new)) }
        ensures within { IfOk result (λ n. n ≤ length buf.new) }
        ensures whole { IfOk result (λ n. n < length buf.new → IsAtEnd (R.remaining (reader_of self.new))) }
        ensures failed { OnErr result (has_failed self.new ≡ true) }
    {
        let mut done = 0;
        // No method of Read goes on to the end of an input in a buffer that may be longer or shorter.
        while done < buf.len() {
            match self.reader.read(&mut buf[done..]) {
                Ok(0) => return Ok(done),
                Ok(n) => done += n,
                Err(error) => {
                    self.failed = true;
                    return Err(error);
                }
            }
        }
        Ok(done)
    }
}

// A line on standard error.
pub fn tell(rt: &HostRuntime, line: &[u8]) {
    let _ = rt.stderr().write_all(line);
}

// That a read failed.
pub fn tell_unread(rt: &HostRuntime) {
    tell(rt, b"standard input cannot be read\n");
}

// Writes all of some bytes to standard output. Where that fails, a front part may have been written, and a line on standard
// error says so.
pub fn write(rt: &HostRuntime, bytes: &[u8]) -> io::Result<()> {
    let written = rt.stdout().write_all(bytes);
    if written.is_err() {
        tell(rt, b"standard output cannot be written\n");
    }
    written
}
