#![tactic(auto)]
// Standard input and output. A call that a signal interrupts, or that would have to wait, is made again; any other that
// fails writes one line to standard error. No contract can say what is read or written.
mod failures;

use crate::failures::report;
use std::io::{Error, ErrorKind, Read, Write};
use std::thread::sleep;
use std::time::Duration;

// A call failed, and its failure was reported; or what was lent has no such place, which no program comes to.
#[derive(Clone, Copy, PartialEq, Eq, Debug)]
pub struct Failed;

const STANDARD_INPUT: &[u8] = b"standard input";

const STANDARD_OUTPUT: &[u8] = b"standard output";

// How long a call that would have to wait is put off.
const PAUSE_MILLISECONDS: u64 = 1;

// After a call that failed: whether it is made again.
fn resume(rt: &HostRuntime, what: &[u8], error: &Error) -> Result<(), Failed> {
    match error.kind() {
        ErrorKind::WouldBlock => {
            sleep(rt, Duration::from_millis(PAUSE_MILLISECONDS));
            Ok(())
        }
        ErrorKind::Interrupted => Ok(()),
        _ => {
            report(rt, what, error);
            Err(Failed)
        }
    }
}

// Reads into a block behind its first bytes, as many as `end`: up to where it is filled then, or None at the end of input.
pub fn receive(rt: &HostRuntime, block: &mut [u8], end: usize) -> Result<Option<usize>, Failed> {
    for _ in 0..u64::MAX {
        // A full block, which no program hands on: what is kept is shorter.
        if block.len() <= end {
            return Err(Failed);
        }
        match rt.stdin().read(&mut block[end..]) {
            Ok(0) => return Ok(None),
            Ok(got) => return Ok(Some(end + got)),
            Err(error) => resume(rt, STANDARD_INPUT, &error)?,
        }
    }
    Err(Failed)
}

// Writes the first bytes of a buffer, as many as `place`. `write_all` would not wait.
pub fn send(rt: &HostRuntime, buffer: &[u8], place: usize) -> Result<(), Failed> {
    let mut left = buffer.get(..place).ok_or(Failed)?;
    for _ in 0..u64::MAX {
        if left.is_empty() {
            return Ok(());
        }
        match rt.stdout().write(left) {
            Ok(0) => {
                report(rt, STANDARD_OUTPUT, &Error::from(ErrorKind::WriteZero));
                return Err(Failed);
            }
            Ok(put) => left = &left[put..],
            Err(error) => resume(rt, STANDARD_OUTPUT, &error)?,
        }
    }
    Err(Failed)
}
