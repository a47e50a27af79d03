// A line on standard error: what failed, and the system's message, without the number that std puts behind it.
ghost use Rattle.std.specs.Prelude.{◌≤◌, length};

use memchr::memmem;
use std::fmt;
use std::fmt::Write;
use std::io::{Error, Print};

// No message of the system's is as long.
const MESSAGE_ROOM: usize = 256;

// What stands between a message and its number.
const NUMBER_BEGINS: &[u8] = b" (os error ";

#[derive(Drop)]
struct Message {
    bytes: [u8; MESSAGE_ROOM],
    length: usize,
}

impl fmt::Write for Message {
    fn write_str(&mut self, text: &str) -> fmt::Result {
        for b in text.as_bytes() {
            let at = self.length;
            if at < MESSAGE_ROOM {
                self.bytes[at] = *b;
                self.length = at + 1;
            }
        }
        Ok(())
    }
}

// How many of the bytes stand before the number.
fn before_number(text: &[u8]) -> usize
    ensures { result ≤ length text.now }
{
    memmem::find(text, NUMBER_BEGINS).unwrap_or(text.len())
}

// A failure of standard error itself is passed over: there is nowhere left to report it.
pub(crate) fn report(rt: &HostRuntime, what: &[u8], error: &Error) {
    let mut message = Message {
        bytes: [0u8; MESSAGE_ROOM],
        length: 0,
    };
    let _ = write!(message, "{error}");
    let text = &message.bytes[..message.length.min(MESSAGE_ROOM)];
    let _ = rt.stderr().write_all(what);
    let _ = rt.stderr().write_all(b": ");
    let _ = rt.stderr().write_all(&text[..before_number(text)]);
    let _ = rt.stderr().write_all(b"\n");
}
