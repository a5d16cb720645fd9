// The screen program (01, "Screen program"): reads the sides and the pixels of a screen, and prints what crate reply writes for them.
#![tactic(auto)]

use reply::{ROOM, TEXT_ROOM};
use std::io::{self, Write};

// Both buffers are as reply asks. What the input has beyond ROOM bytes is not read. A read that fails counts as its end.
fn main(rt: HostRuntime) -> io::Result<()> {
    let mut bytes: [u8; ROOM] = [0; ROOM];
    let mut input = rt.reader();
    let n = match stream::read_full(&mut input, &mut bytes) {
        Ok(n) | Err(n) => n,
    };
    let mut text: [u8; TEXT_ROOM] = [0; TEXT_ROOM];
    let count = reply::reply(&bytes, n, &mut text);
    io::writer(&rt).write_all(&text[..count])
}
