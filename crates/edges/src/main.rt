// Answers the commands of stdin, the edges of document 01: comments there say which rule each line is at.
#![tactic(auto)]

use std::io;

fn main(rt: HostRuntime) -> io::Result<()> {
    let mut room = [0u8; 32_768];
    answers::all(&mut rt.reader(), &mut io::writer(&rt), &mut room)
}
