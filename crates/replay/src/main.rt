// Answers the commands of stdin, which were recorded with the crate's answers: stdout holds the crate's.
#![tactic(auto)]

use std::io;

fn main(rt: HostRuntime) -> io::Result<()> {
    let mut room = [0u8; 262_144];
    answers::all(&mut rt.reader(), &mut io::writer(&rt), &mut room)
}
