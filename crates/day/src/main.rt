// The day on standard input: its total, or the line that makes it no day.
#![tactic(auto)]

use std::io;

fn main(rt: HostRuntime) -> io::Result<()> {
    let mut text = [0u8; daily::ROOM];
    let n = stored::read_full(&mut rt.stdin(), &mut text)?;
    daily::day(&text[..n], &mut rt.stdout())
}
