// Runs the take on standard input and prints what it did.
#![tactic(auto)]

use std::io;
use std::io::{BufWriter, Write};

fn main(rt: HostRuntime) -> io::Result<()> {
    let mut out = BufWriter::new(rt.alloc(), io::writer(&rt))?;
    printing::play_from(rt.alloc(), &mut out, rt.reader())?;
    out.flush()
}
