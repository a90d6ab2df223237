// A test, held to outside vectors: plays the takes 000.take, 001.take, .. of its folder, up to the first that is missing, and prints each one's name
// before its lines.
#![tactic(auto)]

use std::io::{BufWriter, Write};
use std::rt::Files;
use std::{fs, io};

// Whether there is a take of that number.
fn play_named<W: Write>(
    rt: &(impl Files + AllocGlobal),
    out: &mut W,
    n: usize,
) -> io::Result<bool> {
    let alloc = rt.alloc();
    let path = format!(in alloc; "{n:03}.take")?;
    let Ok(file) = fs::open(rt, path) else {
        return Ok(false);
    };
    writeln!(out, "{n:03}")?;
    printing::play_from(alloc, out, file)?;
    Ok(true)
}

fn main(rt: HostRuntime) -> io::Result<()> {
    let mut out = BufWriter::new(rt.alloc(), io::writer(&rt))?;
    for n in 0..1000 {
        if !play_named(&rt, &mut out, n)? {
            break;
        }
    }
    out.flush()
}
