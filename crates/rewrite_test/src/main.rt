// A test: rewrites the take on standard input, and prints the number, the count and all bytes of the slice that it lent.
#![tactic(auto)]

use std::io;
use std::io::{BufWriter, Read, Write};
use takes::LONGEST;

// One byte more than the longest file.
const READ: usize = LONGEST + 1;

fn rewrite<W: Write>(out: &mut W, file: &[u8]) -> io::Result<()> {
    let mut lent = [165u8; LONGEST];
    match takes::rewrite(file, &mut lent) {
        Ok(count) => writeln!(out, "0 {count}")?,
        Err(reason) => writeln!(out, "{} 0", u32::from(reason))?,
    }
    out.write_all(&lent)
}

fn main(rt: HostRuntime) -> io::Result<()> {
    let mut file = Vec::new(rt.alloc());
    rt.reader().take(READ as u64).read_to_end(&mut file)?;
    let mut out = BufWriter::new(rt.alloc(), io::writer(&rt))?;
    rewrite(&mut out, file.as_slice())?;
    out.flush()
}
