// What every crate above shares: the reasons to refuse, big-endian numbers in a lent slice, and a part of it filled or copied.
#![tactic(auto)]

ghost use Rattle.std.specs.Prelude.{◌≡◌, ◌+◌, ◌≤◌, min, length, replicate};
ghost use Rattle.common.specs.Bytes.{big_endian, bytes_of, over, copied};

pub use reasons::Refusal;

mod reasons;

// How many bytes a copy reads before it stores them. The compiler makes one memmove of the two copies of a chunk and leaves out the array
// between them. Copies of 32 KiB by smaller chunks measured slower.
const CHUNK: usize = 16384;

// The w bytes from `at` on, as an unsigned big-endian number.
pub fn read_number(s: &[u8], at: usize, w: usize) -> u32
    requires { (w ≤ 4) × (at + w ≤ length s.now) }
    ensures { result ≡ big_endian s.now at w }
{
    let mut v = 0u32;
    for &x in &s[at..at + w] {
        v = v * 256 + u32::from(x);
    }
    v
}

// Stores the w lowest bytes of v from `at` on, the highest of them first.
pub fn write_number(s: &mut [u8], at: usize, w: usize, v: u32)
    requires { (w ≤ 4) × (at + w ≤ length s.old) }
    ensures { s.new ≡ over s.old at (bytes_of w v) }
{
    let mut rest = v;
    for k in (0..w).rev() {
        s[at + k] = (rest % 256) as u8;
        rest /= 256;
    }
}

// Stores v at n places from `at` on. The compiler makes one memset of the loop. The `fill` of std is not called: it stores the last byte by itself, and a
// small fill takes a nanosecond or two more.
pub fn fill(s: &mut [u8], at: usize, n: usize, v: u8)
    requires { at + n ≤ length s.old }
    ensures { s.new ≡ over s.old at (replicate n v) }
{
    for x in &mut s[at..at + n] {
        *x = v;
    }
}

// Copies c bytes of another slice.
pub fn copy_from_slice(s: &mut [u8], to: usize, source: &[u8], from: usize, c: usize)
    requires { (to + c ≤ length s.old) × (from + c ≤ length source.now) }
    ensures { s.new ≡ copied s.old to source.now from c }
{
    s[to..to + c].copy_from_slice(&source[from..from + c]);
}

// Copies a chunk. All of it is read before any of it is stored, so its two ranges may overlap.
fn copy_chunk(s: &mut [u8], to: usize, from: usize, n: usize)
    requires { (to + n ≤ length s.old) × (from + n ≤ length s.old) × (n ≤ CHUNK) }
    ensures { s.new ≡ copied s.old to s.old from n }
{
    let mut chunk = [0u8; CHUNK];
    copy_from_slice(&mut chunk, 0, s, from, n);
    copy_from_slice(s, to, &chunk, 0, n);
}

// Copies c bytes from `from` to `to`: what the source held before the call, whichever way the two ranges overlap.
pub fn copy(s: &mut [u8], to: usize, from: usize, c: usize)
    requires { (to + c ≤ length s.old) × (from + c ≤ length s.old) }
    ensures { s.new ≡ copied s.old to s.old from c }
{
    let mut done = 0usize;
    // No `for` over the chunks' numbers: the compiler unrolls it, to four times the calls of memmove, and a copy of a few bytes takes a sixth longer.
    while done < c {
        let n = CHUNK.min(c - done);
        // Downwards, or in place, in rising order, and upwards in falling order: no byte of the source is stored over before it is read.
        let start = if to <= from { done } else { c - done - n };
        copy_chunk(s, to + start, from + start, n);
        done += n;
    }
}
