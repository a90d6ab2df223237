// A test, held to outside vectors: makes the calls that standard input lists on one heap, a line each, and prints what each answers: its number and
// value, or for `show` its number and bytes. Five words are no calls: `heap M` makes fresh buffers of order M, `only A T` lends A and T bytes from
// then on, `poke I V` sets entry I of the table to V, `arena` and `table` print a buffer. What stands after a line's numbers is passed over.
#![tactic(auto)]

ghost use Rattle.std.specs.Prelude.{◌≤◌, ◌<◌, length, OnSome};
ghost use Rattle.calls_test.specs.declared.TheConstants.{ARENA, TABLE};

use blocks::LARGEST_ARENA;
use common::Refusal;
use heap::{Answer, Call, SLOT_ORDER};
use std::fmt::{Display, Formatter};
use std::io::{BufWriter, Read, Write};
use std::{fmt, io};

// The lengths of the largest arena and its table, and how much text is read.
const ARENA: usize = 1 << LARGEST_ARENA;

const TABLE: usize = ARENA >> SLOT_ORDER;

const TEXT: usize = 20480;

// What a line asks for, with those of its numbers that it needs.
#[derive(Clone, Copy)]
enum Command {
    Heap { order: u32 },
    Only { arena: u32, table: u32 },
    Poke { entry: u32, value: u8 },
    Show(u32),
    Arena,
    Table,
    Fresh,
    Call(Call),
    Check(u32, u32),
}

// How many bytes of the arena and of the table are lent.
#[derive(Clone, Copy)]
struct Lent {
    arena: usize,
    table: usize,
    ghost arena_fits: { arena ≤ ARENA },
    ghost table_fits: { table ≤ TABLE },
}

// The lowest byte of a number. No `TryFrom`, since the rest is let go.
fn low(x: u32) -> u8 {
    (x & 0xff) as u8
}

// The decimal number that a text begins with, modulo 2^32; 0 where it begins with none.
fn number(text: &[u8]) -> u32 {
    text.iter()
        .map_while(|&byte| char::from(byte).to_digit(10))
        .fold(0u32, |sum, digit| sum.wrapping_mul(10).wrapping_add(digit))
}

// The numbers after the first five spaces of a text, 0 where it has fewer: a line with fewer has some of its numbers from the lines that follow it.
fn numbers(text: &[u8]) -> [u32; 5] {
    let mut numbers = [0u32; 5];
    let words = text.split(|&byte| byte == b' ').skip(1);
    for (n, word) in numbers.iter_mut().zip(words) {
        *n = number(word);
    }
    numbers
}

impl Command {
    // The command of the line that a text begins with, by the first two bytes of its word. There is none in fewer than two bytes, and a word that names none
    // is a check.
    fn parse(text: &[u8]) -> Option<Command>
        ensures { OnSome result (0 < length text.now) }
    {
        let word = text.first_chunk::<2>()?;
        let [a, b, c, d, e] = numbers(text);
        Some(match word {
            b"he" => Command::Heap { order: a },
            b"on" => Command::Only { arena: a, table: b },
            b"po" => Command::Poke {
                entry: a,
                value: low(b),
            },
            b"sh" => Command::Show(a),
            b"ar" => Command::Arena,
            b"ta" => Command::Table,
            b"fr" => Command::Fresh,
            b"ge" => Command::Call(Call::Get(a)),
            b"gi" => Command::Call(Call::Give(a)),
            b"st" => Command::Call(Call::Step(a, b)),
            b"re" => Command::Call(Call::Read(a, low(b))),
            b"wr" => Command::Call(Call::Write(a, low(b), c)),
            b"le" => Command::Call(Call::Left(a)),
            b"co" => Command::Call(Call::Copy(a, b, c)),
            b"fi" => Command::Call(Call::Fill(a, low(b), c)),
            b"lo" => Command::Call(Call::SetLock(a, true)),
            b"un" => Command::Call(Call::SetLock(a, false)),
            b"gr" => Command::Call(Call::Grid(a, low(b), low(c), low(d), low(e))),
            _ => Command::Check(a, b),
        })
    }
}

impl Lent {
    // What is lent before the first line.
    fn nothing() -> Lent {
        Lent { arena: 0, table: 0 }
    }

    // How much is lent from a line on.
    fn after(self, command: Command) -> Lent {
        match command {
            Command::Heap { order } => {
                let size = 1usize << (order % (LARGEST_ARENA + 1));
                Lent {
                    arena: size,
                    table: size >> SLOT_ORDER,
                }
            }
            Command::Only { arena, table } => Lent {
                arena: ARENA.min(arena as usize),
                table: TABLE.min(table as usize),
            },
            _ => self,
        }
    }
}

// What follows the first newline of a text.
fn after_line(text: &[u8]) -> &[u8]
    ensures { 0 < length text.now → length result.now < length text.now }
{
    match text.iter().position(|&byte| byte == b'\n') {
        Some(end) => &text[end + 1..],
        None => &[],
    }
}

// Bytes as they are printed: two hexadecimal digits each.
#[derive(Clone, Copy)]
struct Hex<'a>(&'a [u8]);

impl Display for Hex<'_> {
    fn fmt<W: fmt::Write>(&self, f: &mut Formatter<W>) -> fmt::Result {
        for byte in self.0 {
            write!(f, "{byte:02x}")?;
        }
        Ok(())
    }
}

fn print_answer<W: Write>(out: &mut W, outcome: Result<u32, Refusal>) -> io::Result<()> {
    let answer = Answer::from(outcome);
    writeln!(out, "{} {}", answer.number, answer.value)
}

// The number is left's.
fn print_shown<W: Write>(out: &mut W, arena: &[u8], table: &[u8], p: u32) -> io::Result<()> {
    let number = Answer::from(heap::left(arena, table, p)).number;
    match heap::show(arena, table, p) {
        [] => writeln!(out, "{number} -"),
        bytes => writeln!(out, "{number} {}", Hex(bytes)),
    }
}

fn answer_to(arena: &mut [u8], table: &mut [u8], call: Call) -> Result<u32, Refusal> {
    match call {
        Call::Get(n) => heap::get(arena, table, n),
        Call::Give(p) => heap::give(arena, table, p),
        Call::Step(p, i) => heap::step(arena, table, p, i),
        Call::Read(p, w) => heap::read(arena, table, p, w),
        Call::Write(p, w, v) => heap::write(arena, table, p, w, v),
        Call::Left(p) => heap::left(arena, table, p),
        Call::Copy(p, q, n) => heap::copy(arena, table, p, q, n),
        Call::Fill(p, v, n) => heap::fill(arena, table, p, v, n),
        Call::SetLock(p, true) => heap::lock(arena, table, p),
        Call::SetLock(p, false) => heap::unlock(arena, table, p),
        Call::Grid(p, rows, columns, row, column) => {
            heap::grid(arena, table, p, rows, columns, row, column)
        }
    }
}

// Carries a command out on the lent parts of the buffers. They go on apart, as each of the heap's calls takes them.
fn carry_out<W: Write>(
    out: &mut W,
    arena: &mut [u8],
    table: &mut [u8],
    command: Command,
) -> io::Result<()> {
    match command {
        Command::Heap { .. } => {
            // Buffers of an order that no arena has are refused, and stay as they were.
            let _ = heap::fresh(arena, table);
            Ok(())
        }
        Command::Only { .. } => Ok(()),
        Command::Poke { entry, value } => {
            if let Some(place) = table.get_mut(entry as usize) {
                *place = value;
            }
            Ok(())
        }
        Command::Show(p) => print_shown(out, arena, table, p),
        Command::Arena => writeln!(out, "{}", Hex(arena)),
        Command::Table => writeln!(out, "{}", Hex(table)),
        Command::Fresh => print_answer(out, heap::fresh(arena, table)),
        Command::Call(call) => print_answer(out, answer_to(arena, table, call)),
        Command::Check(p, i) => print_answer(out, heap::check(arena, table, p, i)),
    }
}

fn run<W: Write>(
    out: &mut W,
    text: &[u8],
    arena: &mut [u8; ARENA],
    table: &mut [u8; TABLE],
) -> io::Result<()> {
    let mut lent = Lent::nothing();
    let mut rest = text;
    while let Some(command) = Command::parse(rest) {
        lent = lent.after(command);
        carry_out(
            out,
            &mut arena[..lent.arena],
            &mut table[..lent.table],
            command,
        )?;
        rest = after_line(rest);
    }
    Ok(())
}

fn main(rt: HostRuntime) -> io::Result<()> {
    let mut text = Vec::new(rt.alloc());
    rt.reader().take(TEXT as u64).read_to_end(&mut text)?;
    let mut arena = [0u8; ARENA];
    let mut table = [0u8; TABLE];
    let mut out = BufWriter::new(rt.alloc(), io::writer(&rt))?;
    run(&mut out, text.as_slice(), &mut arena, &mut table)?;
    out.flush()
}
