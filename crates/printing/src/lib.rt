// What a program that runs takes prints: document 01's lines.
#![tactic(auto)]

ghost use Rattle.std.specs.Prelude.{◌≡◌, ◌*◌, ◌^◌, ◌≤◌, length, IfSome};
ghost use Rattle.common.specs.Numbers.{number_in};
ghost use Rattle.blocks.specs.Orders.{largest_arena};
ghost use Rattle.takes.specs.Files.{size_byte, file_number};
ghost use Rattle.heap.specs.Heaps.{heap_of};
ghost use Rattle.heap.specs.Answers.{answer_length};
ghost use Rattle.runner.specs.TakeRuns.{most_steps, ran_of, run_of, ran_to};
ghost use Rattle.printing.specs.Fitting.{Fitting};

use blocks::LARGEST_ARENA;
use common::Refusal;
use heap::SLOT_ORDER;
use heap::answers::ANSWER_LENGTH;
use runner::{MOST_STEPS, RunReport};
use std::alloc::Global;
use std::io;
use std::io::{Read, Write};
use takes::LONGEST;

// A line for each of the answers that a run wrote, `count` of them in a buffer for the most, five bytes each: how many records were carried out before it, its
// number and its value.
fn print_answers<W: Write>(out: &mut W, answers: &[u8], count: u32) -> io::Result<()>
    requires { answer_length * count ≤ length answers.now }
{
    let (answers, _) = answers[..ANSWER_LENGTH * count as usize].as_chunks::<ANSWER_LENGTH>();
    for (index, &[number, a, b, c, d]) in answers.iter().enumerate() {
        let value = u32::from_be_bytes([a, b, c, d]);
        writeln!(out, "{index} {number} {value}")?;
    }
    Ok(())
}

// The arena's length by the file's size byte. A file that has no such byte, or one that no arena has, is refused whatever the length.
fn size_for(file: &[u8]) -> Option<usize>
    ensures at_most { IfSome result (λ size. size ≤ 2 ^ largest_arena) }
    ensures value { file_number file.now ≡ 0 → result ≡ Some (2 ^ size_byte file.now) }
{
    let m = u32::from(*file.get(1)?);
    if LARGEST_ARENA < m {
        return None;
    }
    Some(blocks::size_of(m) as usize)
}

// The run of an upload with the largest budget, on memory that fits its file: so it is refused by the file alone, 1 to 7 or 29, never by a length, 8 or 9.
fn run_in(
    file: &[u8],
    arena: &mut [u8],
    table: &mut [u8],
    answers: &mut [u8],
) -> Result<RunReport, Refusal>
    requires { Fitting file.now arena.old table.old answers.old }
    ensures ran { ran_to (ran_of result) arena.new table.new answers.new
        ≡ run_of file.now most_steps (heap_of arena.old table.old) answers.old }
    ensures by_file { number_in result ≡ file_number file.now }
{
    runner::run(file, arena, table, answers, MOST_STEPS)
}

// The lengths of the largest arena and its table.
const ARENA: usize = 1 << LARGEST_ARENA;

const TABLE: usize = ARENA >> SLOT_ORDER;

// Five bytes for each record that a run carries out at most.
const ANSWERS: usize = ANSWER_LENGTH * MOST_STEPS as usize;

// Runs a take and prints its lines.
pub fn play<W: Write>(out: &mut W, file: &[u8]) -> io::Result<()> {
    let mut arena = [0u8; ARENA];
    let mut table = [0u8; TABLE];
    let mut answers = [0u8; ANSWERS];
    let size = size_for(file).unwrap_or(0);
    let slots = size >> SLOT_ORDER;
    let report = match run_in(file, &mut arena[..size], &mut table[..slots], &mut answers) {
        Ok(report) => report,
        Err(reason) => return writeln!(out, "refused {}", u32::from(reason)),
    };
    writeln!(out, "heap {size}")?;
    print_answers(out, &answers, report.count)?;
    // The last line: how many records were carried out, and whether one was still due.
    let last = if report.stopped { "stopped" } else { "end" };
    writeln!(out, "{last} {}", report.count)
}

// One byte more than the longest file is enough to refuse it.
const READ: usize = LONGEST + 1;

// Plays what a reader gives.
pub fn play_from<R: Read + Drop, W: Write>(alloc: Global, out: &mut W, from: R) -> io::Result<()> {
    let mut file = Vec::new(alloc);
    from.take(READ as u64).read_to_end(&mut file)?;
    play(out, file.as_slice())
}
