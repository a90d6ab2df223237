// The C interface: the heap's calls, both runs, a put into registers, replay, reader and writer under one prefix, with structs by value and slices as pointer
// and length. What C sees of it stands in include/tulivombe.h.
#![tactic(auto)]

ghost use Rattle.std.specs.Prelude.{◌≡◌, ◌≤◌, true, false, length};
ghost use Rattle.common.specs.Numbers.{number_in};
ghost use Rattle.heap.specs.Answers.{answer_of};
ghost use Rattle.heap.specs.OperationNumbers.{number_of};
ghost use Rattle.heap.specs.Heaps.{heap_of, outcome, heap_call, heap_fresh, heap_check};
ghost use Rattle.heap.specs.Registers.{put_to, put_in};
ghost use Rattle.heap.specs.declared.Call.TheVariants.{Get, Give, Step, Read, Write, Left, Copy, Fill, SetLock, Grid};
ghost use Rattle.history.specs.Replaying.{replayed, replay_of};
ghost use Rattle.runner.specs.TakeRuns.{screenful, run_of, panel_of, ran_to};
ghost use Rattle.runner.specs.Budgets.{Counted};
ghost use Rattle.takes.specs.Files.{records_of};
ghost use Rattle.takes.specs.Reading.{read_at};
ghost use Rattle.takes.specs.Writing.{write_head};
ghost use Rattle.cabi.specs.Flat.{flat_of, flat_grid, flat, flat_reading, record_as, write_outcome_by, write_flat};
ghost use Rattle.cabi.specs.Parts.{part_of};

use blocks::BASE;
use common::Refusal;
use heap::Answer;
use heap::operations::Operation;
use heap::registers::Registers;
use runner::Ran;
use takes::Record;

// The number of a refusal, 0 where there is none.
fn number_in(outcome: Result<(), Refusal>) -> u32
    ensures { result ≡ number_in outcome }
{
    match outcome {
        Ok(()) => 0,
        Err(reason) => u32::from(reason),
    }
}

// A part of the lent arena, by its offset: an exported function returns no reference.
#[repr(C)]
#[derive(Clone, Copy)]
pub struct Part {
    pub number: u32,
    pub offset: u32,
    pub length: u32,
}

// A record without cases, as C has no enum with data. A field that the operation lacks is 0.
#[repr(C)]
#[derive(Clone, Copy, Default)]
pub struct FlatRecord {
    pub operation: u8,
    pub d: u8,
    pub a: u8,
    pub b: u8,
    pub byte: u8,
    pub index: u16,
    pub word: u32,
    pub rows: u8,
    pub columns: u8,
    pub row: u8,
    pub column: u8,
}

// What the reader gives: the record and the next place, or a number and all else 0.
#[repr(C)]
#[derive(Clone, Copy)]
pub struct FlatReading {
    pub number: u32,
    pub item: FlatRecord,
    pub next: usize,
}

#[unsafe(no_mangle)]
pub extern "C" fn tulivombe_fresh(arena: &mut [u8], table: &mut [u8]) -> Answer
    ensures { outcome result arena.new table.new ≡ heap_fresh (heap_of arena.old table.old) }
{
    Answer::from(heap::fresh(arena, table))
}

#[unsafe(no_mangle)]
pub extern "C" fn tulivombe_get(arena: &mut [u8], table: &mut [u8], n: u32) -> Answer
    ensures { outcome result arena.new table.new ≡ heap_call (Get n) (heap_of arena.old table.old) }
{
    Answer::from(heap::get(arena, table, n))
}

#[unsafe(no_mangle)]
pub extern "C" fn tulivombe_give(arena: &[u8], table: &mut [u8], p: u32) -> Answer
    ensures { outcome result arena.now table.new ≡ heap_call (Give p) (heap_of arena.now table.old) }
{
    Answer::from(heap::give(arena, table, p))
}

#[unsafe(no_mangle)]
pub extern "C" fn tulivombe_step(arena: &[u8], table: &[u8], p: u32, i: u32) -> Answer
    ensures { outcome result arena.now table.now ≡ heap_call (Step p i) (heap_of arena.now table.now) }
{
    Answer::from(heap::step(arena, table, p, i))
}

#[unsafe(no_mangle)]
pub extern "C" fn tulivombe_read(arena: &[u8], table: &[u8], p: u32, w: u8) -> Answer
    ensures { outcome result arena.now table.now ≡ heap_call (Read p w) (heap_of arena.now table.now) }
{
    Answer::from(heap::read(arena, table, p, w))
}

#[unsafe(no_mangle)]
pub extern "C" fn tulivombe_write(arena: &mut [u8], table: &[u8], p: u32, w: u8, v: u32) -> Answer
    ensures { outcome result arena.new table.now ≡ heap_call (Write p w v) (heap_of arena.old table.now) }
{
    Answer::from(heap::write(arena, table, p, w, v))
}

#[unsafe(no_mangle)]
pub extern "C" fn tulivombe_left(arena: &[u8], table: &[u8], p: u32) -> Answer
    ensures { outcome result arena.now table.now ≡ heap_call (Left p) (heap_of arena.now table.now) }
{
    Answer::from(heap::left(arena, table, p))
}

#[unsafe(no_mangle)]
pub extern "C" fn tulivombe_copy(arena: &mut [u8], table: &[u8], p: u32, q: u32, n: u32) -> Answer
    ensures { outcome result arena.new table.now ≡ heap_call (Copy p q n) (heap_of arena.old table.now) }
{
    Answer::from(heap::copy(arena, table, p, q, n))
}

#[unsafe(no_mangle)]
pub extern "C" fn tulivombe_fill(arena: &mut [u8], table: &[u8], p: u32, v: u8, n: u32) -> Answer
    ensures { outcome result arena.new table.now ≡ heap_call (Fill p v n) (heap_of arena.old table.now) }
{
    Answer::from(heap::fill(arena, table, p, v, n))
}

#[unsafe(no_mangle)]
pub extern "C" fn tulivombe_lock(arena: &[u8], table: &mut [u8], p: u32) -> Answer
    ensures { outcome result arena.now table.new ≡ heap_call (SetLock p true) (heap_of arena.now table.old) }
{
    Answer::from(heap::lock(arena, table, p))
}

#[unsafe(no_mangle)]
pub extern "C" fn tulivombe_unlock(arena: &[u8], table: &mut [u8], p: u32) -> Answer
    ensures { outcome result arena.now table.new ≡ heap_call (SetLock p false) (heap_of arena.now table.old) }
{
    Answer::from(heap::unlock(arena, table, p))
}

#[unsafe(no_mangle)]
pub extern "C" fn tulivombe_grid(
    arena: &[u8],
    table: &[u8],
    p: u32,
    rows: u8,
    columns: u8,
    row: u8,
    column: u8,
) -> Answer
    ensures { outcome result arena.now table.now
        ≡ heap_call (Grid p rows columns row column) (heap_of arena.now table.now) }
{
    Answer::from(heap::grid(arena, table, p, rows, columns, row, column))
}

#[unsafe(no_mangle)]
pub extern "C" fn tulivombe_check(arena: &[u8], table: &[u8], p: u32, i: u32) -> Answer
    ensures { result ≡ heap_check p i (heap_of arena.now table.now) }
{
    Answer::from(heap::check(arena, table, p, i))
}

// Where the part that show hands back lies in the arena, and its number, by what left answers: one scan of the table is enough.
#[unsafe(no_mangle)]
pub extern "C" fn tulivombe_show(arena: &[u8], table: &[u8], p: u32) -> Part
    ensures { result ≡ part_of p (heap_of arena.now table.now) }
{
    match heap::left(arena, table, p) {
        Ok(length) => Part {
            number: 0,
            offset: p - BASE,
            length,
        },
        Err(reason) => Part {
            number: u32::from(reason),
            offset: 0,
            length: 0,
        },
    }
}

#[unsafe(no_mangle)]
pub extern "C" fn tulivombe_run(
    file: &[u8],
    arena: &mut [u8],
    table: &mut [u8],
    answers: &mut [u8],
    budget: u32,
) -> Ran
    ensures ran { ran_to result arena.new table.new answers.new
        ≡ run_of file.now budget (heap_of arena.old table.old) answers.old }
    ensures counted { result.number ≡ 0
        → Counted file.now budget answers.old (ran_to result arena.new table.new answers.new) }
{
    Ran::from(runner::run(file, arena, table, answers, budget))
}

#[unsafe(no_mangle)]
pub extern "C" fn tulivombe_run_panel(
    file: &[u8],
    arena: &mut [u8],
    table: &mut [u8],
    answers: &mut [u8],
    budget: u32,
) -> Ran
    ensures ran { ran_to result arena.new table.new answers.new
        ≡ panel_of file.now budget (heap_of arena.old table.old) answers.old }
    ensures accepted_as_upload { result.number ≡ 0
        → ran_to result arena.new table.new answers.new
        ≡ run_of file.now budget (heap_of arena.old table.old) answers.old }
    ensures listed_as_upload { length (records_of file.now) ≤ screenful
        → ran_to result arena.new table.new answers.new
        ≡ run_of file.now budget (heap_of arena.old table.old) answers.old }
    ensures counted { result.number ≡ 0
        → Counted file.now budget answers.old (ran_to result arena.new table.new answers.new) }
{
    Ran::from(runner::run_panel(file, arena, table, answers, budget))
}

// The one exported function that is lent a struct.
#[unsafe(no_mangle)]
pub extern "C" fn tulivombe_put_register(registers: &mut Registers, d: u8, v: u32) -> u32
    ensures { put_to result registers.new.values ≡ put_in d v registers.old.values }
{
    number_in(heap::registers::put(registers, d, v))
}

#[unsafe(no_mangle)]
pub extern "C" fn tulivombe_replay(
    arena: &mut [u8],
    table: &mut [u8],
    calls: &[u8],
    out: &mut [u8],
) -> u32
    ensures { replayed result arena.new table.new out.new
        ≡ replay_of calls.now (heap_of arena.old table.old) out.old }
{
    number_in(history::replay(arena, table, calls, out))
}

// A flat record of these fields, in the struct's order, that is no grid.
fn flat_record(
    operation: Operation,
    d: u8,
    a: u8,
    b: u8,
    byte: u8,
    index: u16,
    word: u32,
) -> FlatRecord
    ensures { result ≡ flat_of (number_of operation) d a b byte index word }
{
    FlatRecord {
        operation: operation as u8,
        d,
        a,
        b,
        byte,
        index,
        word,
        ..FlatRecord::default()
    }
}

fn flat_grid(d: u8, a: u8, rows: u8, columns: u8, row: u8, column: u8) -> FlatRecord
    ensures { result ≡ flat_grid d a rows columns row column }
{
    FlatRecord {
        operation: Operation::Grid as u8,
        d,
        a,
        rows,
        columns,
        row,
        column,
        ..FlatRecord::default()
    }
}

impl From<Record> for FlatRecord {
    ghost from_gives = { λ r f. f ≡ flat r };

    fn from(r: Record) -> FlatRecord {
        match r {
            Record::Get(d, n) => flat_record(Operation::Get, d, 0, 0, 0, 0, n),
            Record::Give(a) => flat_record(Operation::Give, 0, a, 0, 0, 0, 0),
            Record::Step(d, a, i) => flat_record(Operation::Step, d, a, 0, 0, 0, i),
            Record::Read(d, a, w) => flat_record(Operation::Read, d, a, 0, w, 0, 0),
            Record::Write(a, w, v) => flat_record(Operation::Write, 0, a, 0, w, 0, v),
            Record::Left(d, a) => flat_record(Operation::Left, d, a, 0, 0, 0, 0),
            Record::Copy(d, a, b, n) => flat_record(Operation::Copy, d, a, b, 0, 0, n),
            Record::Fill(d, a, v, n) => flat_record(Operation::Fill, d, a, 0, v, 0, n),
            Record::Lock(a) => flat_record(Operation::Lock, 0, a, 0, 0, 0, 0),
            Record::Unlock(a) => flat_record(Operation::Unlock, 0, a, 0, 0, 0, 0),
            Record::Again(d, k) => flat_record(Operation::Again, d, 0, 0, 0, k, 0),
            Record::Set(d, n) => flat_record(Operation::Set, d, 0, 0, 0, 0, n),
            Record::Grid(d, a, rows, columns, row, column) => {
                flat_grid(d, a, rows, columns, row, column)
            }
        }
    }
}

#[unsafe(no_mangle)]
pub extern "C" fn tulivombe_read_record(file: &[u8], at: usize) -> FlatReading
    ensures { result ≡ flat_reading (read_at file.now at) }
{
    match takes::read(file, at) {
        Ok(reading) => FlatReading {
            number: 0,
            item: FlatRecord::from(reading.record),
            next: reading.next,
        },
        Err(reason) => FlatReading {
            number: u32::from(reason),
            item: FlatRecord::default(),
            next: 0,
        },
    }
}

#[unsafe(no_mangle)]
pub extern "C" fn tulivombe_write_head(out: &mut [u8], m: u32) -> Answer
    ensures { write_outcome_by result out.new ≡ write_head m out.old }
{
    Answer::from(takes::write_head(out, m))
}

// The record of an operation, by the fields that it has.
fn structured(operation: Operation, f: FlatRecord) -> Record
    ensures { result ≡ record_as (number_of operation) f }
{
    match operation {
        Operation::Get => Record::Get(f.d, f.word),
        Operation::Give => Record::Give(f.a),
        Operation::Step => Record::Step(f.d, f.a, f.word),
        Operation::Read => Record::Read(f.d, f.a, f.byte),
        Operation::Write => Record::Write(f.a, f.byte, f.word),
        Operation::Left => Record::Left(f.d, f.a),
        Operation::Copy => Record::Copy(f.d, f.a, f.b, f.word),
        Operation::Fill => Record::Fill(f.d, f.a, f.byte, f.word),
        Operation::Lock => Record::Lock(f.a),
        Operation::Unlock => Record::Unlock(f.a),
        Operation::Again => Record::Again(f.d, f.index),
        Operation::Set => Record::Set(f.d, f.word),
        Operation::Grid => Record::Grid(f.d, f.a, f.rows, f.columns, f.row, f.column),
    }
}

// C can name an operation that no record has.
fn write_flat(out: &mut [u8], item: FlatRecord) -> Result<u32, Refusal>
    ensures { write_outcome_by (answer_of result) out.new ≡ write_flat item out.old }
{
    let operation = Operation::try_from(item.operation)?;
    takes::write_record(out, structured(operation, item))
}

#[unsafe(no_mangle)]
pub extern "C" fn tulivombe_write_record(out: &mut [u8], item: FlatRecord) -> Answer
    ensures { write_outcome_by result out.new ≡ write_flat item out.old }
{
    Answer::from(write_flat(out, item))
}
