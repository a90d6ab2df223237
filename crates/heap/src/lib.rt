// The heap: fresh, the eleven calls, check and show, on an arena and a table that the caller lends. The eleven and check judge their input,
// and then call their inner function in `unchecked`.
#![tactic(auto)]

ghost use Rattle.std.specs.Prelude.{◌≡◌, ◌+◌, true, false, IfOk, IfErr};
ghost use Rattle.common.specs.Numbers.{number_of};
ghost use Rattle.heap.specs.Answers.{answer_of};
ghost use Rattle.heap.specs.Effects.{refused};
ghost use Rattle.heap.specs.Heaps.{heap_of, outcome, heap_call, heap_fresh, heap_check, shown, shown_by_left, shown_from};
ghost use Rattle.heap.specs.Inner.{Judged};

use blocks::BASE;
use common::Refusal;

pub mod answers;
pub mod operations;
mod refusals;
pub mod registers;
pub mod sizes;
pub mod unchecked;

// The order of a slot in every public call: a slot has 16 bytes.
pub const SLOT_ORDER: u32 = 4;

// What a call answers, as C and an answer slice have it: the number of its refusal, 0 for none, and its value.
#[repr(C)]
#[derive(Clone, Copy, Debug, PartialEq, Eq)]
pub struct Answer {
    pub number: u32,
    pub value: u32,
}

// A call with its arguments. The step's i is a signed number in two's complement. Lock and unlock are one, which sets the lock to what it says. A grid has its
// rows and columns, then the row and the column that are asked for.
#[derive(Clone, Copy)]
pub enum Call {
    Get(u32),
    Give(u32),
    Step(u32, u32),
    Read(u32, u8),
    Write(u32, u8, u32),
    Left(u32),
    Copy(u32, u32, u32),
    Fill(u32, u8, u32),
    SetLock(u32, bool),
    Grid(u32, u8, u8, u8, u8),
}

// Makes the heap fresh: both buffers all zero.
pub fn fresh(arena: &mut [u8], table: &mut [u8]) -> Result<u32, Refusal>
    ensures { outcome (answer_of result) arena.new table.new ≡ heap_fresh (heap_of arena.old table.old) }
{
    sizes::order_of(arena, table, SLOT_ORDER).ok_or(Refusal::WrongSizes)?;
    let n = arena.len();
    common::fill(arena, 0, n, 0);
    let k = table.len();
    common::fill(table, 0, k, 0);
    Ok(0)
}

// The arena's order, where a call is not refused before it is carried out: by the lengths, its arguments or the table's damage, in this order. (Not inlined, it
// is handed each call in memory, and a direct call takes 2 to 4 ns more.)
#[inline(always)]
fn judge(arena: &[u8], table: &[u8], call: Call) -> Result<u32, Refusal>
    ensures refused { IfErr result (λ reason. outcome (refused (number_of reason)) arena.now table.now
        ≡ heap_call call (heap_of arena.now table.now)) }
    ensures ready { IfOk result (λ m. Judged call arena.now table.now m) }
{
    let m = sizes::order_of(arena, table, SLOT_ORDER).ok_or(Refusal::WrongSizes)?;
    refusals::before_call(table, SLOT_ORDER, m, call)?;
    Ok(m)
}

// The start of a new block of at least n bytes, the whole of it 0.
pub fn get(arena: &mut [u8], table: &mut [u8], n: u32) -> Result<u32, Refusal>
    ensures { outcome (answer_of result) arena.new table.new ≡ heap_call (Call.Get n) (heap_of arena.old table.old) }
{
    let m = judge(arena, table, Call::Get(n))?;
    unchecked::get(arena, table, SLOT_ORDER, m, n)
}

// Gives the block that starts at p back.
pub fn give(arena: &[u8], table: &mut [u8], p: u32) -> Result<u32, Refusal>
    ensures { outcome (answer_of result) arena.now table.new ≡ heap_call (Call.Give p) (heap_of arena.now table.old) }
{
    let m = judge(arena, table, Call::Give(p))?;
    unchecked::give(arena, table, SLOT_ORDER, m, p)
}

// The pointer i bytes on from p, i a signed number in two's complement: plain inside p's referent, marked in its reach.
pub fn step(arena: &[u8], table: &[u8], p: u32, i: u32) -> Result<u32, Refusal>
    ensures { outcome (answer_of result) arena.now table.now ≡ heap_call (Call.Step p i) (heap_of arena.now table.now) }
{
    let m = judge(arena, table, Call::Step(p, i))?;
    unchecked::step(arena, table, SLOT_ORDER, m, p, i)
}

// The w bytes at p as an unsigned big-endian number.
pub fn read(arena: &[u8], table: &[u8], p: u32, w: u8) -> Result<u32, Refusal>
    ensures { outcome (answer_of result) arena.now table.now ≡ heap_call (Call.Read p w) (heap_of arena.now table.now) }
{
    let m = judge(arena, table, Call::Read(p, w))?;
    unchecked::read(arena, table, SLOT_ORDER, m, p, w)
}

// Stores v at p in w bytes, big-endian.
pub fn write(arena: &mut [u8], table: &[u8], p: u32, w: u8, v: u32) -> Result<u32, Refusal>
    ensures { outcome (answer_of result) arena.new table.now ≡ heap_call (Call.Write p w v) (heap_of arena.old table.now) }
{
    let m = judge(arena, table, Call::Write(p, w, v))?;
    unchecked::write(arena, table, SLOT_ORDER, m, p, w, v)
}

// Bytes from p to its referent's end, both counted.
pub fn left(arena: &[u8], table: &[u8], p: u32) -> Result<u32, Refusal>
    ensures { outcome (answer_of result) arena.now table.now ≡ heap_call (Call.Left p) (heap_of arena.now table.now) }
{
    let m = judge(arena, table, Call::Left(p))?;
    unchecked::left(arena, table, SLOT_ORDER, m, p)
}

// Copies up to n bytes from q to p, as many as both referents hold: what stood at q before the call, whichever way the two ranges overlap.
pub fn copy(arena: &mut [u8], table: &[u8], p: u32, q: u32, n: u32) -> Result<u32, Refusal>
    ensures { outcome (answer_of result) arena.new table.now ≡ heap_call (Call.Copy p q n) (heap_of arena.old table.now) }
{
    let m = judge(arena, table, Call::Copy(p, q, n))?;
    unchecked::copy(arena, table, SLOT_ORDER, m, p, q, n)
}

// Stores v in up to n bytes from p on, as many as its referent holds.
pub fn fill(arena: &mut [u8], table: &[u8], p: u32, v: u8, n: u32) -> Result<u32, Refusal>
    ensures { outcome (answer_of result) arena.new table.now ≡ heap_call (Call.Fill p v n) (heap_of arena.old table.now) }
{
    let m = judge(arena, table, Call::Fill(p, v, n))?;
    unchecked::fill(arena, table, SLOT_ORDER, m, p, v, n)
}

// Locks the block that holds p: write, fill, copy into it and give are refused from then on.
pub fn lock(arena: &[u8], table: &mut [u8], p: u32) -> Result<u32, Refusal>
    ensures { outcome (answer_of result) arena.now table.new ≡ heap_call (Call.SetLock p true) (heap_of arena.now table.old) }
{
    set_lock(arena, table, p, true)
}

// Unlocks it.
pub fn unlock(arena: &[u8], table: &mut [u8], p: u32) -> Result<u32, Refusal>
    ensures { outcome (answer_of result) arena.now table.new ≡ heap_call (Call.SetLock p false) (heap_of arena.now table.old) }
{
    set_lock(arena, table, p, false)
}

// Locks the block that holds p, or unlocks it.
fn set_lock(arena: &[u8], table: &mut [u8], p: u32, locked: bool) -> Result<u32, Refusal>
    ensures { outcome (answer_of result) arena.now table.new ≡ heap_call (Call.SetLock p locked) (heap_of arena.now table.old) }
{
    let m = judge(arena, table, Call::SetLock(p, locked))?;
    unchecked::set_lock(arena, table, SLOT_ORDER, m, p, locked)
}

// The address of a place in a grid of rows × columns bytes that starts at p and lies in its referent, row by row.
pub fn grid(
    arena: &[u8],
    table: &[u8],
    p: u32,
    rows: u8,
    columns: u8,
    row: u8,
    column: u8,
) -> Result<u32, Refusal>
    ensures { outcome (answer_of result) arena.now table.now
        ≡ heap_call (Call.Grid p rows columns row column) (heap_of arena.now table.now) }
{
    let m = judge(arena, table, Call::Grid(p, rows, columns, row, column))?;
    unchecked::grid(arena, table, SLOT_ORDER, m, p, rows, columns, row, column)
}

// The check of the plain address p and the step i: 1 where the sum stays in p's referent, else 0. It is in no list of calls and judges by its own short
// list. (With that the scan is called from two places: the compiler keeps it apart, and puts the judging into each call.)
pub fn check(arena: &[u8], table: &[u8], p: u32, i: u32) -> Result<u32, Refusal>
    ensures { answer_of result ≡ heap_check p i (heap_of arena.now table.now) }
{
    let m = sizes::order_of(arena, table, SLOT_ORDER).ok_or(Refusal::WrongSizes)?;
    if blocks::damaged(table, SLOT_ORDER, m) {
        return Err(Refusal::Damaged);
    }
    unchecked::check(arena, table, SLOT_ORDER, m, p, i)
}

// The part of the arena from p to its referent's end, a part and no copy; empty if refused, by what left refuses.
pub fn show<'a>(arena: &'a [u8], table: &[u8], p: u32) -> &'a [u8]
    ensures part { result.now ≡ shown p (heap_of arena.now table.now) }
    ensures by_left { result.now ≡ shown_by_left p (heap_of arena.now table.now) }
    ensures place { result.ref_ptr ≡ (arena.entry.ref_ptr.0, arena.entry.ref_ptr.1 + shown_from p (heap_of arena.now table.now)) }
{
    let Ok(count) = left(arena, table, p) else {
        return &arena[0..0];
    };
    let at = (p - BASE) as usize;
    let end = at + count as usize;
    &arena[at..end]
}
