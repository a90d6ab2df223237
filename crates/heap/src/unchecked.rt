// The calls once their input has been judged: the lengths fit, the table is undamaged, the arguments are in range. What is left to refuse
// depends on the blocks and the mark (21, 27, 22, 13, 23 to 25, 28). A slot has 2^t bytes. A run makes its calls by `call`, a
// replay one by one, by `any_get`, `any_read`, `any_write` and `any_grid` those whose arguments may refuse them; neither ever scans the table.
// Each takes the two buffers and the two orders of which `Sound` and `Ready` speak: the calls differ in which buffer they store in, so a struct that lends
// both would come in four kinds.
ghost use Rattle.std.specs.Prelude.{◌≡◌, ◌+◌, ◌-◌, ◌^◌, ◌<◌, ◌≤◌, max};
ghost use Rattle.common.specs.Numbers.{number_of};
ghost use Rattle.blocks.specs.Blocks.{Found, base, left_in};
ghost use Rattle.heap.specs.Answers.{answer_of};
ghost use Rattle.heap.specs.Heaps.{heap_of, outcome, heap_step, check_step};
ghost use Rattle.heap.specs.Inner.{Sound, Ready, Holding, stepped_in};

use crate::Call;
use crate::refusals::{arguments, locate, locate_plain};
use blocks::{BASE, Block, MARK};
use common::Refusal;

// Bytes from p to the block's end.
fn left_in(block: Block, p: u32) -> u32
    requires { (block.order ≤ 16) × (block.start ≤ p) × (p < block.start + 2 ^ block.order) × (block.start < 2 ^ 31) }
    ensures { result ≡ left_in (Found block.start block.order) p }
{
    block.start + blocks::size_of(block.order) - p
}

// An address as a place in the arena.
fn offset(p: u32) -> usize
    requires { base ≤ p }
    ensures { result ≡ p - base }
{
    (p - BASE) as usize
}

pub fn get(arena: &mut [u8], table: &mut [u8], t: u32, m: u32, n: u32) -> Result<u32, Refusal>
    requires { Ready t m (Call.Get n) arena.old table.old }
    ensures { outcome (answer_of result) arena.new table.new ≡ heap_step t m (Call.Get n) (heap_of arena.old table.old) }
{
    let e = blocks::needed_order(t, m, n);
    let place = blocks::find_place(table, t, m, e).ok_or(Refusal::Full)?;
    common::fill(
        table,
        place.slot,
        blocks::slots_of(t, e),
        blocks::entry_of(e, false),
    );
    let at = place.slot * blocks::size_of(t) as usize;
    common::fill(arena, at, blocks::size_of(e) as usize, 0);
    Ok(BASE + at as u32)
}

pub fn give(arena: &[u8], table: &mut [u8], t: u32, m: u32, p: u32) -> Result<u32, Refusal>
    requires { Ready t m (Call.Give p) arena.now table.old }
    ensures { outcome (answer_of result) arena.now table.new ≡ heap_step t m (Call.Give p) (heap_of arena.now table.old) }
{
    let block = locate_plain(table, t, m, p)?;
    if block.start != p {
        return Err(Refusal::NotAStart);
    }
    if blocks::is_locked(table, t, block.start) {
        return Err(Refusal::Locked);
    }
    common::fill(table, offset(p) >> t, blocks::slots_of(t, block.order), 0);
    Ok(0)
}

// The sum of the address q and the step i, inside the block, which holds h, or in its reach.
fn stepped(t: u32, block: Block, h: u32, q: u32, i: u32) -> Result<u32, Refusal>
    requires { Holding t block.start block.order h q }
    ensures { answer_of result ≡ stepped_in t block.start block.order h q i }
{
    let r = q.wrapping_add(i);
    if blocks::passes(h, q, i, block.order) {
        return Ok(r);
    }
    let end = block.start + blocks::size_of(block.order);
    let reach = blocks::size_of(t - 1);
    if block.start - reach <= r && r < block.start {
        return Ok(MARK + r);
    }
    if end <= r && r < end + reach {
        return Ok(MARK + r);
    }
    Err(Refusal::Beyond)
}

pub fn step(arena: &[u8], table: &[u8], t: u32, m: u32, p: u32, i: u32) -> Result<u32, Refusal>
    requires { Ready t m (Call.Step p i) arena.now table.now }
    ensures { outcome (answer_of result) arena.now table.now ≡ heap_step t m (Call.Step p i) (heap_of arena.now table.now) }
{
    let block = locate(table, t, m, p)?;
    stepped(
        t,
        block,
        blocks::sought_address(t, p),
        blocks::address_of(p),
        i,
    )
}

pub fn read(arena: &[u8], table: &[u8], t: u32, m: u32, p: u32, w: u8) -> Result<u32, Refusal>
    requires { Ready t m (Call.Read p w) arena.now table.now }
    ensures { outcome (answer_of result) arena.now table.now ≡ heap_step t m (Call.Read p w) (heap_of arena.now table.now) }
{
    let block = locate_plain(table, t, m, p)?;
    let width = u32::from(w);
    if left_in(block, p) < width {
        return Err(Refusal::PastTheEnd);
    }
    Ok(common::read_number(arena, offset(p), usize::from(w)))
}

pub fn write(
    arena: &mut [u8],
    table: &[u8],
    t: u32,
    m: u32,
    p: u32,
    w: u8,
    v: u32,
) -> Result<u32, Refusal>
    requires { Ready t m (Call.Write p w v) arena.old table.now }
    ensures { outcome (answer_of result) arena.new table.now ≡ heap_step t m (Call.Write p w v) (heap_of arena.old table.now) }
{
    let block = locate_plain(table, t, m, p)?;
    if left_in(block, p) < u32::from(w) {
        return Err(Refusal::PastTheEnd);
    }
    if blocks::is_locked(table, t, p) {
        return Err(Refusal::Locked);
    }
    common::write_number(arena, offset(p), usize::from(w), v);
    Ok(0)
}

pub fn left(arena: &[u8], table: &[u8], t: u32, m: u32, p: u32) -> Result<u32, Refusal>
    requires { Ready t m (Call.Left p) arena.now table.now }
    ensures { outcome (answer_of result) arena.now table.now ≡ heap_step t m (Call.Left p) (heap_of arena.now table.now) }
{
    let block = locate_plain(table, t, m, p)?;
    Ok(left_in(block, p))
}

// Of two reasons to refuse a copy, one by each pointer, the one that counts: that with the greater number, since 27 is judged before 22, and 22 before 13.
fn first_judged(a: Refusal, b: Refusal) -> Refusal
    ensures { number_of result ≡ max (number_of a) (number_of b) }
{
    if u32::from(a) < u32::from(b) { b } else { a }
}

pub fn copy(
    arena: &mut [u8],
    table: &[u8],
    t: u32,
    m: u32,
    to: u32,
    from: u32,
    n: u32,
) -> Result<u32, Refusal>
    requires { Ready t m (Call.Copy to from n) arena.old table.now }
    ensures { outcome (answer_of result) arena.new table.now ≡ heap_step t m (Call.Copy to from n) (heap_of arena.old table.now) }
{
    let (target, source) = match (
        locate_plain(table, t, m, to),
        locate_plain(table, t, m, from),
    ) {
        (Ok(target), Ok(source)) => (target, source),
        (Err(one), Err(other)) => return Err(first_judged(one, other)),
        (Err(reason), Ok(_)) => return Err(reason),
        (Ok(_), Err(reason)) => return Err(reason),
    };
    if blocks::is_locked(table, t, to) {
        return Err(Refusal::Locked);
    }
    let count = n.min(left_in(target, to)).min(left_in(source, from));
    common::copy(arena, offset(to), offset(from), count as usize);
    Ok(count)
}

pub fn fill(
    arena: &mut [u8],
    table: &[u8],
    t: u32,
    m: u32,
    p: u32,
    v: u8,
    n: u32,
) -> Result<u32, Refusal>
    requires { Ready t m (Call.Fill p v n) arena.old table.now }
    ensures { outcome (answer_of result) arena.new table.now ≡ heap_step t m (Call.Fill p v n) (heap_of arena.old table.now) }
{
    let block = locate_plain(table, t, m, p)?;
    if blocks::is_locked(table, t, p) {
        return Err(Refusal::Locked);
    }
    let count = n.min(left_in(block, p));
    common::fill(arena, offset(p), count as usize, v);
    Ok(count)
}

pub fn set_lock(
    arena: &[u8],
    table: &mut [u8],
    t: u32,
    m: u32,
    p: u32,
    locked: bool,
) -> Result<u32, Refusal>
    requires { Ready t m (Call.SetLock p locked) arena.now table.old }
    ensures { outcome (answer_of result) arena.now table.new ≡ heap_step t m (Call.SetLock p locked) (heap_of arena.now table.old) }
{
    let block = locate_plain(table, t, m, p)?;
    let first = offset(block.start) >> t;
    let entry = blocks::entry_of(block.order, locked);
    common::fill(table, first, blocks::slots_of(t, block.order), entry);
    Ok(0)
}

// The whole grid must lie in the block, whichever of its places is asked for.
pub fn grid(
    arena: &[u8],
    table: &[u8],
    t: u32,
    m: u32,
    p: u32,
    rows: u8,
    columns: u8,
    row: u8,
    column: u8,
) -> Result<u32, Refusal>
    requires { Ready t m (Call.Grid p rows columns row column) arena.now table.now }
    ensures { outcome (answer_of result) arena.now table.now
        ≡ heap_step t m (Call.Grid p rows columns row column) (heap_of arena.now table.now) }
{
    let block = locate_plain(table, t, m, p)?;
    if left_in(block, p) < u32::from(rows) * u32::from(columns) {
        return Err(Refusal::PastTheEnd);
    }
    Ok(p + u32::from(row) * u32::from(columns) + u32::from(column))
}

// The check of an address.
pub fn check(arena: &[u8], table: &[u8], t: u32, m: u32, p: u32, i: u32) -> Result<u32, Refusal>
    requires { Sound t m arena.now table.now }
    ensures { answer_of result ≡ check_step t m p i (heap_of arena.now table.now) }
{
    let block = locate_plain(table, t, m, p)?;
    Ok(u32::from(blocks::passes(p, p, i, block.order)))
}

// A get of any size, a read and a write of any width and value, and a grid with any place: their arguments are judged too. No other call has arguments that
// refuse it.
pub fn any_get(arena: &mut [u8], table: &mut [u8], t: u32, m: u32, n: u32) -> Result<u32, Refusal>
    requires { Sound t m arena.old table.old }
    ensures { outcome (answer_of result) arena.new table.new ≡ heap_step t m (Call.Get n) (heap_of arena.old table.old) }
{
    arguments(m, Call::Get(n))?;
    get(arena, table, t, m, n)
}

pub fn any_read(arena: &[u8], table: &[u8], t: u32, m: u32, p: u32, w: u8) -> Result<u32, Refusal>
    requires { Sound t m arena.now table.now }
    ensures { outcome (answer_of result) arena.now table.now ≡ heap_step t m (Call.Read p w) (heap_of arena.now table.now) }
{
    arguments(m, Call::Read(p, w))?;
    read(arena, table, t, m, p, w)
}

pub fn any_write(
    arena: &mut [u8],
    table: &[u8],
    t: u32,
    m: u32,
    p: u32,
    w: u8,
    v: u32,
) -> Result<u32, Refusal>
    requires { Sound t m arena.old table.now }
    ensures { outcome (answer_of result) arena.new table.now ≡ heap_step t m (Call.Write p w v) (heap_of arena.old table.now) }
{
    arguments(m, Call::Write(p, w, v))?;
    write(arena, table, t, m, p, w, v)
}

pub fn any_grid(
    arena: &[u8],
    table: &[u8],
    t: u32,
    m: u32,
    p: u32,
    rows: u8,
    columns: u8,
    row: u8,
    column: u8,
) -> Result<u32, Refusal>
    requires { Sound t m arena.now table.now }
    ensures { outcome (answer_of result) arena.now table.now
        ≡ heap_step t m (Call.Grid p rows columns row column) (heap_of arena.now table.now) }
{
    arguments(m, Call::Grid(p, rows, columns, row, column))?;
    grid(arena, table, t, m, p, rows, columns, row, column)
}

// Any call, its arguments judged too: only lengths and damage are taken for granted. The run is its one caller, and so the compiler puts it into the run's
// loop; with a second caller it would be handed each call in memory.
#[tactic(auto, unfolding(crate::specs::Rules::argument_rules))]
pub fn call(arena: &mut [u8], table: &mut [u8], t: u32, m: u32, c: Call) -> Result<u32, Refusal>
    requires { Sound t m arena.old table.old }
    ensures { outcome (answer_of result) arena.new table.new ≡ heap_step t m c (heap_of arena.old table.old) }
{
    match c {
        Call::Get(n) => any_get(arena, table, t, m, n),
        Call::Give(p) => give(arena, table, t, m, p),
        Call::Step(p, i) => step(arena, table, t, m, p, i),
        Call::Read(p, w) => any_read(arena, table, t, m, p, w),
        Call::Write(p, w, v) => any_write(arena, table, t, m, p, w, v),
        Call::Left(p) => left(arena, table, t, m, p),
        Call::Copy(p, q, n) => copy(arena, table, t, m, p, q, n),
        Call::Fill(p, v, n) => fill(arena, table, t, m, p, v, n),
        Call::SetLock(p, locked) => set_lock(arena, table, t, m, p, locked),
        Call::Grid(p, rows, columns, row, column) => any_grid(
            arena, table, t, m, p, rows, columns, row, column,
        ),
    }
}
