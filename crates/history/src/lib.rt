// A list of calls from a fresh heap, replayed.
#![tactic(auto)]

ghost use Rattle.std.specs.Prelude.{◌≡◌, ◌+◌, ◌≤◌, true, length, slice_index, IfOk, Some};
ghost use Rattle.common.specs.Refusals.{first};
ghost use Rattle.common.specs.Numbers.{number_in};
ghost use Rattle.blocks.specs.Orders.{unless_zero};
ghost use Rattle.heap.specs.Views.{slot_order};
ghost use Rattle.heap.specs.Answers.{answer_of};
ghost use Rattle.heap.specs.OperationNumbers.{names_call};
ghost use Rattle.heap.specs.Heaps.{heap_of, heap_step, outcome};
ghost use Rattle.heap.specs.Inner.{Sound, heap_order};
ghost use Rattle.history.specs.Replaying.{call_length, grid_from, second_byte, call_at, call_count, unknown_from, replay_rules, replayed, replay_of};

use common::Refusal;
use heap::answers::ANSWER_LENGTH;
use heap::operations::Operation;
use heap::{Answer, SLOT_ORDER, operations, unchecked};

// Bytes of a call: its operation, a byte, three numbers of four bytes.
const CALL_LENGTH: usize = 14;

// Makes the grid at p whose rows, columns, row and column are the bytes of the second number of the call at `at`.
fn make_grid_at(
    arena: &[u8],
    table: &[u8],
    m: u32,
    s: &[u8],
    at: usize,
    p: u32,
) -> Result<u32, Refusal>
    requires sound { Sound slot_order m arena.now table.now }
    requires inside { at + call_length ≤ length s.now }
    ensures { outcome (answer_of result) arena.now table.now
        ≡ heap_step slot_order m (grid_from p (second_byte s.now at)) (heap_of arena.now table.now) }
{
    unchecked::any_grid(
        arena,
        table,
        SLOT_ORDER,
        m,
        p,
        s[at + 6],
        s[at + 7],
        s[at + 8],
        s[at + 9],
    )
}

// Makes the call in the CALL_LENGTH bytes from `at` on. Each arm calls its own inner function: why not `unchecked::call`, is said there.
fn make_call_at(
    arena: &mut [u8],
    table: &mut [u8],
    m: u32,
    s: &[u8],
    at: usize,
) -> Result<u32, Refusal>
    requires sound { Sound slot_order m arena.old table.old }
    requires inside { at + call_length ≤ length s.now }
    requires known { names_call (slice_index s.now at) ≡ true }
    ensures { outcome (answer_of result) arena.new table.new
        ≡ heap_step slot_order m (call_at s.now at) (heap_of arena.old table.old) }
{
    let x = s[at + 1];
    let a = common::read_number(s, at + 2, 4);
    let b = common::read_number(s, at + 6, 4);
    let c = common::read_number(s, at + 10, 4);
    match Operation::known(s[at]) {
        Operation::Get => unchecked::any_get(arena, table, SLOT_ORDER, m, a),
        Operation::Give => unchecked::give(arena, table, SLOT_ORDER, m, a),
        Operation::Step => unchecked::step(arena, table, SLOT_ORDER, m, a, b),
        Operation::Read => unchecked::any_read(arena, table, SLOT_ORDER, m, a, x),
        Operation::Write => unchecked::any_write(arena, table, SLOT_ORDER, m, a, x, b),
        Operation::Left => unchecked::left(arena, table, SLOT_ORDER, m, a),
        Operation::Copy => unchecked::copy(arena, table, SLOT_ORDER, m, a, b, c),
        Operation::Fill => unchecked::fill(arena, table, SLOT_ORDER, m, a, x, c),
        Operation::Lock => unchecked::set_lock(arena, table, SLOT_ORDER, m, a, true),
        Operation::Unlock => unchecked::set_lock(arena, table, SLOT_ORDER, m, a, false),
        Operation::Again | Operation::Set | Operation::Grid => {
            make_grid_at(arena, table, m, s, at, a)
        }
    }
}

// Whether a call has an operation that names no call.
fn any_unknown(calls: &[u8]) -> bool
    ensures { result ≡ unknown_from calls.now 0 (call_count calls.now) }
{
    for i in 0..calls.len() / CALL_LENGTH {
        if !operations::names_call(calls[i * CALL_LENGTH]) {
            return true;
        }
    }
    false
}

// Judges a replay, and gives the order of its heap.
fn judge(arena: &[u8], table: &[u8], calls: &[u8], out: &[u8]) -> Result<u32, Refusal>
    ensures number { number_in result ≡ first (replay_rules calls.now (heap_of arena.now table.now) out.now) }
    ensures order { IfOk result (λ m. Some m ≡ unless_zero (heap_order slot_order arena.now table.now)) }
{
    if calls.len() % CALL_LENGTH != 0 {
        return Err(Refusal::CutOff);
    }
    if any_unknown(calls) {
        return Err(Refusal::UnknownOperation);
    }
    let m = heap::sizes::order_of(arena, table, SLOT_ORDER).ok_or(Refusal::WrongSizes)?;
    if out.len() / ANSWER_LENGTH < calls.len() / CALL_LENGTH {
        return Err(Refusal::NoRoom);
    }
    Ok(m)
}

// Carries the calls out on a fresh heap, and stores their answers in `out`, one after the other. What comes out is what the ledger gives.
pub fn replay(
    arena: &mut [u8],
    table: &mut [u8],
    calls: &[u8],
    out: &mut [u8],
) -> Result<(), Refusal>
    ensures { replayed (number_in result) arena.new table.new out.new
        ≡ replay_of calls.now (heap_of arena.old table.old) out.old }
{
    let m = judge(arena, table, calls, out)?;
    heap::fresh(arena, table).unwrap();
    for i in 0..calls.len() / CALL_LENGTH {
        let result = make_call_at(arena, table, m, calls, i * CALL_LENGTH);
        heap::answers::store(out, i * ANSWER_LENGTH, Answer::from(result));
    }
    Ok(())
}
