// The damage scan: an outer loop over slots and an inner one over the aligned range round a slot, left by label at the first difference. A table of rows is
// passed row by row, and slots that are seen together to part well are passed at once: what is gone through by slots is at most two of them, or damaged.
ghost use Rattle.std.specs.Prelude.{◌≡◌, ◌+◌, ◌-◌, ◌^◌, ◌<◌, ◌≤◌, ◌||◌, length, ◌==◌};
ghost use Rattle.blocks.specs.Placing.{all_free};
ghost use Rattle.blocks.specs.Tables.{damaged_by};
ghost use Rattle.blocks.specs.Inner.{single, parts_well, Tells};

use crate::{ROW, ROW_LEVELS, order_in, slots_of};
use std::simd::prelude::*;

// The bits of an entry that say its order: all but the lock's.
const ORDER_BITS: u8 = 127;

// By how much the order of a block can be above that of a slot, for it to begin or end before slot k of a row: 2 to that is the largest power that divides k.
// Before the first slot any can.
const PARTING: [u8; ROW] = [127, 0, 1, 0, 2, 0, 1, 0, 3, 0, 1, 0, 2, 0, 1, 0];

// The slots of a row that begins with four slots, or with eight: the next number stands for a free one.
const FOUR_SLOTS: [usize; ROW] = [0, 1, 2, 3, 4, 4, 4, 4, 4, 4, 4, 4, 4, 4, 4, 4];

const EIGHT_SLOTS: [usize; ROW] = [0, 1, 2, 3, 4, 5, 6, 7, 8, 8, 8, 8, 8, 8, 8, 8];

// Whether the table of an arena of order m is damaged. A block that is found whole is passed whole, so that each slot is looked at once, or twice where
// it is the first of a block: how far the outer loop goes on is what the table says, so it is no `for`. The range of a block that is no single slot is
// compared two slots at a time, and that loop is no `for` either: each of the two made tables faster while all of less than a row, and most rows, came here,
// and is kept since.
pub fn by_slots(table: &[u8], t: u32, m: u32) -> bool
    requires { (1 ≤ t) × (t ≤ m) × (m ≤ 16) × (length table.now ≡ 2 ^ (m - t)) }
    ensures { result ≡ damaged_by t m table.now }
{
    'scan: {
        let mut i = 0usize;
        while i < table.len() {
            let x = table[i];
            if is_single(t, x) {
                i += 1;
                continue;
            }
            let e = order_in(x);
            if !(t..=m).contains(&e) {
                break 'scan true;
            }
            let slots = slots_of(t, e);
            let from = i / slots * slots;
            let to = from + slots;
            let mut k = from;
            while k < to {
                if table[k] != x {
                    break 'scan true;
                }
                if table[k + 1] != x {
                    break 'scan true;
                }
                k += 2;
            }
            i = to;
        }
        false
    }
}

// The same for a table of four or eight slots: they are looked at as the first slots of a row whose others are free.
pub fn as_row(table: &[u8], t: u32, m: u32) -> bool
    requires { (1 ≤ t) × (t + 2 ≤ m) × (m < t + 4) × (m ≤ 16) × (length table.now ≡ 2 ^ (m - t)) }
    ensures { result ≡ damaged_by t m table.now }
{
    let slots = if m == t + 2 {
        u8x4::from_slice(table).shuffle(u8x4::splat(0), FOUR_SLOTS)
    } else {
        u8x8::from_slice(table).shuffle(u8x8::splat(0), EIGHT_SLOTS)
    };
    !all_part_well(slots, t, m) && by_slots(table, t, m)
}

// The same for a table of rows: a row of blocks that lie in it is a table of its own, and a larger block has rows alike. (With the inner loop over
// `chunks_exact` the compiler puts the parts of the scan in another order, and a give at m = 6 misses its goal.)
pub fn by_rows(table: &[u8], t: u32, m: u32) -> bool
    requires { (1 ≤ t) × (t + 4 ≤ m) × (m ≤ 16) × (length table.now ≡ 2 ^ (m - t)) }
    ensures { result ≡ damaged_by t m table.now }
{
    'scan: {
        let mut i = 0usize;
        while i < table.len() {
            let x = table[i];
            let e = order_in(x);
            if e <= t + ROW_LEVELS {
                let end = i + ROW;
                if row_damaged(&table[i..end], t) {
                    break 'scan true;
                }
                i = end;
                continue;
            }
            if m < e {
                break 'scan true;
            }
            let slots = slots_of(t, e);
            let from = i / slots * slots;
            let to = from + slots;
            let mut at = from;
            while at < to {
                let end = at + ROW;
                if !row_passes(&table[at..end], |y| y == x) {
                    break 'scan true;
                }
                at = end;
            }
            i = to;
        }
        false
    }
}

// Whether a row, as the table of an arena of as many slots, is damaged.
fn row_damaged(row: &[u8], t: u32) -> bool
    requires { (1 ≤ t) × (t + 4 ≤ 16) × (length row.now ≡ 16) }
    ensures { result ≡ damaged_by t (t + 4) row.now }
{
    !all_part_well(u8x16::from_slice(row), t, t + ROW_LEVELS) && by_slots(row, t, t + ROW_LEVELS)
}

// Whether each slot of a row parts well from the one before it: then the row is undamaged, since a block goes on until it can end. It looks at all slots at
// once and has no branch, so how long it takes hangs on no entry, and hardly on where the linker puts the code. (A loop over slots that says the same is
// compiled to some two hundred instructions, and takes four times as long.) The vectors need no more than any x86-64 has.
fn all_part_well(x: u8x16, t: u32, m: u32) -> bool
    requires { (t ≤ m) × (m ≤ 16) }
    ensures { result ≡ all_free (parts_well t m x) 0 16 }
{
    let order_bits = u8x16::splat(ORDER_BITS);
    let before = x.rotate_elements_right::<1>();
    let e = x & order_bits;
    let lowest = u8x16::splat(t as u8);
    let limit = lowest + u8x16::from_array(PARTING);
    let parts = x.simd_eq(before) | (e.simd_le(limit) & (before & order_bits).simd_le(limit));
    let stands = x.simd_eq(u8x16::splat(0))
        | (e.simd_ge(lowest) & e.simd_le(u8x16::splat(m as u8)));
    (parts & stands).all()
}

// Whether each slot of a row passes the test. It looks at every slot, so that the compiler compares them at once, and from the last one down, so that a
// caller's own look at the first one does not part it from the others.
pub fn row_passes<F: Fn(u8) -> bool>(row: &[u8], test: F) -> bool
    requires sixteen { length row.now ≡ 16 }
    requires callable { F.IsAlwaysCallable test }
    ensures { Tells (F.post test) row.now 16 result }
{
    let mut same = true;
    for i in (0..ROW).rev() {
        if !test(row[i]) {
            same = false;
        }
    }
    same
}

// Whether an entry speaks of its slot alone: the slot is free, or a block.
#[tactic(auto, unfolding(crate::specs::Inner::single))]
fn is_single(t: u32, x: u8) -> bool
    ensures { result ≡ single t x }
{
    x == 0 || order_in(x) == t
}
