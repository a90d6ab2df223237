// The search for the smallest maximal free range, recursive on halves, the order falling. A part of more than a row is searched in the table. A part
// of at most a row is read once, as the bits of its free slots, and its halves are the halves of that number.
ghost use Rattle.std.specs.Prelude.{◌≡◌, ◌+◌, ◌-◌, ◌*◌, ◌%◌, ◌^◌, ◌<◌, ◌≤◌, ◌&&◌, length, ◌==◌, nat_le, nat_lt, option_map};
ghost use Rattle.blocks.specs.Orders.{unless_zero};
ghost use Rattle.blocks.specs.Placing.{all_free, as_place};
ghost use Rattle.blocks.specs.Tables.{free_in};
ghost use Rattle.blocks.specs.Inner.{bits_of, as_free, decided_by, place_at, SearchedBits, SearchedPart};

use crate::scan::row_passes;
use crate::{Place, ROW, ROW_LEVELS, order_in, size_of};

// How many keys an order has: more than there are slots.
const KEYS: u32 = 65536;

// A place as a number, its slot below its order: the smaller, the better. (An `Option<Place>` would go through memory at each part.)
#[derive(Clone, Copy, PartialEq, Eq, PartialOrd, Ord)]
pub struct Key(u32);

impl Key {
    // The key of no place, 17 times KEYS: above that of any.
    const NOWHERE: Key = Key(1114112);

    // The key of the range of this order at `slot`.
    fn new(slot: usize, order: u32) -> Key
        requires { (slot < 65536) × (order ≤ 17) }
        ensures { result.0 ≡ order * 65536 + slot }
    {
        Key(order * KEYS + slot as u32)
    }

    // The place that has this key.
    pub fn place(self) -> Option<Place>
        ensures { as_place result ≡ place_at self.0 }
    {
        if self == Key::NOWHERE {
            return None;
        }
        Some(Place {
            slot: (self.0 % KEYS) as usize,
            order: self.0 / KEYS,
        })
    }
}

// The key for a block of order e in an arena of order m with this undamaged table. An arena of at most a row is spared the frame of the
// recursion on parts, a fifth of the time of a small search.
pub fn place_key(table: &[u8], t: u32, m: u32, e: u32) -> Key
    requires { (1 ≤ t) × (t ≤ e) × (e ≤ m) × (m ≤ 16) × (length table.now ≡ 2 ^ (m - t)) }
    ensures { SearchedPart t table.now 0 m e result.0 }
{
    if m <= t + ROW_LEVELS {
        return search_row(table, t, 0, m, e);
    }
    search(table, t, 0, m, e)
}

// The key for a block of order e in a part of order k, which begins at the slot `from` of an undamaged table. A part that lies in a block, or is all
// free or all taken, or has the order that is sought, is answered at once. So is one that has a range of order e in its left half: none is better.
fn search(part: &[u8], t: u32, from: usize, k: u32, e: u32) -> Key
    requires { (1 ≤ t) × (t ≤ e) × (e ≤ k) × (k ≤ 16) × (length part.now ≡ 2 ^ (k - t)) × (from + 2 ^ (k - t) ≤ 65536) }
    ensures { SearchedPart t part.now from k e result.0 }
{
    if k <= t + ROW_LEVELS {
        return search_row(part, t, from, k, e);
    }
    let x = order_in(part[0]);
    if k <= x {
        return Key::NOWHERE;
    }
    if uniform(part, t, x) {
        return if x == 0 {
            Key::new(from, k)
        } else {
            Key::NOWHERE
        };
    }
    if k == e {
        return Key::NOWHERE;
    }
    let n = part.len();
    let half = n / 2;
    let left = search(&part[0..half], t, from, k - 1, e);
    if is_exact(left, e) {
        return left;
    }
    let right = search(&part[half..n], t, from + half, k - 1, e);
    right.min(left)
}

// Whether a part of whole rows, with x the order in its first slot's entry, is all free, or all taken. A part that begins with a block of more than a
// row is told apart at once, as if it were neither: its halves are answered without a look at its rows.
fn uniform(part: &[u8], t: u32, x: u32) -> bool
    requires { (t ≤ 16) × (length part.now % 16 ≡ 0) }
    ensures { result ≡ nat_le x (t + 4) && all_free (as_free part.now (x == 0)) 0 (length part.now) }
{
    if t + ROW_LEVELS < x {
        return false;
    }
    for row in part.chunks_exact(ROW) {
        if !row_passes(row, |y| (y == 0) == (x == 0)) {
            return false;
        }
    }
    true
}

// The key for a block of order e in a part of order k of at most a row, which begins at the slot `from` of the table.
fn search_row(part: &[u8], t: u32, from: usize, k: u32, e: u32) -> Key
    requires { (1 ≤ t) × (t ≤ e) × (e ≤ k) × (k ≤ t + 4) × (k ≤ 16) × (length part.now ≡ 2 ^ (k - t)) × (from + 2 ^ (k - t) ≤ 65536) }
    ensures { SearchedPart t part.now from k e result.0 }
{
    let bits = free_bits(part);
    match decided(bits, t, from, k, e) {
        Some(found) => found,
        None => search_bits(bits, t, from, k, e),
    }
}

// The free slots of a part of at most a row, as bits: the first slot is the lowest.
fn free_bits(part: &[u8]) -> u32
    requires { length part.now ≤ 16 }
    ensures { result ≡ bits_of (free_in part.now) 0 (length part.now) }
{
    let mut bits = 0;
    for &x in part.iter().rev() {
        bits = bits * 2 + u32::from(x == 0);
    }
    bits
}

// The answer for a part with these free slots, where no half needs to be looked at: none is free, all are, or the part has the order that is sought.
fn decided(bits: u32, t: u32, from: usize, k: u32, e: u32) -> Option<Key>
    requires { (1 ≤ t) × (t ≤ k) × (k ≤ t + 4) × (k ≤ 16) × (from + 2 ^ (k - t) ≤ 65536) }
    ensures { option_map (λ found. found.0) result ≡ unless_zero (decided_by t bits from k e) }
{
    if bits == 0 {
        return Some(Key::NOWHERE);
    }
    let n = size_of(k - t);
    if bits == size_of(n) - 1 {
        return Some(Key::new(from, k));
    }
    if k == e {
        return Some(Key::NOWHERE);
    }
    None
}

// The answer for a part that is not decided, by its halves. Each is decided before it is searched, which saves most calls.
fn search_bits(bits: u32, t: u32, from: usize, k: u32, e: u32) -> Key
    requires { (1 ≤ t) × (t ≤ e) × (e < k) × (k ≤ t + 4) × (k ≤ 16) × (from + 2 ^ (k - t) ≤ 65536) }
    ensures { SearchedBits t bits from k e result.0 }
{
    let half = size_of(k - 1 - t);
    let size = size_of(half);
    let left = match decided(bits % size, t, from, k - 1, e) {
        Some(found) => found,
        None => search_bits(bits % size, t, from, k - 1, e),
    };
    if is_exact(left, e) {
        return left;
    }
    let mid = from + half as usize;
    let right = match decided(bits / size, t, mid, k - 1, e) {
        Some(found) => found,
        None => search_bits(bits / size, t, mid, k - 1, e),
    };
    right.min(left)
}

// Whether a key is that of a range of order e: none is better.
fn is_exact(found: Key, e: u32) -> bool
    requires { e ≤ 16 }
    ensures { result ≡ nat_lt found.0 ((e + 1) * 65536) }
{
    found < Key::new(0, e + 1)
}
