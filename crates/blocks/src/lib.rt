// Aligned blocks and their table: the damage scan, a pointer's referent, the check of a step, and the search for a free range. A slot has 2^t bytes.
#![tactic(auto)]

ghost use Rattle.std.specs.Prelude.{◌≡◌, ◌+◌, ◌-◌, ◌^◌, ◌<◌, ◌≤◌, false, length, pos};
ghost use Rattle.blocks.specs.Blocks.{Found, as_referent, floor, holds};
ghost use Rattle.blocks.specs.Orders.{order_of, unless_zero, needed_order};
ghost use Rattle.blocks.specs.Inner.{from_zero};
ghost use Rattle.blocks.specs.Tables.{entry_order, entry_of, damaged_by, free_in, locked_in, referent_in};
ghost use Rattle.blocks.specs.Placing.{as_place, place_in};
ghost use Rattle.blocks.specs.Pointers.{sought, outside_at, marked, address, exact_sum, wrapped_sum, check_bits, within};

mod scan;
mod search;

// The arena's first address, and the bit that marks a pointer.
pub const BASE: u32 = 65536;

pub const MARK: u32 = 2147483648;

// The top bit of an entry, which says that the block is locked.
const LOCK: u32 = 128;

// The smallest and the largest order of an arena.
pub const SMALLEST_ARENA: u32 = 5;

pub const LARGEST_ARENA: u32 = 16;

// A row: as many slots as are compared at a time, and by how much the order of a block that has as many is above that of a slot.
const ROW: usize = 16;

const ROW_LEVELS: u32 = 4;

// A block, by the address of its first byte and its order: it has 2^order bytes.
#[derive(Clone, Copy, Debug, PartialEq, Eq)]
pub struct Block {
    pub start: u32,
    pub order: u32,
}

// A free range, by its first slot and its order.
#[derive(Clone, Copy, Debug, PartialEq, Eq)]
pub struct Place {
    pub slot: usize,
    pub order: u32,
}

// The order m of an arena of `len` bytes, if some arena has that length.
pub fn order_of(len: usize) -> Option<u32>
    ensures { result ≡ unless_zero (order_of len) }
{
    for m in SMALLEST_ARENA..=LARGEST_ARENA {
        if len == size_of(m) as usize {
            return Some(m);
        }
    }
    None
}

pub fn size_of(e: u32) -> u32
    requires { e ≤ 16 }
    ensures { result ≡ 2 ^ e }
{
    1u32 << e
}

// The order that an entry says.
pub fn order_in(x: u8) -> u32
    ensures { result ≡ entry_order x }
{
    u32::from(x) % LOCK
}

// The entry of a block's slots.
pub fn entry_of(e: u32, locked: bool) -> u8
    requires { e ≤ 16 }
    ensures { result ≡ entry_of e locked }
{
    if locked { (LOCK + e) as u8 } else { e as u8 }
}

// How many slots a block of order e has.
pub fn slots_of(t: u32, e: u32) -> usize
    requires { (t ≤ e) × (e ≤ 16) }
    ensures { result ≡ 2 ^ (e - t) }
{
    size_of(e - t) as usize
}

// The order that a get of n bytes needs in an arena of order m.
pub fn needed_order(t: u32, m: u32, n: u32) -> u32
    requires { (t ≤ m) × (m ≤ 16) }
    ensures { result ≡ needed_order t m n }
{
    for e in t..m {
        if n <= size_of(e) {
            return e;
        }
    }
    m
}

// Whether r lies in the aligned block of 2^e that holds h.
pub fn same_block(h: u32, r: u32, e: u32) -> bool
    requires { e < 32 }
    ensures by_bits { result ≡ check_bits e h r }
    ensures by_range { result ≡ holds (record { start = floor e h; order = e }) r }
{
    (h ^ r) >> e == 0
}

// The check of a step i from the address q, in two's complement, that must stay in the block of order e that holds h.
pub fn passes(h: u32, q: u32, i: u32, e: u32) -> bool
    requires { e < 32 }
    ensures by_bits { result ≡ check_bits e h (wrapped_sum q i) }
    ensures by_range { h < 2 ^ 31 → q < 2 ^ 31 → result ≡ within (Found (floor e h) e) (exact_sum q i) }
{
    same_block(h, std::num::wrapping_add_u32(q, i), e)
}

pub fn is_marked(p: u32) -> bool
    ensures { result ≡ marked p }
{
    p >= MARK
}

pub fn address_of(p: u32) -> u32
    ensures { result ≡ address p }
{
    if is_marked(p) { p - MARK } else { p }
}

// The address at which p's referent is sought. A negative one is given as 0, where no block is either.
pub fn sought_address(t: u32, p: u32) -> u32
    requires { (1 ≤ t) × (t ≤ 16) }
    ensures { result ≡ from_zero (sought t p) }
{
    let q = address_of(p);
    if !is_marked(p) {
        return q;
    }
    let slot = size_of(t);
    if q % slot >= size_of(t - 1) {
        return q + slot;
    }
    if q < slot {
        return 0;
    }
    q - slot
}

// The block that holds the address q, by an undamaged table.
pub fn referent_in(table: &[u8], t: u32, m: u32, q: u32) -> Option<Block>
    requires { (1 ≤ t) × (t ≤ m) × (m ≤ 16) × (length table.now ≡ 2 ^ (m - t)) × (damaged_by t m table.now ≡ false) }
    ensures { as_referent result ≡ referent_in t table.now q }
{
    if q < BASE {
        return None;
    }
    let x = q - BASE;
    let i = (x >> t) as usize;
    if table.len() <= i {
        return None;
    }
    let entry = table[i];
    if entry == 0 {
        return None;
    }
    let e = order_in(entry);
    let size = size_of(e);
    let start = BASE + x / size * size;
    Some(Block { start, order: e })
}

// Whether the block that holds the address q is locked. The tests are those of `referent_in`, so that the compiler makes them once.
pub fn is_locked(table: &[u8], t: u32, q: u32) -> bool
    requires { t ≤ 16 }
    ensures { result ≡ locked_in t table.now q }
{
    if q < BASE {
        return false;
    }
    let i = ((q - BASE) >> t) as usize;
    if table.len() <= i {
        return false;
    }
    LOCK <= u32::from(table[i])
}

// Whether the address q lies outside the arena of this table. The tests are those by which `referent_in` finds no slot, so that the compiler makes them
// once.
pub fn is_outside(table: &[u8], t: u32, m: u32, q: u32) -> bool
    requires { (1 ≤ t) × (t ≤ m) × (m ≤ 16) × (length table.now ≡ 2 ^ (m - t)) }
    ensures { result ≡ outside_at m (pos q) }
{
    if q < BASE {
        return true;
    }
    let i = ((q - BASE) >> t) as usize;
    table.len() <= i
}

// Whether the table of an arena of order m is damaged. Two slots are gone through sooner than they are looked at as a row. The scan is lent a part that is
// the whole table: a slice that is handed on itself would be passed through memory by every caller of this function.
pub fn damaged(table: &[u8], t: u32, m: u32) -> bool
    requires { (1 ≤ t) × (t ≤ m) × (m ≤ 16) × (length table.now ≡ 2 ^ (m - t)) }
    ensures { result ≡ damaged_by t m table.now }
{
    let n = table.len();
    if m < t + 2 {
        return scan::by_slots(&table[0..n], t, m);
    }
    if m < t + ROW_LEVELS {
        return scan::as_row(&table[0..n], t, m);
    }
    scan::by_rows(&table[0..n], t, m)
}

// The place for a block of order e in an arena of order m with an undamaged table: the maximal free range of the smallest order that is at
// least e, of equals the lowest.
pub fn find_place(table: &[u8], t: u32, m: u32, e: u32) -> Option<Place>
    requires { (1 ≤ t) × (t ≤ e) × (e ≤ m) × (m ≤ 16) × (length table.now ≡ 2 ^ (m - t)) × (damaged_by t m table.now ≡ false) }
    ensures { as_place result ≡ place_in (free_in table.now) t 0 m e }
{
    search::place_key(table, t, m, e).place()
}
