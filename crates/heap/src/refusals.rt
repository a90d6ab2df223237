// What a call's input and the table's state decide before the call is carried out, and where a pointer leads.
ghost use Rattle.std.specs.Prelude.{◌≡◌, ◌-◌, ◌^◌, ◌≤◌, false, ◌||◌, leb, [], ◌∷◌, length, nat_le};
ghost use Rattle.common.specs.Refusals.{◌when◌, first};
ghost use Rattle.common.specs.Numbers.{number_in};
ghost use Rattle.blocks.specs.Tables.{damaged_by};
ghost use Rattle.heap.specs.Rules.{bad_width, argument_rules};
ghost use Rattle.heap.specs.Heaps.{heap_of, heap_view};
ghost use Rattle.heap.specs.Inner.{before_call, located, located_plain, located_of};

use crate::Call;
use blocks::Block;
use common::Refusal;

fn bad_width(w: u8) -> bool
    ensures { result ≡ bad_width w }
{
    !matches!(w, 1 | 2 | 4)
}

// How many numbers one byte and two bytes have.
const ONE_BYTE: u32 = 256;

const TWO_BYTES: u32 = 65536;

// Whether v needs more than w bytes.
fn too_wide(v: u32, w: u8) -> bool
    requires { bad_width w ≡ false }
    ensures { result ≡ nat_le (256 ^ w) v }
{
    match w {
        1 => ONE_BYTE <= v,
        2 => TWO_BYTES <= v,
        _ => false,
    }
}

// A read or a write by its arguments: its width is 1, 2 or 4, and v fits it.
fn access(w: u8, v: u32) -> Result<(), Refusal>
    ensures { number_in result ≡ first (11 when bad_width w ∷ 12 when leb (256 ^ w) v ∷ []) }
{
    if bad_width(w) {
        return Err(Refusal::BadWidth);
    }
    if too_wide(v, w) {
        return Err(Refusal::TooWide);
    }
    Ok(())
}

// A get by its arguments: some bytes, and no more than the arena has.
#[tactic(auto, unfolding(crate::specs::Rules::argument_rules))]
fn request(m: u32, n: u32) -> Result<(), Refusal>
    requires { m ≤ 16 }
    ensures { number_in result ≡ first (argument_rules m (Call.Get n)) }
{
    if n == 0 {
        return Err(Refusal::BadRequest);
    }
    if blocks::size_of(m) < n {
        return Err(Refusal::BadRequest);
    }
    Ok(())
}

// A grid by its arguments: it has the place that is asked for.
fn grid_place(rows: u8, columns: u8, row: u8, column: u8) -> Result<(), Refusal>
    ensures { number_in result ≡ first (30 when (nat_le rows row || nat_le columns column) ∷ []) }
{
    if rows <= row || columns <= column {
        return Err(Refusal::NoPlace);
    }
    Ok(())
}

// A call by its arguments alone. What refuses a pointer depends on where it leads, and is judged later (`locate_plain`).
#[tactic(auto, unfolding(crate::specs::Rules::argument_rules))]
pub fn arguments(m: u32, c: Call) -> Result<(), Refusal>
    requires { m ≤ 16 }
    ensures { number_in result ≡ first (argument_rules m c) }
{
    match c {
        Call::Get(n) => request(m, n),
        Call::Read(_, w) => access(w, 0),
        Call::Write(_, w, v) => access(w, v),
        Call::Grid(_, rows, columns, row, column) => grid_place(rows, columns, row, column),
        Call::Give(_)
        | Call::Step(_, _)
        | Call::Left(_)
        | Call::Copy(_, _, _)
        | Call::Fill(_, _, _)
        | Call::SetLock(_, _) => Ok(()),
    }
}

// A call before it is carried out, on a heap of order m: its arguments, and then the table.
pub fn before_call(table: &[u8], t: u32, m: u32, c: Call) -> Result<(), Refusal>
    requires { (1 ≤ t) × (t ≤ m) × (m ≤ 16) × (length table.now ≡ 2 ^ (m - t)) }
    ensures { number_in result ≡ before_call t m (first (argument_rules m c)) table.now }
{
    arguments(m, c)?;
    if blocks::damaged(table, t, m) {
        return Err(Refusal::Damaged);
    }
    Ok(())
}

// Where a pointer leads: to the block of its referent, or to what refuses it. So judges every call that needs a pointer's referent, the table being undamaged.
// The arena plays no part, so the view has an empty one.
pub fn locate(table: &[u8], t: u32, m: u32, p: u32) -> Result<Block, Refusal>
    requires { (1 ≤ t) × (t ≤ m) × (m ≤ 16) × (length table.now ≡ 2 ^ (m - t)) × (damaged_by t m table.now ≡ false) }
    ensures { located_of result ≡ located (heap_view t m (heap_of [] table.now)) p }
{
    let h = blocks::sought_address(t, p);
    match blocks::referent_in(table, t, m, h) {
        Some(block) => Ok(block),
        None if blocks::is_outside(table, t, m, h) => Err(Refusal::Outside),
        None => Err(Refusal::Dead),
    }
}

// The same where the pointer must be plain, so in every call but step: a marked one that has a referent is refused 13.
pub fn locate_plain(table: &[u8], t: u32, m: u32, p: u32) -> Result<Block, Refusal>
    requires { (1 ≤ t) × (t ≤ m) × (m ≤ 16) × (length table.now ≡ 2 ^ (m - t)) × (damaged_by t m table.now ≡ false) }
    ensures { located_of result ≡ located_plain (heap_view t m (heap_of [] table.now)) p }
{
    let block = locate(table, t, m, p)?;
    if blocks::is_marked(p) {
        return Err(Refusal::Marked);
    }
    Ok(block)
}
