// The writer: a file's head, a record, and an accepted file anew.
ghost use Rattle.std.specs.Prelude.{◌≡◌, ◌+◌, ◌≤◌, length};
ghost use Rattle.common.specs.Bytes.{over};
ghost use Rattle.heap.specs.OperationNumbers.{number_of};
ghost use Rattle.takes.specs.Operations.{sizes};
ghost use Rattle.takes.specs.Reading.{high_register};
ghost use Rattle.takes.specs.Records.{operation, fields};
ghost use Rattle.takes.specs.Inner.{most_fields, padded};
ghost use Rattle.takes.specs.Writing.{write_outcome, written_of, write_head, write_record, rewrite_file, value_bytes};

use crate::files::{is_arena_order, judge};
use crate::table::{FIELDS, Kind, byte_of, row_of};
use crate::unchecked::Accepted;
use crate::{HEAD, Record};
use common::Refusal;
use heap::operations::Operation;
use heap::operations::Operation::{
    Again, Copy, Fill, Get, Give, Grid, Left, Lock, Read, Set, Step, Unlock, Write,
};

// A record taken apart: its operation, and the values of its fields, 0 where it has no further one.
fn parts_of(r: Record) -> (Operation, [u32; FIELDS])
    ensures { (number_of result.0 ≡ operation r) × (result.1 ≡ padded (fields r)) }
{
    match r {
        Record::Get(d, n) => (Get, [u32::from(d), n, 0, 0, 0, 0]),
        Record::Give(a) => (Give, [u32::from(a), 0, 0, 0, 0, 0]),
        Record::Step(d, a, i) => (Step, [u32::from(d), u32::from(a), i, 0, 0, 0]),
        Record::Read(d, a, w) => (Read, [u32::from(d), u32::from(a), u32::from(w), 0, 0, 0]),
        Record::Write(a, w, v) => (Write, [u32::from(a), u32::from(w), v, 0, 0, 0]),
        Record::Left(d, a) => (Left, [u32::from(d), u32::from(a), 0, 0, 0, 0]),
        Record::Copy(d, a, b, n) => (Copy, [u32::from(d), u32::from(a), u32::from(b), n, 0, 0]),
        Record::Fill(d, a, v, n) => (Fill, [u32::from(d), u32::from(a), u32::from(v), n, 0, 0]),
        Record::Lock(a) => (Lock, [u32::from(a), 0, 0, 0, 0, 0]),
        Record::Unlock(a) => (Unlock, [u32::from(a), 0, 0, 0, 0, 0]),
        Record::Again(d, k) => (Again, [u32::from(d), u32::from(k), 0, 0, 0, 0]),
        Record::Set(d, n) => (Set, [u32::from(d), n, 0, 0, 0, 0]),
        Record::Grid(d, a, rows, columns, row, column) => {
            (Grid, [d, a, rows, columns, row, column].map(u32::from))
        }
    }
}

// Whether a record to be written has a register past the last.
fn high_in_values(values: &[u32; FIELDS], kinds: &[Kind]) -> bool
    requires { length kinds.now ≤ most_fields }
    ensures { result ≡ high_register kinds.now values.now }
{
    for (kind, v) in kinds.iter().zip(values) {
        if kind.is_high(*v) {
            return true;
        }
    }
    false
}

// Stores the fields of a record, behind its length byte and its operation.
fn put_fields(out: &mut [u8], values: &[u32; FIELDS], kinds: &[Kind])
    requires { (length kinds.now ≤ most_fields) × (2 + sizes kinds.now ≤ length out.old) }
    ensures { out.new ≡ over out.old 2 (value_bytes kinds.now values.now) }
{
    let mut at = 2usize;
    for (kind, v) in kinds.iter().zip(values) {
        let size = kind.size();
        common::write_number(out, at, size, *v);
        at += size;
    }
}

// Stores a file's head at the start of the slice, and counts its bytes.
#[tactic(auto, using(crate::proofs::Heads::two_set), unfolding(crate::specs::Writing::write_head))]
pub fn write_head(out: &mut [u8], m: u32) -> Result<u32, Refusal>
    ensures { write_outcome (written_of result) out.new ≡ write_head m out.old }
{
    if !is_arena_order(m) {
        return Err(Refusal::BadSize);
    }
    if out.len() < HEAD {
        return Err(Refusal::NoRoom);
    }
    out[0] = 1;
    out[1] = m as u8;
    Ok(HEAD as u32)
}

// Stores a record at the start of the slice, and counts its bytes.
pub fn write_record(out: &mut [u8], r: Record) -> Result<u32, Refusal>
    ensures { write_outcome (written_of result) out.new ≡ write_record r out.old }
{
    let (operation, values) = parts_of(r);
    let row = row_of(operation);
    let all = row.kinds();
    let kinds = &all[..usize::from(row.fields)];
    if high_in_values(&values, kinds) {
        return Err(Refusal::NoRegister);
    }
    if out.len() <= usize::from(row.length) {
        return Err(Refusal::NoRoom);
    }
    out[0] = row.length;
    out[1] = byte_of(operation);
    put_fields(out, &values, kinds);
    Ok(u32::from(row.length) + 1)
}

// Writes an accepted file anew, record by record, to the start of the slice, and counts its bytes.
pub fn rewrite(file: &[u8], out: &mut [u8]) -> Result<u32, Refusal>
    ensures { write_outcome (written_of result) out.new ≡ rewrite_file file.now out.old }
{
    let judged = judge(file)?;
    if out.len() < file.len() {
        return Err(Refusal::NoRoom);
    }
    // Neither the head nor a record of an accepted file is refused, and there is room for each: what the two answer is let go.
    let _ = write_head(out, judged.size);
    let mut at = HEAD;
    // As in `judge`, the stride is each record's own.
    while at < file.len() {
        let record = Accepted { file, at };
        let _ = write_record(&mut out[at..], record.read());
        at = record.next();
    }
    Ok(at as u32)
}
