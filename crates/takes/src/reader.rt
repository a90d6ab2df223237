// The reader: which refusal the record at a place has, and the record where there is none.
ghost use Rattle.std.specs.Prelude.{◌≡◌, ◌+◌, ◌≤◌, length, IfOk};
ghost use Rattle.common.specs.Numbers.{number_in};
ghost use Rattle.takes.specs.Inner.{any_high};
ghost use Rattle.takes.specs.Reading.{given, read_at};

use crate::Reading;
use crate::table::{REGISTERS, row_of};
use crate::unchecked::Accepted;
use common::Refusal;
use heap::operations::Operation;

// Whether one of the registers, one to three, that stand from a place of the file on is past the last. They are tested one by one: a record is judged in a few
// nanoseconds, and in half as many again by a loop.
#[tactic(auto, using(crate::proofs::Rows::tested))]
fn high_in_file(file: &[u8], at: usize, registers: u8) -> bool
    requires few { (1 ≤ registers) × (registers ≤ 3) }
    requires inside { at + registers ≤ length file.now }
    ensures { result ≡ any_high registers file.now at }
{
    if REGISTERS <= u32::from(file[at]) {
        return true;
    }
    if registers < 2 {
        return false;
    }
    if REGISTERS <= u32::from(file[at + 1]) {
        return true;
    }
    if registers < 3 {
        return false;
    }
    REGISTERS <= u32::from(file[at + 2])
}

// Judges the record at any place of any bytes.
pub fn judge_record(file: &[u8], at: usize) -> Result<Accepted<'_>, Refusal>
    ensures number { number_in result ≡ (read_at file.now at).number }
    ensures place { IfOk result (λ r. (r.file.now ≡ file.now) × (r.at ≡ at)) }
{
    if file.len() <= at {
        return Err(Refusal::CutOff);
    }
    let count = file[at];
    if count == 0 {
        return Err(Refusal::CutOff);
    }
    let place = at + 1;
    if file.len() - place < usize::from(count) {
        return Err(Refusal::CutOff);
    }
    let row = row_of(Operation::try_from(file[place])?);
    if count != row.length {
        return Err(Refusal::WrongLength);
    }
    if high_in_file(file, at + 2, row.registers) {
        return Err(Refusal::NoRegister);
    }
    Ok(Accepted { file, at })
}

// Reads the record at any place of any bytes.
pub fn read(file: &[u8], at: usize) -> Result<Reading, Refusal>
    ensures { given result ≡ read_at file.now at }
{
    let record = judge_record(file, at)?;
    Ok(Reading {
        record: record.read(),
        next: record.next(),
    })
}
