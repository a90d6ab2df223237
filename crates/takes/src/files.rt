// The judging of a whole file: its head and its length, then record by record.
ghost use Rattle.std.specs.Prelude.{◌≡◌};
ghost use Rattle.common.specs.Numbers.{number_in};
ghost use Rattle.blocks.specs.Orders.{is_arena_order};
ghost use Rattle.takes.specs.Files.{head_number, judgement_of, judgement};

use crate::reader::judge_record;
use crate::{HEAD, Judged, LONGEST};
use blocks::{LARGEST_ARENA, SMALLEST_ARENA};
use common::Refusal;

// Whether an arena may have the size m.
pub fn is_arena_order(m: u32) -> bool
    ensures { result ≡ is_arena_order m }
{
    (SMALLEST_ARENA..=LARGEST_ARENA).contains(&m)
}

// Judges a file by its head and its length.
#[tactic(auto, unfolding(crate::specs::Files::head_number))]
fn judge_head(file: &[u8]) -> Result<(), Refusal>
    ensures { number_in result ≡ head_number file.now }
{
    if file.is_empty() || file[0] != 1 {
        return Err(Refusal::NoTake);
    }
    if file.len() < HEAD || !is_arena_order(u32::from(file[1])) {
        return Err(Refusal::BadSize);
    }
    if LONGEST < file.len() {
        return Err(Refusal::TooLong);
    }
    Ok(())
}

// Judges a whole file and counts its records.
pub fn judge(file: &[u8]) -> Result<Judged, Refusal>
    ensures { judgement_of result ≡ judgement file.now }
{
    judge_head(file)?;
    let mut at = HEAD;
    let mut count = 0usize;
    // Each record is as long as its first byte says, so no range and no chunks lead from one to the next.
    while at < file.len() {
        let record = judge_record(file, at)?;
        if record.strays(count) {
            return Err(Refusal::Stray);
        }
        at = record.next();
        count += 1;
    }
    Ok(Judged {
        size: u32::from(file[1]),
        count,
    })
}
