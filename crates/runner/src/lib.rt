// Runs a take: its file is judged, the heap made fresh, and the records that come due are carried out with sixteen registers.
#![tactic(auto)]

ghost use Rattle.std.specs.Prelude.{◌≡◌, ◌≤◌, length};
ghost use Rattle.common.specs.Numbers.{number_in};
ghost use Rattle.heap.specs.Views.{slot_order};
ghost use Rattle.heap.specs.Heaps.{heap_of, outcome};
ghost use Rattle.heap.specs.Answers.{answer_of};
ghost use Rattle.heap.specs.Inner.{Sound};
ghost use Rattle.takes.specs.Files.{records_of};
ghost use Rattle.runner.specs.TakeRuns.{screenful, ran_of, ran_out, run_by, run_of, panel_of, ran_to};
ghost use Rattle.runner.specs.Budgets.{Counted};
ghost use Rattle.runner.specs.Inner.{acted_in, Runnable};

use actions::Action;
use common::Refusal;
use heap::answers::ANSWER_LENGTH;
use heap::registers::Registers;
use heap::{Answer, SLOT_ORDER, registers};
use takes::unchecked::Accepted;

mod actions;
mod issuing;
mod reports;

// What a run reports: its registers, how many records it carried out, and whether it stopped with one still due.
#[derive(Clone, Copy)]
pub struct RunReport {
    pub registers: Registers,
    pub count: u32,
    pub stopped: bool,
}

// The same as C has it, refused or not (`reports`): the number of the refusal, 0 for none, and sixteen zero registers and count 0 where there is one.
#[repr(C)]
#[derive(Clone, Copy)]
pub struct Ran {
    pub number: u32,
    pub registers: Registers,
    pub count: u32,
    pub stopped: bool,
}

// The most records that a run carries out, whatever its budget.
pub const MOST_STEPS: u32 = 4096;

// How many records the front panel's screen can list.
const SCREENFUL: usize = 64;

// Room for the place of each record, and for the end: no file has more than 4,095.
const PLACES: usize = 4096;

// Does to the heap what one record does, and gives its answer.
fn carry_out_one(arena: &mut [u8], table: &mut [u8], m: u32, action: Action) -> Result<u32, Refusal>
    requires { Sound slot_order m arena.old table.old }
    ensures { outcome (answer_of result) arena.new table.new ≡ acted_in m action (heap_of arena.old table.old) }
{
    match action {
        Action::Makes(c) => heap::unchecked::call(arena, table, SLOT_ORDER, m, c),
        Action::Gives(v) => Ok(v),
        Action::GoesBack(v, _) => Ok(v),
    }
}

// Makes the heap fresh and carries out the records of a file that was judged, `count` of them, as they come due, `most` at most. They are read one at a time,
// and judged no more. A record is gone back to by its place, which was found when it was first reached.
fn carry_out(
    file: &[u8],
    arena: &mut [u8],
    table: &mut [u8],
    answers: &mut [u8],
    m: u32,
    count: usize,
    most: u32,
) -> RunReport
    requires runnable { Runnable m most file.now arena.old table.old answers.old }
    requires counted { length (records_of file.now) ≡ count }
    ensures { ran_to (ran_of (Ok result)) arena.new table.new answers.new ≡ ran_out file.now most answers.old }
{
    heap::fresh(arena, table).unwrap();
    let mut registers = registers::at_first();
    let mut places = [0u16; PLACES];
    places[0] = takes::HEAD as u16;
    let mut due = 0usize;
    for done in 0..most {
        if count <= due {
            return RunReport {
                registers,
                count: done,
                stopped: false,
            };
        }
        let at = usize::from(places[due]);
        let accepted = Accepted { file, at };
        places[due + 1] = accepted.next() as u16;
        let issued = issuing::issue(&accepted, &registers.values);
        let outcome = carry_out_one(arena, table, m, issued.action);
        let answer = Answer::from(outcome);
        heap::answers::store(answers, ANSWER_LENGTH * done as usize, answer);
        due = actions::due_after(issued.action, due);
        if let Some(d) = actions::stored_in(issued.d, outcome) {
            registers.values[usize::from(d)] = answer.value;
        }
    }
    RunReport {
        registers,
        count: most,
        stopped: due < count,
    }
}

// The run of both callers, an upload and the front panel. The file is judged whole before anything is changed.
fn run_by(
    panel: bool,
    file: &[u8],
    arena: &mut [u8],
    table: &mut [u8],
    answers: &mut [u8],
    budget: u32,
) -> Result<RunReport, Refusal>
    ensures { ran_to (ran_of result) arena.new table.new answers.new
        ≡ run_by panel file.now budget (heap_of arena.old table.old) answers.old }
{
    let judged = takes::judge(file)?;
    let crowded = SCREENFUL < judged.count;
    if panel && crowded {
        return Err(Refusal::TooMany);
    }
    if heap::sizes::order_of(arena, table, SLOT_ORDER) != Some(judged.size) {
        return Err(Refusal::WrongSizes);
    }
    let most = budget.min(MOST_STEPS);
    let short = answers.len() / ANSWER_LENGTH < most as usize;
    if short {
        return Err(Refusal::NoRoom);
    }
    let run = carry_out(file, arena, table, answers, judged.size, judged.count, most);
    Ok(run)
}

// Runs a take on a lent arena and table: an upload from a computer. It carries out at most as many records as the budget allows, for all of which the answer
// slice must have room. The count is that of the definition's steps.
pub fn run(
    file: &[u8],
    arena: &mut [u8],
    table: &mut [u8],
    answers: &mut [u8],
    budget: u32,
) -> Result<RunReport, Refusal>
    ensures ran { ran_to (ran_of result) arena.new table.new answers.new
        ≡ run_of file.now budget (heap_of arena.old table.old) answers.old }
    ensures counted { number_in result ≡ 0
        → Counted file.now budget answers.old (ran_to (ran_of result) arena.new table.new answers.new) }
{
    run_by(false, file, arena, table, answers, budget)
}

// Runs a take from the front panel: one of more records than its screen can list is refused 26. What it accepts, and whatever the screen can list, it runs
// as an upload.
pub fn run_panel(
    file: &[u8],
    arena: &mut [u8],
    table: &mut [u8],
    answers: &mut [u8],
    budget: u32,
) -> Result<RunReport, Refusal>
    ensures ran { ran_to (ran_of result) arena.new table.new answers.new
        ≡ panel_of file.now budget (heap_of arena.old table.old) answers.old }
    ensures accepted_as_upload { number_in result ≡ 0
        → ran_to (ran_of result) arena.new table.new answers.new
        ≡ run_of file.now budget (heap_of arena.old table.old) answers.old }
    ensures listed_as_upload { length (records_of file.now) ≤ screenful
        → ran_to (ran_of result) arena.new table.new answers.new
        ≡ run_of file.now budget (heap_of arena.old table.old) answers.old }
    ensures counted { number_in result ≡ 0
        → Counted file.now budget answers.old (ran_to (ran_of result) arena.new table.new answers.new) }
{
    run_by(true, file, arena, table, answers, budget)
}
