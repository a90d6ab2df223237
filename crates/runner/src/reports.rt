// A run's report as C has it, made of what a run returns.
ghost use Rattle.std.specs.Prelude.{◌≡◌};
ghost use Rattle.runner.specs.TakeRuns.{ran_of};

use crate::{Ran, RunReport};
use common::Refusal;
use heap::registers;

impl From<Result<RunReport, Refusal>> for Ran {
    ghost from_gives = { λ outcome ran. ran ≡ ran_of outcome };

    fn from(outcome: Result<RunReport, Refusal>) -> Ran {
        match outcome {
            Ok(run) => Ran {
                number: 0,
                registers: run.registers,
                count: run.count,
                stopped: run.stopped,
            },
            Err(reason) => Ran {
                number: u32::from(reason),
                registers: registers::at_first(),
                count: 0,
                stopped: false,
            },
        }
    }
}
