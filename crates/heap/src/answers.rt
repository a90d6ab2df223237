// Answers as C and an answer slice have them: made of what a call returns, and stored.
ghost use Rattle.std.specs.Prelude.{◌≡◌, ◌+◌, ◌≤◌, length};
ghost use Rattle.common.specs.Bytes.{over};
ghost use Rattle.heap.specs.Answers.{answer_length, answer_bytes, answer_of};

use crate::Answer;
use common::Refusal;

// How many bytes an answer takes in an answer slice.
pub const ANSWER_LENGTH: usize = 5;

impl From<Result<u32, Refusal>> for Answer {
    ghost from_gives = { λ outcome answer. answer ≡ answer_of outcome };

    fn from(outcome: Result<u32, Refusal>) -> Answer {
        match outcome {
            Ok(value) => Answer { number: 0, value },
            Err(reason) => Answer {
                number: u32::from(reason),
                value: 0,
            },
        }
    }
}

// Stores an answer from `at` on: its number in a byte, then its value big-endian.
pub fn store(out: &mut [u8], at: usize, answer: Answer)
    requires { at + answer_length ≤ length out.old }
    ensures { out.new ≡ over out.old at (answer_bytes answer) }
{
    out[at] = (answer.number % 256) as u8;
    common::write_number(out, at + 1, 4, answer.value);
}
