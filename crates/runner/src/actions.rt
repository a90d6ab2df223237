// What a record does, the register that its value goes to, and the record due after it.
ghost use Rattle.std.specs.Prelude.{◌≡◌, ◌<◌};
ghost use Rattle.heap.specs.Answers.{answer_of};
ghost use Rattle.runner.specs.Decoding.{due_after};
ghost use Rattle.runner.specs.Inner.{most_records, stored_in};

use common::Refusal;
use heap::Call;

// What a record does: it makes a call, or gives a value without one, and with that may go back to the record of an index.
#[derive(Clone, Copy)]
pub enum Action {
    Makes(Call),
    Gives(u32),
    GoesBack(u32, u16),
}

// A record with its operands: what it does with the values in its registers, and the register that its value goes to, if there is one.
#[derive(Clone, Copy)]
pub struct Issued {
    pub action: Action,
    pub d: Option<u8>,
}

// The record due after the record i, by what it does.
pub fn due_after(action: Action, i: usize) -> usize
    requires { i < most_records }
    ensures { result ≡ due_after action i }
{
    match action {
        Action::Makes(_) => i + 1,
        Action::Gives(_) => i + 1,
        Action::GoesBack(_, k) => usize::from(k),
    }
}

// The register that the value of a record goes to: its d, or none where it was refused.
pub fn stored_in(d: Option<u8>, outcome: Result<u32, Refusal>) -> Option<u8>
    ensures { result ≡ stored_in d (answer_of outcome) }
{
    match outcome {
        Ok(_) => d,
        Err(_) => None,
    }
}
