// A record straight from the bytes of a file that was judged: what it does with the values in its registers, and the register that its value goes to. No
// `Record` is made on the way: it would go through memory, and a record would take half as long again.
ghost use Rattle.std.specs.Prelude.{◌≡◌, ℕ, cond, eqb, length, ◌+◌, ◌-◌, ◌≤◌, ◌<◌, Some};
ghost use Rattle.heap.specs.Registers.{register_count, held};
ghost use Rattle.heap.specs.OperationNumbers.{number_of};
ghost use Rattle.takes.specs.Operations.{kinds_of, sizes};
ghost use Rattle.takes.specs.Inner.{byte_at, half_at, word_at, registers_in, record_from, record_there};
ghost use Rattle.runner.specs.Inner.{issued_with};

use crate::actions::{Action, Issued};
use common::read_number;
use heap::Call;
use heap::operations::Operation;
use heap::registers::COUNT;
use takes::unchecked;
use takes::unchecked::Accepted;

// A record by what it does and the register for its value.
fn issued(d: Option<u8>, action: Action) -> Issued
    ensures { result ≡ record { action = action; d = d } }
{
    Issued { action, d }
}

// A record that makes a call.
fn makes(d: Option<u8>, call: Call) -> Issued
    ensures { result ≡ record { action = Action.Makes call; d = d } }
{
    issued(d, Action::Makes(call))
}

// What again k does, p being the value in its register.
fn again_with(p: u32, k: u16) -> Action
    ensures { result ≡ cond (eqb p 0) (Action.Gives 0) (Action.GoesBack (p - 1) k) }
{
    if p == 0 {
        return Action::Gives(0);
    }
    Action::GoesBack(p - 1, k)
}

// The fields of a record, which start at `at`, and what the registers hold. They lie in the file, and the registers among them, which stand in the first bytes,
// are among the sixteen.
#[derive(Clone, Copy)]
struct Fields<'a> {
    file: &'a [u8],
    at: usize,
    operation: Operation,
    values: &'a [u32; COUNT],
    ghost inside: { at + sizes (kinds_of (number_of operation)) ≤ length file.now },
    ghost low: { (k : ℕ) → k < registers_in (kinds_of (number_of operation)) → byte_at file.now (at + k) < register_count },
}

impl Fields<'_> {
    // Their byte k.
    fn byte(&self, k: usize) -> u8
        requires { k < sizes (kinds_of (number_of self.now.operation)) }
        ensures { result ≡ byte_at self.now.file.now (self.now.at + k) }
    {
        self.file[self.at + k]
    }

    // The number in the two bytes from k on.
    fn half(&self, k: usize) -> u16
        requires { k + 2 ≤ sizes (kinds_of (number_of self.now.operation)) }
        ensures { result ≡ half_at self.now.file.now (self.now.at + k) }
    {
        unchecked::index_at(self.file, self.at + k)
    }

    // The number in the four bytes from k on.
    fn word(&self, k: usize) -> u32
        requires { k + 4 ≤ sizes (kinds_of (number_of self.now.operation)) }
        ensures { result ≡ word_at self.now.file.now (self.now.at + k) }
    {
        read_number(self.file, self.at + k, 4)
    }

    // What the register holds whose number is their byte k.
    fn held(&self, k: usize) -> u32
        requires { k < registers_in (kinds_of (number_of self.now.operation)) }
        ensures { result ≡ held self.now.values.now (byte_at self.now.file.now (self.now.at + k)) }
    {
        self.values[usize::from(self.file[self.at + k])]
    }

    // The register that the value goes to, if their record has one: the first.
    fn d(&self) -> Option<u8>
        requires { 1 ≤ sizes (kinds_of (number_of self.now.operation)) }
        ensures { result ≡ Some (byte_at self.now.file.now self.now.at) }
    {
        Some(self.file[self.at])
    }

    // Their record: every field is taken straight from its place in the file.
    // (A call is made an action by `makes`, and its register is taken first: where each operation did the one by itself, or took the other last, a record took
    // a nanosecond more.)
    #[tactic(auto, using(crate::proofs::IssuedThere::issued_there), unfolding(takes::specs::Operations::kinds_of))]
    fn issued(&self) -> Issued
        ensures { result ≡ issued_with self.now.values.now (record_from self.now.file.now self.now.at (number_of self.now.operation)) }
    {
        match self.operation {
            Operation::Get => makes(self.d(), Call::Get(self.word(1))),
            Operation::Give => makes(None, Call::Give(self.held(0))),
            Operation::Step => makes(self.d(), Call::Step(self.held(1), self.word(2))),
            Operation::Read => makes(self.d(), Call::Read(self.held(1), self.byte(2))),
            Operation::Write => makes(None, Call::Write(self.held(0), self.byte(1), self.word(2))),
            Operation::Left => makes(self.d(), Call::Left(self.held(1))),
            Operation::Copy => makes(
                self.d(),
                Call::Copy(self.held(1), self.held(2), self.word(3)),
            ),
            Operation::Fill => makes(
                self.d(),
                Call::Fill(self.held(1), self.byte(2), self.word(3)),
            ),
            Operation::Lock => makes(None, Call::SetLock(self.held(0), true)),
            Operation::Unlock => makes(None, Call::SetLock(self.held(0), false)),
            Operation::Again => issued(self.d(), again_with(self.held(0), self.half(1))),
            Operation::Set => issued(self.d(), Action::Gives(self.word(1))),
            Operation::Grid => makes(
                self.d(),
                Call::Grid(
                    self.held(1),
                    self.byte(2),
                    self.byte(3),
                    self.byte(4),
                    self.byte(5),
                ),
            ),
        }
    }
}

// A record that was judged and found good. Its fields stand behind its length byte and its operation.
#[tactic(auto, using(crate::proofs::IssuedThere::of_accepted))]
pub fn issue(accepted: &Accepted<'_>, values: &[u32; COUNT]) -> Issued
    ensures { result ≡ issued_with values.now (record_there accepted.now.file.now accepted.now.at) }
{
    let operation = Operation::known(accepted.file[accepted.at + 1]);
    let fields = Fields {
        file: accepted.file,
        at: accepted.at + 2,
        operation,
        values,
    };
    fields.issued()
}
