// A record that was judged and found good: what it says is read without another test. A run, which makes no `Record`, uses `next` and `index_at` alone.
ghost use Rattle.std.specs.Prelude.{◌≡◌, ◌+◌, ◌≤◌, length};
ghost use Rattle.std.proofs.Math.Option.{some};
ghost use Rattle.heap.specs.OperationNumbers.{number_of};
ghost use Rattle.takes.specs.Operations.{kinds_of, sizes};
ghost use Rattle.takes.specs.Reading.{read_at};
ghost use Rattle.takes.specs.Inner.{half_at, record_from, stray_at};

use crate::Record;
use common::read_number;
use heap::operations::Operation;

/// A record that was judged and found good, by its file and its place there.
#[derive(Clone, Copy)]
pub struct Accepted<'a> {
    pub file: &'a [u8],
    pub at: usize,
    pub ghost good: { (read_at file.now at).number ≡ 0 },
}

// The index of a record, in two bytes.
pub fn index_at(file: &[u8], at: usize) -> u16
    requires { at + 2 ≤ length file.now }
    ensures { result ≡ half_at file.now at }
{
    u16::from(file[at]) * 256 + u16::from(file[at + 1])
}

// The record of an operation, whose fields start at `at`: each is taken straight from its place in the file.
#[tactic(auto, using(crate::proofs::Records::records_there), unfolding(crate::specs::Operations::kinds_of))]
fn record_at(file: &[u8], at: usize, operation: Operation) -> Record
    requires { at + sizes (kinds_of (number_of operation)) ≤ length file.now }
    ensures { result ≡ record_from file.now at (number_of operation) }
{
    match operation {
        Operation::Get => Record::Get(file[at], read_number(file, at + 1, 4)),
        Operation::Give => Record::Give(file[at]),
        Operation::Step => Record::Step(file[at], file[at + 1], read_number(file, at + 2, 4)),
        Operation::Read => Record::Read(file[at], file[at + 1], file[at + 2]),
        Operation::Write => Record::Write(file[at], file[at + 1], read_number(file, at + 2, 4)),
        Operation::Left => Record::Left(file[at], file[at + 1]),
        Operation::Copy => Record::Copy(
            file[at],
            file[at + 1],
            file[at + 2],
            read_number(file, at + 3, 4),
        ),
        Operation::Fill => Record::Fill(
            file[at],
            file[at + 1],
            file[at + 2],
            read_number(file, at + 3, 4),
        ),
        Operation::Lock => Record::Lock(file[at]),
        Operation::Unlock => Record::Unlock(file[at]),
        Operation::Again => Record::Again(file[at], index_at(file, at + 1)),
        Operation::Set => Record::Set(file[at], read_number(file, at + 1, 4)),
        Operation::Grid => Record::Grid(
            file[at],
            file[at + 1],
            file[at + 2],
            file[at + 3],
            file[at + 4],
            file[at + 5],
        ),
    }
}

#[tactic(auto, using(crate::proofs::Readings::of_good))]
impl Accepted<'_> {
    // Its fields stand behind its length byte and its operation. (Not inlined, its place would go through memory.)
    #[inline(always)]
    pub fn read(&self) -> Record
        ensures { some result ≡ (read_at self.now.file.now self.now.at).found }
    {
        let operation = Operation::known(self.file[self.at + 1]);
        record_at(self.file, self.at + 2, operation)
    }

    // The place after it.
    pub fn next(&self) -> usize
        ensures { result ≡ (read_at self.now.file.now self.now.at).next }
    {
        self.at + 1 + usize::from(self.file[self.at])
    }

    // Whether it is an again that does not go back, where it is the file's record i. Its index stands behind its register.
    pub fn strays(&self, i: usize) -> bool
        ensures { result ≡ stray_at self.now.file.now self.now.at i }
    {
        self.file[self.at + 1] == Operation::Again as u8
            && i <= usize::from(index_at(self.file, self.at + 3))
    }
}
