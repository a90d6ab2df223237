// The operations, by their numbers: the same in the records of a take and in the calls of a replay. But again and set name no call: only takes have them.
ghost use Rattle.std.specs.Prelude.{◌≡◌, true};
ghost use Rattle.heap.specs.OperationNumbers.{decodes, is_operation, makes_call, names_call, number_of};

use common::Refusal;

/// An operation. Its number is its discriminant.
#[derive(Clone, Copy, Debug, PartialEq, Eq)]
pub enum Operation {
    Get = 1,
    Give = 2,
    Step = 3,
    Read = 4,
    Write = 5,
    Left = 6,
    Copy = 7,
    Fill = 8,
    Lock = 9,
    Unlock = 10,
    Again = 11,
    Set = 12,
    Grid = 13,
}

pub const LAST: u8 = Operation::Grid as u8;

impl TryFrom<u8> for Operation {
    type Error = Refusal;

    ghost try_from_gives = { decodes };

    fn try_from(number: u8) -> Result<Operation, Refusal> {
        if number < Operation::Get as u8 || LAST < number {
            return Err(Refusal::UnknownOperation);
        }
        Ok(Operation::known(number))
    }
}

impl Operation {
    // The operation that has this number, where one has: what was judged is not judged again.
    pub fn known(number: u8) -> Operation
        requires { is_operation number ≡ true }
        ensures { number_of result ≡ number }
    {
        match number {
            1 => Operation::Get,
            2 => Operation::Give,
            3 => Operation::Step,
            4 => Operation::Read,
            5 => Operation::Write,
            6 => Operation::Left,
            7 => Operation::Copy,
            8 => Operation::Fill,
            9 => Operation::Lock,
            10 => Operation::Unlock,
            11 => Operation::Again,
            12 => Operation::Set,
            _ => Operation::Grid,
        }
    }

    // Whether it makes a call.
    pub fn makes_call(self) -> bool
        ensures { result ≡ makes_call self }
    {
        self != Operation::Again && self != Operation::Set
    }
}

// Whether an operation of this number names a call.
pub fn names_call(op: u8) -> bool
    ensures { result ≡ names_call op }
{
    match Operation::try_from(op) {
        Ok(operation) => operation.makes_call(),
        Err(_) => false,
    }
}
