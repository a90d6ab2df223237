// The operation table, which the reader and the writer consult, and what the kind of a field says.
ghost use Rattle.std.specs.Prelude.{◌≡◌, ◌≤◌, take};
ghost use Rattle.heap.specs.OperationNumbers.{number_of};
ghost use Rattle.takes.specs.Operations.{kinds_of, length_of, size};
ghost use Rattle.takes.specs.Reading.{is_high};
ghost use Rattle.takes.specs.Inner.{kinds_of_row, most_fields, registers_in};

use Kind::{Byte, Half, Register, Word};
use heap::operations::Operation;
use heap::{operations, registers};

// One past the last register.
pub const REGISTERS: u32 = registers::COUNT as u32;

/// The kind of a field.
#[derive(Clone, Copy, Debug, PartialEq, Eq)]
pub enum Kind {
    /// The number of a register, in a byte.
    Register,
    /// A byte that stands for itself.
    Byte,
    /// A big-endian number of two bytes.
    Half,
    /// A big-endian number of four bytes.
    Word,
}

impl Kind {
    // How many bytes a field takes.
    pub fn size(self) -> usize
        ensures { result ≡ size self }
    {
        match self {
            Register => 1,
            Byte => 1,
            Half => 2,
            Word => 4,
        }
    }

    // Whether a field's value is a register past the last.
    pub fn is_high(self, v: u32) -> bool
        ensures { result ≡ is_high self v }
    {
        self == Register && REGISTERS <= v
    }
}

// The most fields that a record has.
pub const FIELDS: usize = 6;

/// An operation's row: the length byte of its records, and the kinds of their fields. The registers, one to three, are the first of them.
#[derive(Clone, Copy)]
pub struct Row {
    pub length: u8,
    pub registers: u8,
    // How many fields there are, and their kinds; what stands behind those is of no field. (As a slice they would be a pointer, and a table of pointers is data
    // that a loader writes; a static of rows with an array is not to be had.)
    pub fields: u8,
    kinds: (Kind, Kind, Kind, Kind, Kind, Kind),
}

impl Row {
    // The kinds of the fields, with what stands behind them.
    pub fn kinds(self) -> [Kind; FIELDS]
        ensures { result ≡ kinds_of_row self }
    {
        let (a, b, c, d, e, f) = self.kinds;
        [a, b, c, d, e, f]
    }
}

// A row for each operation, in the order of their numbers.
static OPERATIONS: [Row; operations::LAST as usize] = [
    // get d n
    Row {
        length: 6,
        registers: 1,
        fields: 2,
        kinds: (Register, Word, Byte, Byte, Byte, Byte),
    },
    // give a
    Row {
        length: 2,
        registers: 1,
        fields: 1,
        kinds: (Register, Byte, Byte, Byte, Byte, Byte),
    },
    // step d a i
    Row {
        length: 7,
        registers: 2,
        fields: 3,
        kinds: (Register, Register, Word, Byte, Byte, Byte),
    },
    // read d a w
    Row {
        length: 4,
        registers: 2,
        fields: 3,
        kinds: (Register, Register, Byte, Byte, Byte, Byte),
    },
    // write a w v
    Row {
        length: 7,
        registers: 1,
        fields: 3,
        kinds: (Register, Byte, Word, Byte, Byte, Byte),
    },
    // left d a
    Row {
        length: 3,
        registers: 2,
        fields: 2,
        kinds: (Register, Register, Byte, Byte, Byte, Byte),
    },
    // copy d a b n
    Row {
        length: 8,
        registers: 3,
        fields: 4,
        kinds: (Register, Register, Register, Word, Byte, Byte),
    },
    // fill d a v n
    Row {
        length: 8,
        registers: 2,
        fields: 4,
        kinds: (Register, Register, Byte, Word, Byte, Byte),
    },
    // lock a
    Row {
        length: 2,
        registers: 1,
        fields: 1,
        kinds: (Register, Byte, Byte, Byte, Byte, Byte),
    },
    // unlock a
    Row {
        length: 2,
        registers: 1,
        fields: 1,
        kinds: (Register, Byte, Byte, Byte, Byte, Byte),
    },
    // again d k
    Row {
        length: 4,
        registers: 1,
        fields: 2,
        kinds: (Register, Half, Byte, Byte, Byte, Byte),
    },
    // set d n
    Row {
        length: 6,
        registers: 1,
        fields: 2,
        kinds: (Register, Word, Byte, Byte, Byte, Byte),
    },
    // grid d a rows columns row column
    Row {
        length: 7,
        registers: 2,
        fields: 6,
        kinds: (Register, Register, Byte, Byte, Byte, Byte),
    },
];

// The byte that names an operation in a record.
pub fn byte_of(operation: Operation) -> u8
    ensures { result ≡ number_of operation }
{
    operation as u8
}

// The row of an operation.
pub fn row_of(operation: Operation) -> Row
    ensures length { result.length ≡ length_of (number_of operation) }
    ensures registers { result.registers ≡ registers_in (kinds_of (number_of operation)) }
    ensures fields { result.fields ≤ most_fields }
    ensures kinds { take result.fields (kinds_of_row result) ≡ kinds_of (number_of operation) }
{
    OPERATIONS[usize::from(byte_of(operation)) - 1]
}
