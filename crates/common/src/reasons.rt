// Why a call is refused: each reason with its number, which is what a device and a take are told.
ghost use Rattle.std.specs.Prelude.{◌≡◌};
ghost use Rattle.common.specs.Numbers.{number_of};

/// A reason to refuse. Its number is its discriminant.
#[derive(Clone, Copy, Debug, PartialEq, Eq)]
pub enum Refusal {
    /// The file is empty, or its first byte is not that of a take.
    NoTake = 1,
    /// The size byte is missing, or no arena has that order.
    BadSize = 2,
    /// The file is longer than a take may be.
    TooLong = 3,
    /// A record's, or a list's, length is none, or more than the bytes left.
    CutOff = 4,
    /// An operation that is not in the table.
    UnknownOperation = 5,
    /// The length is wrong for the operation.
    WrongLength = 6,
    /// There is no such register.
    NoRegister = 7,
    /// The lengths of the arena and of the table are not those of a heap.
    WrongSizes = 8,
    /// A slice that is written to is too short.
    NoRoom = 9,
    /// Of this many bytes no block is made.
    BadRequest = 10,
    /// A width that no number has.
    BadWidth = 11,
    /// The number does not fit its width.
    TooWide = 12,
    /// The pointer is marked.
    Marked = 13,
    /// The table is damaged.
    Damaged = 20,
    /// No free range is large enough.
    Full = 21,
    /// The pointer leads to a free slot.
    Dead = 22,
    /// The pointer is not the start of its block.
    NotAStart = 23,
    /// The step goes beyond the reach of its block.
    Beyond = 24,
    /// The last byte lies past the block's end.
    PastTheEnd = 25,
    /// The take has more records than the front panel's screen can list.
    TooMany = 26,
    /// The pointer leads out of the arena.
    Outside = 27,
    /// The block is locked.
    Locked = 28,
    /// A record goes back to one that is not before it.
    Stray = 29,
    /// The grid has no such place.
    NoPlace = 30,
}

impl From<Refusal> for u32 {
    ghost from_gives = { λ reason n. n ≡ number_of reason };

    fn from(reason: Refusal) -> u32 {
        reason as u32
    }
}
