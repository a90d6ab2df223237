// The take format: a record of a file is read and written, and a whole file is judged and written anew. What customers call stands at this root.
#![tactic(auto)]

pub use files::judge;
pub use reader::read;
pub use writer::{rewrite, write_head, write_record};

mod files;
mod reader;
mod table;
pub mod unchecked;
mod writer;

// A record of a take with its fields, in the file's order: registers first, then what is given as it stands. All but again and set make a call; again goes
// back to the record whose index it holds, and set puts a number in a register.
#[derive(Clone, Copy, Debug, PartialEq, Eq)]
pub enum Record {
    Get(u8, u32),
    Give(u8),
    Step(u8, u8, u32),
    Read(u8, u8, u8),
    Write(u8, u8, u32),
    Left(u8, u8),
    Copy(u8, u8, u8, u32),
    Fill(u8, u8, u8, u32),
    Lock(u8),
    Unlock(u8),
    Again(u8, u16),
    Set(u8, u32),
    Grid(u8, u8, u8, u8, u8, u8),
}

// What the reader finds at a place: a record, and the place after it.
#[derive(Clone, Copy, Debug, PartialEq, Eq)]
pub struct Reading {
    pub record: Record,
    pub next: usize,
}

// What the judging of a file finds: its size byte, and how many records it has.
#[derive(Clone, Copy, Debug, PartialEq, Eq)]
pub struct Judged {
    pub size: u32,
    pub count: usize,
}

// Where the first record starts, and how long a file may be.
pub const HEAD: usize = 2;

pub const LONGEST: usize = 8192;
