//! Values that definitions and code share.

/// A range of the file, as a reference names it.
#[derive(Clone, Copy, PartialEq, Eq, Debug)]
pub struct Span {
    pub start: u64,
    pub size: u64,
}

/// An entry of the transaction log: 1 for a sentinel, which ends a transaction, else a list's ID; and a number.
/// Both are numbers as in the file, since the definitions speak of them so.
#[derive(Clone, Copy, PartialEq, Eq, Debug)]
pub struct Entry {
    pub source: u32,
    pub number: u32,
}

/// What a refusal tells: its number, the layer that refuses, the place of what is wrong, and the ID of the list concerned, else 0.
/// All are numbers, since a listing prints them so; the enums of the crates above convert to this.
#[derive(Clone, Copy, PartialEq, Eq, Debug)]
pub struct Fault {
    pub number: u32,
    pub layer: u32,
    pub place: u64,
    pub list: u32,
}

/// The header's fields that are used, by the format's own names beside each.
#[derive(Clone, Copy, PartialEq, Eq, Debug)]
pub struct Header {
    /// cTransactionsInLog
    pub count: u32,
    /// cbExpectedFileLength
    pub end: u64,
    /// nFileVersionGeneration
    pub generation: u64,
    /// guidFileVersion
    pub version: [u8; 16],
    /// fcrHashedChunkList
    pub hashed: Span,
    /// fcrTransactionLog
    pub log: Span,
    /// fcrFileNodeListRoot
    pub root: Span,
}
