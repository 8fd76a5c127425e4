//! Values that stand in every section file.
use crate::types::Span;

/// The file's type, {7B5C52E4-D88C-4DA7-AEB1-5378D02996D3}.
pub const FILE_TYPE: [u8; 16] = [
    0xE4, 0x52, 0x5C, 0x7B, 0x8C, 0xD8, 0xA7, 0x4D, 0xAE, 0xB1, 0x53, 0x78, 0xD0, 0x29, 0x96, 0xD3,
];

/// Its format, {109ADD3F-911B-49F5-A5D0-1791EDC8AED8}.
pub const FILE_FORMAT: [u8; 16] = [
    0x3F, 0xDD, 0x9A, 0x10, 0x1B, 0x91, 0xF5, 0x49, 0xA5, 0xD0, 0x17, 0x91, 0xED, 0xC8, 0xAE, 0xD8,
];

/// The mark before a list's fragment.
pub const FIRST_MARK: u64 = 0xA456_7AB1_F5F7_F4C4;

/// The mark behind it.
pub const LAST_MARK: u64 = 0x8BC2_15C3_8233_BA4B;

/// The reference to nothing.
pub const NIL: Span = Span {
    start: u64::MAX,
    size: 0,
};
