//! CRC-32 by tables, eight bytes a turn, equal to the register that takes one bit a step.
#![tactic(auto)]

mod tables;

ghost use Rattle.std.specs.Prelude.{◌≡◌, ◌+◌, ◌*◌, ◌%◌, ◌<◌, bit_xor};
ghost use Rattle.model.specs.Crc.{steps, fed, run, crc_of, crc_32};

use tables::TABLES;

// What the register holds at first, and what is added to it at the end.
const ALL_ONES: u32 = 0xffff_ffff;

/// A CRC-32 in the making.
#[derive(Debug, Clone, Copy, PartialEq, Eq)]
pub struct Crc {
    register: u32,
}

impl Crc {
    /// Of no bytes yet.
    pub fn new() -> Crc
        ensures { result.register ≡ crc_32.first }
    {
        Crc { register: ALL_ONES }
    }

    /// One byte more.
    pub fn update(&mut self, byte: u8)
        ensures { self.new.register ≡ fed crc_32 self.old.register byte }
    {
        self.register = after_byte(self.register, byte);
    }

    /// The bytes of a slice more, eight a turn.
    pub fn update_slice(&mut self, bytes: &[u8])
        ensures { self.new.register ≡ run crc_32 self.old.register bytes.now }
    {
        let (eights, rest) = bytes.as_chunks();
        let register = eights.iter().fold(self.register, after_eight);
        self.register = rest
            .iter()
            .fold(register, |register, byte| after_byte(register, *byte));
    }

    /// The check of all bytes so far.
    pub fn finish(self) -> u32
        ensures { result ≡ bit_xor self.register crc_32.last }
    {
        self.register ^ ALL_ONES
    }
}

impl Default for Crc {
    ghost is_default = { λ crc. crc.register ≡ crc_32.first };

    fn default() -> Crc {
        Self::new()
    }
}

/// The CRC-32 of a slice.
#[tactic(auto, unfolding(model::specs::Crc::crc_of))]
pub fn crc32(bytes: &[u8]) -> u32
    ensures { result ≡ crc_of crc_32 bytes.now }
{
    let mut crc = Crc::new();
    crc.update_slice(bytes);
    crc.finish()
}

// What becomes of the register's lowest byte where a byte meets it there, and `zeros` zero bytes follow.
fn spread(register: u32, byte: u8, zeros: usize) -> u32
    requires { zeros < 8 }
    ensures { result ≡ steps crc_32 (8 + 8 * zeros) (bit_xor (register % 256) byte) }
{
    TABLES[zeros][((register & 0xff) ^ byte as u32) as usize]
}

// The lowest byte by the table; the rest moves down.
fn after_byte(register: u32, byte: u8) -> u32
    ensures { result ≡ fed crc_32 register byte }
{
    spread(register, byte, 0) ^ (register >> 8)
}

// The register has moved out after four of the eight bytes, so that the last four meet nothing.
// They come first here, since they need not wait for the register.
fn after_eight(register: u32, bytes: &[u8; 8]) -> u32
    ensures { result ≡ run crc_32 register bytes.now }
{
    let [a, b, c, d, e, f, g, h] = *bytes;
    spread(0, e, 3)
        ^ spread(0, f, 2)
        ^ spread(0, g, 1)
        ^ spread(0, h, 0)
        ^ spread(register, a, 7)
        ^ spread(register >> 8, b, 6)
        ^ spread(register >> 16, c, 5)
        ^ spread(register >> 24, d, 4)
}
