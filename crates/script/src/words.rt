//! The words of a line.
ghost use Rattle.std.specs.Prelude.{◌≡◌, Some, take, length, IfOk, IfSome};

use crate::faults::LineFault;
use crate::letters::Letter;
use std::alloc::Global;

/// The words of a line that are not yet read; they are separated by one space.
#[derive(Drop)]
pub(crate) struct Words<'a> {
    // nothing once the last word is read
    rest: Option<&'a [u8]>,
}

// The value of a decimal digit.
fn decimal(digit: u8) -> Option<u64> {
    match digit {
        b'0'..=b'9' => Some(u64::from(digit - b'0')),
        _ => None,
    }
}

// The value of a hexadecimal digit.
fn nibble(digit: u8) -> Option<u8> {
    match digit {
        b'0'..=b'9' => Some(digit - b'0'),
        b'a'..=b'f' => Some(digit - b'a' + 10),
        _ => None,
    }
}

// The byte that two hexadecimal digits write.
fn byte(pair: [u8; 2]) -> Option<u8> {
    Some(nibble(pair[0])? << 4 | nibble(pair[1])?)
}

impl<'a> Words<'a> {
    pub(crate) fn of(line: &'a [u8]) -> Words<'a>
        ensures { result.rest ≡ Some line.entry }
    {
        Words { rest: Some(line) }
    }

    /// The next word.
    pub(crate) fn word(&mut self) -> Result<&'a [u8], LineFault>
        ensures { IfOk result (λ word. IfSome self.old.rest (λ line. take (length word.now) line.now ≡ word.now)) }
    {
        let line = self.rest.take().ok_or(LineFault::Missing)?;
        let Some(end) = line.iter().position(|b| *b == b' ') else {
            return Ok(line);
        };
        self.rest = Some(&line[end + 1..]);
        Ok(&line[..end])
    }

    /// That no word is left.
    pub(crate) fn end(&self) -> Result<(), LineFault> {
        match self.rest {
            None => Ok(()),
            Some(_) => Err(LineFault::TooMany),
        }
    }

    /// The letter of a file or a draft.
    pub(crate) fn letter(&mut self) -> Result<Letter, LineFault> {
        match self.word()? {
            [byte] => Letter::of(*byte).ok_or(LineFault::Letter),
            _ => Err(LineFault::Letter),
        }
    }

    /// A number of 64 bits.
    pub(crate) fn number(&mut self) -> Result<u64, LineFault> {
        number(self.word()?)
    }

    /// A number of 32 bits.
    pub(crate) fn short(&mut self) -> Result<u32, LineFault> {
        u32::try_from(self.number()?).map_err(|_| LineFault::TooLarge)
    }

    /// Bytes in hexadecimal.
    pub(crate) fn bytes(&mut self, heap: Global) -> Result<Vec<u8>, LineFault> {
        let digits = self.word()?;
        let mut bytes = Vec::new(heap);
        if digits == b"-".as_slice() {
            return Ok(bytes);
        }
        let (pairs, rest) = digits.as_chunks();
        if pairs.is_empty() || !rest.is_empty() {
            return Err(LineFault::Hex);
        }
        for pair in pairs {
            let byte = byte(*pair).ok_or(LineFault::Hex)?;
            bytes.push(byte).map_err(|_| LineFault::Memory)?;
        }
        Ok(bytes)
    }

    /// Numbers of 32 bits, joined by commas.
    pub(crate) fn numbers(&mut self, heap: Global) -> Result<Vec<u32>, LineFault> {
        let mut numbers = Vec::new(heap);
        for word in self.word()?.split(|b| *b == b',') {
            let n = u32::try_from(number(word)?).map_err(|_| LineFault::TooLarge)?;
            numbers.push(n).map_err(|_| LineFault::Memory)?;
        }
        Ok(numbers)
    }

    /// The 16 bytes of a GUID.
    pub(crate) fn guid(&mut self) -> Result<[u8; 16], LineFault> {
        let (pairs, rest) = self.word()?.as_chunks();
        if pairs.len() != 16 || !rest.is_empty() {
            return Err(LineFault::Guid);
        }
        let mut guid = [0; 16];
        for (to, pair) in guid.iter_mut().zip(pairs) {
            *to = byte(*pair).ok_or(LineFault::Hex)?;
        }
        Ok(guid)
    }
}

// A number in decimal digits.
fn number(digits: &[u8]) -> Result<u64, LineFault> {
    if digits.is_empty() {
        return Err(LineFault::Number);
    }
    let mut n: u64 = 0;
    for digit in digits {
        let digit = decimal(*digit).ok_or(LineFault::Number)?;
        n = n
            .checked_mul(10)
            .and_then(|n| n.checked_add(digit))
            .ok_or(LineFault::TooLarge)?;
    }
    Ok(n)
}
