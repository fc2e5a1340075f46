// Bits as text, for tests: a source that reads '0' and '1', and any other byte as a fault of that number.
ghost use Rattle.std.specs.Prelude.{◌≡◌, map};
ghost use Rattle.backends.specs.Answers.{told_read};
ghost use Rattle.codebook_edges.specs.Texts.{ByteRead, TextRead, cell_of};

use backends::fault::ReadFault;
use codebooks::streams::{BitSource, BitsSource};
use std::marker::Model;

#[derive(Drop)]
pub struct BitText<'a> {
    rest: &'a [u8],
}

// It is seen as the bytes that are still to be read.
impl<'a> Model for BitText<'a> {
    ghost use Rattle.std.specs.Prelude.{ℕ, List};

    ghost Value = { List ℕ };

    ghost view = { λ t. t.rest.now };
}

impl<'a> BitText<'a> {
    // At the beginning of the text.
    pub fn new(text: &'a [u8]) -> BitText<'a>
        ensures { result ≡ text.now }
    {
        BitText { rest: text }
    }

    // What was not read.
    pub fn rest(&self) -> &'a [u8]
        ensures { result.now ≡ self.now }
    {
        self.rest
    }
}

// The bit that a byte is, or the fault.
#[tactic(auto, using(crate::proofs::Bytes::other_byte))]
fn bit_of(byte: u8) -> Result<bool, ReadFault>
    ensures { ByteRead byte (told_read result) }
{
    match byte {
        b'0' => Ok(false),
        b'1' => Ok(true),
        other => Err(ReadFault {
            place: u64::from(other),
        }),
    }
}

impl<'a> BitSource for BitText<'a> {
    ghost coming = { map cell_of };

    ghost reads = { TextRead };

    fn next_bit(&mut self) -> Result<Option<bool>, ReadFault> {
        let Some((byte, rest)) = self.rest.split_first() else {
            return Ok(None);
        };
        let bit = bit_of(*byte)?;
        self.rest = rest;
        Ok(Some(bit))
    }
}

impl<'a> BitsSource for BitText<'a> {}
