// Bits written as text, for tests: a sink that takes as many as the text has room for.
ghost use Rattle.std.specs.Prelude.{◌≡◌};
ghost use Rattle.codebook_edges.specs.TextLaws.{text_within};
ghost use Rattle.codebook_edges.specs.Texts.{TextPut, digit_of, text_sink};

use codebooks::streams::{BitSink, BitsSink};
use words::fault::BoundedWriteError;

// The first `len` bytes are written; a list of its own could not show the lender that the bytes behind them stay.
#[derive(Drop)]
pub struct WrittenText<'a> {
    text: &'a mut [u8],
    len: usize,
}

impl<'a> WrittenText<'a> {
    // At the beginning of the text.
    pub fn new(text: &'a mut [u8]) -> WrittenText<'a>
        ensures text { result.text.now ≡ text.old }
        ensures len { result.len ≡ 0 }
    {
        WrittenText { text, len: 0 }
    }

    // How many bits were written.
    pub fn taken(&self) -> usize
        ensures { result ≡ self.now.len }
    {
        self.len
    }
}

// '0' or '1'. (std has no conversion of a `bool` into a digit.)
fn digit(bit: bool) -> u8
    ensures { result ≡ digit_of bit }
{
    if bit { b'1' } else { b'0' }
}

impl<'a> BitSink for WrittenText<'a> {
    ghost held = { text_sink };

    ghost emits = { TextPut };

    ghost within = { text_within };

    fn emit(&mut self, bit: bool) -> Result<(), BoundedWriteError> {
        let at = self.len;
        if at >= self.text.len() {
            return Err(BoundedWriteError::OutOfSpace);
        }
        self.text[at] = digit(bit);
        self.len = at + 1;
        Ok(())
    }
}

impl<'a> BitsSink for WrittenText<'a> {}
