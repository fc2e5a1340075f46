// A scratch as a sink.
ghost use Rattle.std.specs.Prelude.{◌≡◌, [], length};
ghost use Rattle.codebooks.specs.ScratchLaws.{scratch_within};
ghost use Rattle.codebooks.specs.Scratches.{ScratchTook, scratch_bits, scratch_sink};

use super::Scratch;
use crate::streams::{BitSink, BitsSink};
use arrayvec::ArrayVec;
use words::fault::BoundedWriteError;

impl Scratch {
    // With no bits.
    pub fn new() -> Scratch
        ensures { scratch_bits result ≡ [] }
    {
        Scratch {
            bits: ArrayVec::new(),
        }
    }

    // The bits that were taken, oldest first.
    pub fn bits(&self) -> &[bool]
        ensures { result.now ≡ scratch_bits self.now }
    {
        self.bits.as_slice()
    }
}

impl BitSink for Scratch {
    ghost held = { scratch_sink };

    ghost emits = { ScratchTook };

    ghost within = { scratch_within };

    fn emit(&mut self, bit: bool) -> Result<(), BoundedWriteError> {
        self.bits
            .try_push(bit)
            .map_err(|_| BoundedWriteError::OutOfSpace)
    }
}

impl BitsSink for Scratch {}
