// Bit sinks and bit sources.
ghost use Rattle.std.specs.Prelude.{◌≤◌, min, Bool, List, [], ◌∷◌, length, Option};
ghost use Rattle.model.specs.Cells.{Cell};
ghost use Rattle.model.specs.Refusals.{Answer};
ghost use Rattle.model.specs.Sinks.{Emitted, Read, Sink};
ghost use Rattle.backends.specs.Answers.{told_read, told_write};
ghost use Rattle.codebooks.specs.Chains.{Reached};
ghost use Rattle.codebooks.specs.Sent.{Sent};
ghost use Rattle.codebooks.specs.Streams.{ManyRead, OneRead, handed};
ghost use Rattle.codebooks.specs.Told.{told_bits};

use super::each::{emit_each, read_each, read_to_one};
use backends::fault::ReadFault;
use words::fault::BoundedWriteError;

// Bits that were read: the number that they stand for, the first the highest, and how many they are.
#[derive(Clone, Copy, PartialEq, Eq, Debug)]
pub struct BitsRead {
    pub number: u64,
    pub count: u32,
}

// Takes bits.
pub trait BitSink {
    // what it has taken, and how much it can hold
    ghost held: { Self → Sink };

    // what a bit, by its answer, makes of the whole sink
    ghost emits: { Self → Bool → Answer (Unit {0}) → Self → Type 0 };

    // Takes a bit; refused without effect exactly where it takes no more.
    fn emit(&mut self, bit: bool) -> Result<(), BoundedWriteError>
        ensures means { Emitted (bit ∷ []) (held self.old) (told_write result) (held self.new) }
        ensures does { emits self.old bit (told_write result) self.new };

    ghost within: { (s : Self) → length (held s).taken ≤ (held s).limit };
}

// Takes several bits at once, as by single calls. (It is a trait of its own so that a sink's calls may be made of its single calls.)
pub trait BitsSink: BitSink {
    // The lowest `count` bits of a number, at most 64, lowest first, as by single calls up to the first that is refused.
    fn emit_bits(&mut self, number: u64, count: u32) -> Result<(), BoundedWriteError>
        ensures { Sent Self.BitSink.held Self.BitSink.emits (handed number count) self.old (told_write result) self.new }
    {
        emit_each(self, number, count)
    }
}

// Gives bits.
pub trait BitSource {
    // the cells to come, next first
    ghost coming: { Self → List Cell };

    // what a read, by its answer, makes of the whole source
    ghost reads: { Self → Answer (Option Bool) → Self → Type 0 };

    // The next bit, which is taken; none at the end. A fault is told by its number, and stays.
    fn next_bit(&mut self) -> Result<Option<bool>, ReadFault>
        ensures means { Read (coming self.old) (told_read result) (coming self.new) }
        ensures does { reads self.old (told_read result) self.new };
}

// Gives several bits at once, as by single calls. (Each call says what was reached: that is of a source before and after.)
pub trait BitsSource: BitSource {
    // The next `count` bits, at most 64, as a number, the first bit the highest; fewer at the end.
    fn next_bits(&mut self, count: u32) -> Result<BitsRead, ReadFault>
        ensures means { ManyRead (min count 64) (Self.BitSource.coming self.old) (told_bits result) (Self.BitSource.coming self.new) }
        ensures does { Reached Self.BitSource.reads self.old self.new }
    {
        read_each(self, count)
    }

    // Zero bits up to the first one bit, which is taken too: how many there were, staying at the largest number; none where the end comes
    // first.
    fn next_one(&mut self) -> Result<Option<u64>, ReadFault>
        ensures means { OneRead (Self.BitSource.coming self.old) (told_read result) (Self.BitSource.coming self.new) }
        ensures does { Reached Self.BitSource.reads self.old self.new }
    {
        read_to_one(self)
    }
}
