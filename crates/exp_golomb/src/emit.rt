// The codeword of a number, handed to a bit sink in either direction. (Symbol and sink, as the calls of the trait have them.)
ghost use Rattle.std.specs.Prelude.{◌≡◌, ℕ, ◌^◌, ◌<◌, ◌≤◌, Bool, true, List, [], ◌∷◌, ◌++◌, Some, Option};
ghost use Rattle.model.specs.Bits.{in_bits, low_bits};
ghost use Rattle.model.specs.Golomb.{code_at};
ghost use Rattle.model.specs.Sinks.{reversed};
ghost use Rattle.backends.specs.Answers.{told_write};
ghost use Rattle.codebooks.specs.Collected.{Coded};
ghost use Rattle.codebooks.specs.Streams.{handed};

use codebooks::streams::{BitSink, BitsSink};
use words::fault::BoundedWriteError;
use words::{PartialWord, Word};

// The codeword of a number, first bit first.
pub(crate) fn emit_codeword<N: Word, K: BitsSink>(
    symbol: N,
    sink: &mut K,
) -> Result<(), BoundedWriteError>
    ensures { Coded K.BitSink.held K.BitSink.emits (code_at N.Partial.PartialWord.width (N.Word.number symbol)) sink.old (told_write result) sink.new }
{
    let parts = Parts::of(symbol);
    emit_around_one(sink, 0, parts.turned(), parts.zeros)
}

// The same, last bit first.
pub(crate) fn emit_reversed<N: Word, K: BitsSink>(
    symbol: N,
    sink: &mut K,
) -> Result<(), BoundedWriteError>
    ensures { Coded K.BitSink.held K.BitSink.emits (reversed (code_at N.Partial.PartialWord.width (N.Word.number symbol))) sink.old (told_write result) sink.new }
{
    let parts = Parts::of(symbol);
    emit_around_one(sink, parts.low, 0, parts.zeros)
}

// A codeword: how many zeros it begins with, and as many bits after its one bit, as a number.
#[derive(Clone, Copy)]
struct Parts {
    zeros: u32,
    low: u64,
    ghost few: { zeros ≤ 64 },
    ghost within: { low < 2 ^ zeros },
}

impl Parts {
    // The codeword of a number: the number and one more are a power of two and what is left.
    fn of<N: Word>(symbol: N) -> Parts
        ensures first { (turned : ℕ) → low_bits result.zeros turned ≡ in_bits result.zeros result.low → code_at N.Partial.PartialWord.width (N.Word.number symbol) ≡ Some (handed 0 result.zeros ++ ((true ∷ []) ++ handed turned result.zeros)) }
        ensures last { reversed (code_at N.Partial.PartialWord.width (N.Word.number symbol)) ≡ Some (handed result.low result.zeros ++ ((true ∷ []) ++ handed 0 result.zeros)) }
    {
        let Some(sum) = symbol.to_u64().checked_add(1) else {
            return Parts { zeros: 64, low: 0 };
        };
        let zeros = sum.ilog2();
        let low = sum - (1 << zeros);
        Parts { zeros, low }
    }

    // The bits after the one bit, in the other order. (One by one: std's reverse_bits is a loop of 64 rounds, and here are mostly few.)
    fn turned(self) -> u64
        ensures { low_bits self.zeros result ≡ in_bits self.zeros self.low }
    {
        let mut out: u64 = 0;
        for i in 0..self.zeros {
            out = 2 * out + (self.low >> i) % 2;
        }
        out
    }
}

// A one bit between `count` bits of two numbers, each lowest first: a codeword, if these are its bits.
fn emit_around_one<K: BitsSink>(
    sink: &mut K,
    first: u64,
    last: u64,
    count: u32,
) -> Result<(), BoundedWriteError>
    ensures { (code : Option (List Bool)) → code ≡ Some (handed first count ++ ((true ∷ []) ++ handed last count)) → Coded K.BitSink.held K.BitSink.emits code sink.old (told_write result) sink.new }
{
    sink.emit_bits(first, count)?;
    sink.emit(true)?;
    sink.emit_bits(last, count)
}
