// An encoder in one direction from an encoder in the other. (Two calls over one text: constriction gives a body in each direction.)
ghost use Rattle.std.specs.Prelude.{reverse};
ghost use Rattle.model.specs.Sinks.{Encoded, reversed};
ghost use Rattle.backends.specs.Answers.{told_write};
ghost use Rattle.codebooks.specs.Answers.{told_encode};
ghost use Rattle.codebooks.specs.Chains.{HandedOver};
ghost use Rattle.codebooks.specs.Collected.{Coded, Fills};
ghost use Rattle.codebooks.specs.Scratches.{scratch_bits};
ghost use Rattle.codebooks.specs.Sent.{Sent};

use super::book::{Codebook, EncoderCodebook};
use super::fault::EncodeError;
use super::scratch::Scratch;
use super::streams::{BitSink, BitsSink};
use words::fault::BoundedWriteError;

// The codeword first bit first, by a codebook that writes it last bit first.
pub fn encode_prefix_by_suffix<C: EncoderCodebook, K: BitsSink>(
    book: &C,
    symbol: C::Symbol,
    sink: &mut K,
) -> Result<(), EncodeError>
    ensures means { Encoded (C.Codebook.code book.now symbol) (K.BitSink.held sink.old) (told_encode result) (K.BitSink.held sink.new) }
    ensures does { HandedOver K.BitSink.emits (C.Codebook.code book.now symbol) sink.old (told_encode result) sink.new }
{
    encode_turned(book, symbol, sink, C::encode_symbol_suffix)
}

// The codeword last bit first, by a codebook that writes it first bit first.
pub fn encode_suffix_by_prefix<C: EncoderCodebook, K: BitsSink>(
    book: &C,
    symbol: C::Symbol,
    sink: &mut K,
) -> Result<(), EncodeError>
    ensures means { Encoded (reversed (C.Codebook.code book.now symbol)) (K.BitSink.held sink.old) (told_encode result) (K.BitSink.held sink.new) }
    ensures does { HandedOver K.BitSink.emits (reversed (C.Codebook.code book.now symbol)) sink.old (told_encode result) sink.new }
{
    encode_turned(book, symbol, sink, C::encode_symbol_prefix)
}

// A codeword in the direction that is not the one in which `fill` writes it.
fn encode_turned<
    C: EncoderCodebook,
    K: BitsSink,
    F: FnOnce(&C, C::Symbol, &mut Scratch) -> Result<(), EncodeError>,
>(book: &C, symbol: C::Symbol, sink: &mut K, fill: F) -> Result<(), EncodeError>
    requires { F.IsAlwaysCallable fill }
    ensures forth { Fills (F.post fill) book.now symbol (reversed (C.Codebook.code book.now symbol)) → Coded K.BitSink.held K.BitSink.emits (C.Codebook.code book.now symbol) sink.old (told_encode result) sink.new }
    ensures back { Fills (F.post fill) book.now symbol (C.Codebook.code book.now symbol) → Coded K.BitSink.held K.BitSink.emits (reversed (C.Codebook.code book.now symbol)) sink.old (told_encode result) sink.new }
{
    let mut scratch = Scratch::new();
    fill(book, symbol, &mut scratch)?;
    emit_turned(&scratch, sink)?;
    Ok(())
}

// The bits of a scratch, newest first.
fn emit_turned<K: BitSink>(scratch: &Scratch, sink: &mut K) -> Result<(), BoundedWriteError>
    ensures { Sent K.BitSink.held K.BitSink.emits (reverse (scratch_bits scratch.now)) sink.old (told_write result) sink.new }
{
    for bit in scratch.bits().iter().rev() {
        sink.emit(*bit)?;
    }
    Ok(())
}
