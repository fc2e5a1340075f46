// Codebooks: a codeword or none for each symbol.
ghost use Rattle.std.specs.Prelude.{Bool, List, Option};
ghost use Rattle.model.specs.Cells.{ahead};
ghost use Rattle.model.specs.Codebooks.{Decoded, Finds, Found, Lengths, Outcome, Part, PrefixFree};
ghost use Rattle.model.specs.Sinks.{Encoded, reversed};
ghost use Rattle.codebooks.specs.Answers.{told_decode, told_encode};
ghost use Rattle.codebooks.specs.Chains.{HandedOver, Reached};

use super::fault::{DecodeError, EncodeError};
use super::streams::{BitSink, BitSource, BitsSink, BitsSource};

// Symbols and their codewords.
pub trait Codebook {
    type Symbol;

    // the codeword of a symbol, if it has one
    ghost code: { Self → Self.Symbol → Option (List Bool) };

    // what decoding comes to, by the bits to come
    ghost outcome: { Self → List Bool → Outcome Self.Symbol };
}

// A prefix code: a codeword has 1 to 256 bits, and none begins another symbol's.
pub trait PrefixCode: Codebook {
    ghost lengths: { Lengths {B = Self} (λ _. Self.Symbol) Self.Codebook.code };

    ghost apart: { PrefixFree {B = Self} (λ _. Self.Symbol) Self.Codebook.code };

    ghost finds: { Finds {B = Self} (λ _. Self.Symbol) Self.Codebook.code Self.Codebook.outcome };

    ghost found: { Found {B = Self} (λ _. Self.Symbol) Self.Codebook.code Self.Codebook.outcome };

    ghost part: { Part {B = Self} (λ _. Self.Symbol) Self.Codebook.code Self.Codebook.outcome };
}

// Writes symbols.
pub trait EncoderCodebook: PrefixCode {
    // The codeword from its first bit to its last, for queues.
    fn encode_symbol_prefix<K: BitsSink>(
        &self,
        symbol: Self::Symbol,
        sink: &mut K,
    ) -> Result<(), EncodeError>
        ensures means { Encoded (Self.Codebook.code self.now symbol) (K.BitSink.held sink.old) (told_encode result) (K.BitSink.held sink.new) }
        ensures does { HandedOver K.BitSink.emits (Self.Codebook.code self.now symbol) sink.old (told_encode result) sink.new };

    // The codeword from its last bit to its first, for stacks.
    fn encode_symbol_suffix<K: BitsSink>(
        &self,
        symbol: Self::Symbol,
        sink: &mut K,
    ) -> Result<(), EncodeError>
        ensures means { Encoded (reversed (Self.Codebook.code self.now symbol)) (K.BitSink.held sink.old) (told_encode result) (K.BitSink.held sink.new) }
        ensures does { HandedOver K.BitSink.emits (reversed (Self.Codebook.code self.now symbol)) sink.old (told_encode result) sink.new };
}

// Reads symbols.
pub trait DecoderCodebook: PrefixCode {
    fn decode_symbol<R: BitsSource>(&self, source: &mut R) -> Result<Self::Symbol, DecodeError>
        ensures means { Decoded (Self.Codebook.outcome self.now (ahead (R.BitSource.coming source.old))) (R.BitSource.coming source.old) (told_decode result) (R.BitSource.coming source.new) }
        ensures does { Reached R.BitSource.reads source.old source.new };
}
