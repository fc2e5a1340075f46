// What writes symbols, and what reads them.
ghost use Rattle.std.specs.Prelude.{Bool, List, Option};
ghost use Rattle.model.specs.Codebooks.{Outcome};
ghost use Rattle.model.specs.Refusals.{Answer};
ghost use Rattle.codebooks.specs.Answers.{told_decode, told_encode};

use codebooks::book::{Codebook, DecoderCodebook, EncoderCodebook};
use codebooks::fault::{DecodeError, EncodeError};

// Writes symbols.
pub trait WriteBitStream {
    // what the codeword of a symbol, or that it has none, by its answer, makes of the whole stream
    ghost encodes: { Self → Option (List Bool) → Answer (Unit {0}) → Self → Type 0 };

    fn encode_symbol<C: EncoderCodebook>(
        &mut self,
        symbol: C::Symbol,
        book: &C,
    ) -> Result<(), EncodeError>
        ensures { encodes self.old (C.Codebook.code book.now symbol) (told_encode result) self.new };
}

// Reads symbols.
pub trait ReadBitStream {
    // what reading a symbol, by what decoding comes to and by its answer, makes of the whole stream
    ghost decodes: { (X : Type 0) → Self → (List Bool → Outcome X) → Answer X → Self → Type 0 };

    fn decode_symbol<C: DecoderCodebook>(&mut self, book: &C) -> Result<C::Symbol, DecodeError>
        ensures { decodes C.Symbol self.old (C.Codebook.outcome book.now) (told_decode result) self.new };
}
