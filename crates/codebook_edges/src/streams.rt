// Symbols written to a text and read from one, first bit first.
ghost use Rattle.std.specs.Prelude.{map};
ghost use Rattle.model.specs.Cells.{ahead};
ghost use Rattle.model.specs.Codebooks.{Decoded};
ghost use Rattle.codebooks.specs.Chains.{HandedOver, Reached};
ghost use Rattle.codebook_edges.specs.Texts.{TextPut, TextRead, cell_of};

use super::text::BitText;
use super::written::WrittenText;
use bit_streams::traits::{ReadBitStream, WriteBitStream};
use codebooks::book::{Codebook, DecoderCodebook, EncoderCodebook};
use codebooks::fault::{DecodeError, EncodeError};

impl<'a> WriteBitStream for WrittenText<'a> {
    ghost encodes = { λ s code r t. HandedOver TextPut code s r t };

    fn encode_symbol<C: EncoderCodebook>(
        &mut self,
        symbol: C::Symbol,
        book: &C,
    ) -> Result<(), EncodeError> {
        book.encode_symbol_prefix(symbol, self)
    }
}

impl<'a> ReadBitStream for BitText<'a> {
    ghost decodes = { λ X s o r t.
        Decoded (o (ahead (map cell_of s))) (map cell_of s) r (map cell_of t)
        × Reached TextRead s t };

    fn decode_symbol<C: DecoderCodebook>(&mut self, book: &C) -> Result<C::Symbol, DecodeError> {
        book.decode_symbol(self)
    }
}
