// Several symbols read one after the other, up to the first that is refused.
ghost use Rattle.std.specs.Prelude.{length, replicate};
ghost use Rattle.bit_streams.specs.Several.{ReadInto};
ghost use Rattle.bit_streams.specs.Told.{ReadBefore, told_symbols};

use super::traits::ReadBitStream;
use codebooks::book::{Codebook, DecoderCodebook};
use codebooks::fault::DecodeError;

// A symbol is not read: why, and how many were read before it.
#[derive(Clone, Copy, PartialEq, Eq, Debug)]
pub struct SymbolsError {
    pub read: usize,
    pub error: DecodeError,
}

// One symbol for each slot, all with one codebook. Slots of symbols that are not read stay as they are.
pub fn decode_iid_symbols<C: DecoderCodebook, K: ReadBitStream>(
    stream: &mut K,
    book: &C,
    symbols: &mut [C::Symbol],
) -> Result<(), SymbolsError>
where
    C::Symbol: Copy,
    ensures { (into : ReadInto (K.ReadBitStream.decodes C.Symbol) stream.old (replicate (length symbols.old) (C.Codebook.outcome book.now)) symbols.old (told_symbols result) symbols.new stream.new) × ReadBefore result (length into.symbols) }
{
    decode_iid_each(stream, book, symbols)
}

// The loop of it. (Apart: its clause needs an answer, and an edit of the public call is to be refused at the clause, not at an answer.)
fn decode_iid_each<C: DecoderCodebook, K: ReadBitStream>(
    stream: &mut K,
    book: &C,
    symbols: &mut [C::Symbol],
) -> Result<(), SymbolsError>
where
    C::Symbol: Copy,
    ensures { (into : ReadInto (K.ReadBitStream.decodes C.Symbol) stream.old (replicate (length symbols.old) (C.Codebook.outcome book.now)) symbols.old (told_symbols result) symbols.new stream.new) × ReadBefore result (length into.symbols) }
{
    for (read, slot) in symbols.iter_mut().enumerate() {
        *slot = stream
            .decode_symbol(book)
            .map_err(|error| SymbolsError { read, error })?;
    }
    Ok(())
}
