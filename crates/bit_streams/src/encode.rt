// Several symbols written one after the other, up to the first that is refused. (Four calls over one loop, as constriction has them.)
ghost use Rattle.std.specs.Prelude.{Bool, List, Option, map, reverse};
ghost use Rattle.std.specs.Iterator.{IsFinite};
ghost use Rattle.backends.specs.Chains.{WroteAll};
ghost use Rattle.codebooks.specs.Answers.{told_encode};
ghost use Rattle.bit_streams.specs.Several.{Gives, code_of, code_of_lent};

use super::traits::WriteBitStream;
use codebooks::book::{Codebook, EncoderCodebook};
use codebooks::fault::EncodeError;

// Each symbol with a codebook of its own, first to last.
#[tactic(auto, using(crate::proofs::Given::giving))]
pub fn encode_symbols<C: EncoderCodebook, K: WriteBitStream>(
    stream: &mut K,
    symbols: &[(C::Symbol, C)],
) -> Result<(), EncodeError>
where
    C::Symbol: Copy,
    ensures { WroteAll K.WriteBitStream.encodes stream.old (map (code_of C.Codebook.code) symbols.now) (told_encode result) stream.new }
{
    encode_each(stream, symbols.iter().map(|(symbol, book)| (*symbol, book)))
}

// Each symbol with a codebook of its own, last to first, so that a stack gives them first to last.
#[tactic(auto, using(crate::proofs::Given::giving))]
pub fn encode_symbols_reverse<C: EncoderCodebook, K: WriteBitStream>(
    stream: &mut K,
    symbols: &[(C::Symbol, C)],
) -> Result<(), EncodeError>
where
    C::Symbol: Copy,
    ensures { WroteAll K.WriteBitStream.encodes stream.old (reverse (map (code_of C.Codebook.code) symbols.now)) (told_encode result) stream.new }
{
    encode_each(
        stream,
        symbols.iter().rev().map(|(symbol, book)| (*symbol, book)),
    )
}

// All with one codebook, first to last.
#[tactic(auto, using(crate::proofs::Given::giving))]
pub fn encode_iid_symbols<C: EncoderCodebook, K: WriteBitStream>(
    stream: &mut K,
    symbols: &[C::Symbol],
    book: &C,
) -> Result<(), EncodeError>
where
    C::Symbol: Copy,
    ensures { WroteAll K.WriteBitStream.encodes stream.old (map (C.Codebook.code book.now) symbols.now) (told_encode result) stream.new }
{
    encode_each(stream, symbols.iter().map(|symbol| (*symbol, book)))
}

// All with one codebook, last to first.
#[tactic(auto, using(crate::proofs::Given::giving))]
pub fn encode_iid_symbols_reverse<C: EncoderCodebook, K: WriteBitStream>(
    stream: &mut K,
    symbols: &[C::Symbol],
    book: &C,
) -> Result<(), EncodeError>
where
    C::Symbol: Copy,
    ensures { WroteAll K.WriteBitStream.encodes stream.old (reverse (map (C.Codebook.code book.now) symbols.now)) (told_encode result) stream.new }
{
    encode_each(stream, symbols.iter().rev().map(|symbol| (*symbol, book)))
}

// Each symbol with its codebook, as they come.
fn encode_each<
    'a,
    C: EncoderCodebook + 'a,
    K: WriteBitStream,
    I: Iterator<Item = (C::Symbol, &'a C)>,
>(stream: &mut K, symbols: I) -> Result<(), EncodeError>
    requires can { I.can_next symbols }
    requires ends { IsFinite (I.remaining symbols) }
    ensures { (codes : List (Option (List Bool))) → Gives I.next_gives (code_of_lent C.Codebook.code) symbols codes → WroteAll K.WriteBitStream.encodes stream.old codes (told_encode result) stream.new }
{
    for (symbol, book) in symbols {
        stream.encode_symbol(symbol, book)?;
    }
    Ok(())
}
