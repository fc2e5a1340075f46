// The Exp-Golomb code: ue(v) of ITU-T H.264, clause 9.1.
#![tactic(auto)]

ghost use Rattle.model.specs.Codebooks.{on_symbol};
ghost use Rattle.model.specs.Golomb.{Clause_9_1, ParsingReadsCodewords, code_at, parse};
ghost use Rattle.exp_golomb.specs.GolombLaws as laws;

use codebooks::book::{Codebook, DecoderCodebook, EncoderCodebook, PrefixCode};
use codebooks::fault::{DecodeError, EncodeError, SymbolCodeError};
use codebooks::streams::{BitsSink, BitsSource};
use std::marker::PhantomData;
use words::{PartialWord, Word};

mod emit;
mod parse;

use emit::{emit_codeword, emit_reversed};
use parse::parse_number;

// The Exp-Golomb code for the numbers of one word type, all of them.
#[derive(Clone, Copy, Debug, Default)]
pub struct ExpGolomb<N>(PhantomData<N>);

impl<N: Word> ExpGolomb<N> {
    // The code, whose codewords and whose parsing process are those of the clause, and agree.
    pub fn new() -> ExpGolomb<N>
        ensures clause { Clause_9_1 }
        ensures agrees { ParsingReadsCodewords N.Partial.PartialWord.width }
    {
        ExpGolomb(PhantomData)
    }
}

impl<N: Word> Codebook for ExpGolomb<N> {
    type Symbol = N;

    ghost code = { λ _ s. code_at N.Partial.PartialWord.width (N.Word.number s) };

    ghost outcome = { λ _ coming. on_symbol N.Word.word (parse N.Partial.PartialWord.width coming) };
}

impl<N: Word> PrefixCode for ExpGolomb<N> {
    ghost lengths = { laws.lengths N.Partial.PartialWord.width N.Word.number N.Word.word N.Partial.PartialWord.most };

    ghost apart = { laws.apart N.Partial.PartialWord.width N.Word.number N.Word.word N.Word.back };

    ghost finds = { laws.finds N.Partial.PartialWord.width N.Word.number N.Word.word N.Word.back };

    ghost found = { laws.found N.Partial.PartialWord.width N.Word.number N.Word.word N.Word.there };

    ghost part = { laws.part N.Partial.PartialWord.width N.Word.number N.Word.word };
}

impl<N: Word> EncoderCodebook for ExpGolomb<N> {
    fn encode_symbol_prefix<K: BitsSink>(
        &self,
        symbol: N,
        sink: &mut K,
    ) -> Result<(), EncodeError> {
        emit_codeword(symbol, sink)?;
        Ok(())
    }

    fn encode_symbol_suffix<K: BitsSink>(
        &self,
        symbol: N,
        sink: &mut K,
    ) -> Result<(), EncodeError> {
        emit_reversed(symbol, sink)?;
        Ok(())
    }
}

impl<N: Word> DecoderCodebook for ExpGolomb<N> {
    fn decode_symbol<R: BitsSource>(&self, source: &mut R) -> Result<N, DecodeError> {
        let number = parse_number(source, N::width())?;
        let symbol = N::from_u64(number).ok_or(SymbolCodeError::InvalidCodeword)?;
        Ok(symbol)
    }
}
