// Why a symbol is not written or not read.
ghost use Rattle.std.specs.Prelude.{◌≡◌, Some};
ghost use Rattle.codebooks.specs.declared.fault.CoderError.TheVariants.{Backend, Frontend};
ghost use Rattle.codebooks.specs.Answers.{encoder_refusal, symbol_refusal};
ghost use Rattle.codebooks.specs.Texts.{coder_text, encoder_text, symbol_text};

use backends::fault::ReadFault;
use model::refusal::Refusal;
use std::fmt;
use words::fault::BoundedWriteError;

// An error of a codebook (`Frontend`), or of what lies below it (`Backend`). (No `Result`: both are errors, under constriction's names.)
#[derive(Clone, Copy, PartialEq, Eq, Debug)]
pub enum CoderError<F, B> {
    Frontend(F),
    Backend(B),
}

// Why a symbol is not written.
pub type EncodeError = CoderError<DefaultEncoderFrontendError, BoundedWriteError>;

// Why a symbol is not read.
pub type DecodeError = CoderError<SymbolCodeError, ReadFault>;

// Why a codebook does not write a symbol.
#[derive(Clone, Copy, PartialEq, Eq, Debug)]
pub enum DefaultEncoderFrontendError {
    // The symbol has no codeword.
    ImpossibleSymbol,
}

// Why a codebook reads no symbol.
#[derive(Clone, Copy, PartialEq, Eq, Debug)]
pub enum SymbolCodeError {
    // The bits end before a codeword is whole.
    OutOfCompressedData,
    // The bits begin with no codeword.
    InvalidCodeword,
}

impl SymbolCodeError {
    // As the error of a codebook, over a source. (A conversion under this name, since the Rust crate constriction has it.)
    pub fn into_coder_error(self) -> DecodeError
        ensures { result ≡ Frontend self }
    {
        DecodeError::from(self)
    }
}

impl From<DefaultEncoderFrontendError> for Refusal {
    ghost from_gives = { λ error r. r ≡ encoder_refusal error };

    fn from(error: DefaultEncoderFrontendError) -> Refusal {
        match error {
            DefaultEncoderFrontendError::ImpossibleSymbol => Refusal::Unlisted,
        }
    }
}

impl From<SymbolCodeError> for Refusal {
    ghost from_gives = { λ error r. r ≡ symbol_refusal error };

    fn from(error: SymbolCodeError) -> Refusal {
        match error {
            SymbolCodeError::OutOfCompressedData => Refusal::Dry,
            SymbolCodeError::InvalidCodeword => Refusal::Garbled,
        }
    }
}

// One `From` for each error, in place of constriction's general one: what an error becomes is told at its type (docs/DIFFERENCES.md).
impl From<DefaultEncoderFrontendError> for EncodeError {
    ghost from_gives = { λ error r. r ≡ Frontend error };

    fn from(error: DefaultEncoderFrontendError) -> EncodeError {
        CoderError::Frontend(error)
    }
}

impl From<BoundedWriteError> for EncodeError {
    ghost from_gives = { λ error r. r ≡ Backend error };

    fn from(error: BoundedWriteError) -> EncodeError {
        CoderError::Backend(error)
    }
}

impl From<SymbolCodeError> for DecodeError {
    ghost from_gives = { λ error r. r ≡ Frontend error };

    fn from(error: SymbolCodeError) -> DecodeError {
        CoderError::Frontend(error)
    }
}

impl From<ReadFault> for DecodeError {
    ghost from_gives = { λ fault r. r ≡ Backend fault };

    fn from(fault: ReadFault) -> DecodeError {
        CoderError::Backend(fault)
    }
}

impl fmt::Display for DefaultEncoderFrontendError {
    ghost output = { λ e. Some (encoder_text e) };

    fn fmt<W: fmt::Write>(&self, f: &mut fmt::Formatter<W>) -> fmt::Result {
        match self {
            DefaultEncoderFrontendError::ImpossibleSymbol => {
                f.write_str("Tried to encode a symbol that has no codeword.")
            }
        }
    }
}

impl fmt::Display for SymbolCodeError {
    ghost output = { λ e. Some (symbol_text e) };

    fn fmt<W: fmt::Write>(&self, f: &mut fmt::Formatter<W>) -> fmt::Result {
        match self {
            SymbolCodeError::OutOfCompressedData => {
                f.write_str("The compressed data ended before the current codeword was complete.")
            }
            SymbolCodeError::InvalidCodeword => f.write_str("Invalid codeword for this codebook."),
        }
    }
}

impl<F: fmt::Display, B: fmt::Display> fmt::Display for CoderError<F, B> {
    ghost output = { λ e. coder_text F.Display.output B.Display.output e };

    fn fmt<W: fmt::Write>(&self, f: &mut fmt::Formatter<W>) -> fmt::Result {
        match self {
            CoderError::Frontend(error) => write!(f, "Invalid symbol or compressed data: {error}"),
            CoderError::Backend(error) => write!(f, "Error of the store: {error}"),
        }
    }
}
