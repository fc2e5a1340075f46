// Why a write is refused where there is a fixed room.
ghost use Rattle.std.specs.Prelude.{◌≡◌, Some};
ghost use Rattle.words.specs.Answers.{write_refusal, write_text};

use model::refusal::Refusal;
use std::fmt;

#[derive(Clone, Copy, PartialEq, Eq, Debug)]
pub enum BoundedWriteError {
    // There is no room for what is to be written.
    OutOfSpace,
}

// The refusal that it is.
impl From<BoundedWriteError> for Refusal {
    ghost from_gives = { λ error r. r ≡ write_refusal error };

    fn from(error: BoundedWriteError) -> Refusal {
        match error {
            BoundedWriteError::OutOfSpace => Refusal::Full,
        }
    }
}

impl fmt::Display for BoundedWriteError {
    ghost output = { λ e. Some (write_text e) };

    fn fmt<W: fmt::Write>(&self, f: &mut fmt::Formatter<W>) -> fmt::Result {
        match self {
            BoundedWriteError::OutOfSpace => f.write_str("Out of space"),
        }
    }
}
