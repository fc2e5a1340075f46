// Why a store's calls are refused.
ghost use Rattle.std.specs.Prelude.{◌≡◌, Some};
ghost use Rattle.backends.specs.Answers.{read_refusal, seek_refusal};
ghost use Rattle.backends.specs.Texts.{read_text};

use model::refusal::Refusal;
use std::fmt;

// The place that is to be read is a fault, of this number.
#[derive(Clone, Copy, PartialEq, Eq, Debug)]
pub struct ReadFault {
    pub place: u64,
}

// Why a position is refused.
#[derive(Clone, Copy, PartialEq, Eq, Debug)]
pub enum SeekError {
    // It is past the end of the slice, or the slice has over 2^56 places.
    PastEnd,
}

impl From<ReadFault> for Refusal {
    ghost from_gives = { λ fault r. r ≡ read_refusal fault };

    fn from(fault: ReadFault) -> Refusal {
        Refusal::BadRecord(fault.place)
    }
}

impl From<SeekError> for Refusal {
    ghost from_gives = { λ error r. r ≡ seek_refusal error };

    fn from(error: SeekError) -> Refusal {
        match error {
            SeekError::PastEnd => Refusal::Misplaced,
        }
    }
}

impl fmt::Display for ReadFault {
    ghost output = { λ f. Some (read_text f) };

    fn fmt<W: fmt::Write>(&self, f: &mut fmt::Formatter<W>) -> fmt::Result {
        write!(f, "place {} is a fault", self.place)
    }
}
