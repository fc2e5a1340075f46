// Why bytes and a record number are refused as a record store.
ghost use Rattle.std.specs.Prelude.{◌≡◌};
ghost use Rattle.records.specs.Faults.{record_refusal};

use model::refusal::Refusal;

#[derive(Clone, Copy, PartialEq, Eq, Debug)]
pub enum RecordError {
    // The number of bytes is no multiple of 5.
    Ragged,
    // The record number is past the end, or there are over 2^56 records.
    Misplaced,
}

// The refusal that an error is.
impl From<RecordError> for Refusal {
    ghost from_gives = { λ error r. r ≡ record_refusal error };

    fn from(error: RecordError) -> Refusal {
        match error {
            RecordError::Ragged => Refusal::Ragged,
            RecordError::Misplaced => Refusal::Misplaced,
        }
    }
}
