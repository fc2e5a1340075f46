// Every reason for which a call of the library refuses, with its number and its word.
ghost use Rattle.std.specs.Prelude.{◌≡◌, Some};
ghost use Rattle.model.specs.Refusals.{number_of, word_of};

use std::fmt;

// docs/REFUSALS.md says of each when it comes, what it leaves behind, and which comes first where several apply.
#[derive(Clone, Copy, PartialEq, Eq, Debug)]
pub enum Refusal {
    // The store has as many places as it can have.
    Full,
    // The codebook has no codeword for the symbol.
    Unlisted,
    // The bits end before a codeword of a table is whole.
    Dry,
    // The bits to come begin with no codeword.
    Garbled,
    // Unseal where the bits held do not end at a word's edge.
    OffEdge,
    // Unseal where the last word is zero.
    Unsealed,
    // A position past the slice, a slice of over 2^56 places, or run writing into a store that has places.
    Misplaced,
    // The place that is to be read is a fault, of this number.
    BadRecord(u64),
    // A new link where 2,048 others are in.
    TableFull,
    // A row whose ends are equal.
    SelfLink,
    // A table of codewords that breaks its rule.
    Clash,
    // Bytes that are not whole records or rows.
    Ragged,
    // A run is to be read from a store that has no places.
    Bare,
    // A node number over 2^32 - 1.
    TooFar,
    // A spare share above 100 percent.
    Overspare,
}

// The number under which programs and C calls tell a refusal. Written out, since an enum with a value in a case has no cast.
impl From<Refusal> for u8 {
    ghost from_gives = { λ refusal number. number ≡ number_of refusal };

    fn from(refusal: Refusal) -> u8 {
        match refusal {
            Refusal::Full => 1,
            Refusal::Unlisted => 2,
            Refusal::Dry => 3,
            Refusal::Garbled => 4,
            Refusal::OffEdge => 5,
            Refusal::Unsealed => 6,
            Refusal::Misplaced => 7,
            Refusal::BadRecord(_) => 8,
            Refusal::TableFull => 9,
            Refusal::SelfLink => 10,
            Refusal::Clash => 11,
            Refusal::Ragged => 12,
            Refusal::Bare => 13,
            Refusal::TooFar => 14,
            Refusal::Overspare => 15,
        }
    }
}

impl Refusal {
    // The word under which a report tells it. Beside `Display`, since it needs no formatter.
    pub fn word(self) -> &'static str
        ensures { result.now ≡ word_of self }
    {
        match self {
            Refusal::Full => "full",
            Refusal::Unlisted => "unlisted",
            Refusal::Dry => "dry",
            Refusal::Garbled => "garbled",
            Refusal::OffEdge => "off edge",
            Refusal::Unsealed => "unsealed",
            Refusal::Misplaced => "misplaced",
            Refusal::BadRecord(_) => "bad record",
            Refusal::TableFull => "table full",
            Refusal::SelfLink => "self link",
            Refusal::Clash => "clash",
            Refusal::Ragged => "ragged",
            Refusal::Bare => "bare",
            Refusal::TooFar => "too far",
            Refusal::Overspare => "overspare",
        }
    }
}

// As its word.
impl fmt::Display for Refusal {
    ghost output = { λ refusal. Some (word_of refusal) };

    fn fmt<W: fmt::Write>(&self, f: &mut fmt::Formatter<W>) -> fmt::Result {
        f.write_str(self.word())
    }
}
