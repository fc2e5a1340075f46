// What the table answers to a row.
ghost use Rattle.std.specs.Prelude.{◌≡◌, Ok};
ghost use Rattle.links.specs.declared.answer.RowFault.TheVariants.{Table};
ghost use Rattle.links.specs.Answers.{refusal_of};
ghost use Rattle.links.specs.Bytes.{repeat_of, row_refusal};

use model::refusal::Refusal;

// A link was put in, or was in already.
#[derive(Clone, Copy, PartialEq, Eq, Debug)]
pub enum Added {
    New,
    Already,
}

impl Added {
    // Whether the row repeated a link, as a count: 1 where its link was in already. No `From`: a bare number would not say of what.
    pub fn repeats(self) -> usize
        ensures { result ≡ repeat_of (Ok self) }
    {
        usize::from(self == Added::Already)
    }
}

// Why a row is refused: its ends are equal, or 2,048 other links are in.
#[derive(Clone, Copy, PartialEq, Eq, Debug)]
pub enum TableFault {
    SelfLink,
    TableFull,
}

// The refusal that a fault is.
impl From<TableFault> for Refusal {
    ghost from_gives = { λ fault refusal. refusal ≡ refusal_of fault };

    fn from(fault: TableFault) -> Refusal {
        match fault {
            TableFault::SelfLink => Refusal::SelfLink,
            TableFault::TableFull => Refusal::TableFull,
        }
    }
}

// How many rows were handed in as bytes, and how many of them had a link that was in already.
#[derive(Clone, Copy, PartialEq, Eq, Debug)]
pub struct RowsAdded {
    pub rows: usize,
    pub repeats: usize,
}

// Why a row of bytes is not taken in: the table refuses it, or it is unfinished.
#[derive(Clone, Copy, PartialEq, Eq, Debug)]
pub enum RowFault {
    Table(TableFault),
    Ragged,
}

impl From<TableFault> for RowFault {
    ghost from_gives = { λ fault row_fault. row_fault ≡ Table fault };

    fn from(fault: TableFault) -> RowFault {
        RowFault::Table(fault)
    }
}

// The refusal that a fault is.
impl From<RowFault> for Refusal {
    ghost from_gives = { λ fault refusal. refusal ≡ row_refusal fault };

    fn from(fault: RowFault) -> Refusal {
        match fault {
            RowFault::Table(fault) => Refusal::from(fault),
            RowFault::Ragged => Refusal::Ragged,
        }
    }
}

// The first row of bytes that is refused or unfinished, by its index from 0. The rows before it stand.
#[derive(Clone, Copy, PartialEq, Eq, Debug)]
pub struct RowsFault {
    pub row: usize,
    pub fault: RowFault,
}
