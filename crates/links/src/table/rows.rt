// Rows handed in as bytes.
ghost use Rattle.std.specs.Prelude.{◌≡◌, ℕ, List};
ghost use Rattle.model.specs.Bytes.{row_at};
ghost use Rattle.links.specs.declared.answer.RowFault.TheVariants.{Table};
ghost use Rattle.links.specs.Bytes.{IsRowAt, RowDone, RowsTaken};

use super::LinkTable;
use crate::answer::{Added, RowFault, RowsAdded, RowsFault, TableFault};
use model::link::Row;

// As many bytes as a row has: two node numbers of 32 bits, each with its lowest byte first.
pub const ROW_BYTES: usize = 8;

impl LinkTable {
    // Takes in the rows of bytes, one after the other, up to the first that is refused or unfinished, which is told.
    pub fn add_rows(&mut self, bytes: &[u8]) -> Result<RowsAdded, RowsFault>
        ensures { RowsTaken self.old bytes.now result self.new }
    {
        let (rows, unfinished) = bytes.as_chunks::<ROW_BYTES>();
        let mut repeats = 0;
        for (i, row) in rows.iter().enumerate() {
            repeats += self.add_row(i, *row)?.repeats();
        }
        if !unfinished.is_empty() {
            return Err(RowsFault {
                row: rows.len(),
                fault: RowFault::Ragged,
            });
        }
        Ok(RowsAdded {
            rows: rows.len(),
            repeats,
        })
    }

    // Takes in the row at an index, which is told where the row is refused.
    fn add_row(&mut self, i: usize, row: [u8; ROW_BYTES]) -> Result<Added, RowsFault>
        ensures { (bytes : List ℕ) → IsRowAt bytes i row → RowDone bytes i self.old result self.new }
    {
        self.add(row_of(row)).map_err(|fault| refused(i, fault))
    }
}

// The table refuses the row at an index.
fn refused(index: usize, fault: TableFault) -> RowsFault
    ensures { result ≡ record { row = index; fault = Table fault } }
{
    RowsFault {
        row: index,
        fault: RowFault::from(fault),
    }
}

// The row of 8 bytes.
fn row_of(bytes: [u8; ROW_BYTES]) -> Row
    ensures { result ≡ row_at bytes 0 }
{
    let [a, b, c, d, e, f, g, h] = bytes;
    Row {
        first: u32::from_le_bytes([a, b, c, d]),
        second: u32::from_le_bytes([e, f, g, h]),
    }
}
