// The program `importer`: rows in, each link once out.
#![tactic(auto)]

use links::answer::RowsAdded;
use links::table::LinkTable;
use model::refusal::Refusal;
use std::io;
use std::io::Read;

// Reads rows of 8 bytes from standard input, hands them to a link table, and prints what was done; or the first row that is refused or
// unfinished, with the refusal's number.
fn main(rt: HostRuntime) -> io::Result<()> {
    let mut bytes = Vec::new(rt.alloc());
    rt.stdin().read_to_end(&mut bytes)?;
    let mut table = LinkTable::new();
    match table.add_rows(&bytes) {
        Ok(added) => report(&rt, &table, added),
        Err(stop) => {
            let number = u8::from(Refusal::from(stop.fault));
            let row = stop.row;
            println!(rt; "refused {number} row {row}")
        }
    }
}

// How many rows were read, links kept and rows repeated a link; then the links, ascending.
fn report(rt: &impl Print, table: &LinkTable, added: RowsAdded) -> io::Result<()> {
    println!(rt; "rows read {}", added.rows)?;
    println!(rt; "links kept {}", table.len())?;
    println!(rt; "repeats {}", added.repeats)?;
    for link in table.links() {
        println!(rt; "{link}")?;
    }
    Ok(())
}
