// The link table's type, with what always holds of it.
ghost use Rattle.std.specs.Prelude.{◌≡◌, ◌≤◌, true};
ghost use Rattle.model.specs.Rows.{most_links};
ghost use Rattle.arrayvec.specs.ArrayVec.{array_vec_len};
ghost use Rattle.links.specs.Order.{ascending, proper};

use arrayvec::ArrayVec;
use model::link::Link;

mod ops;
mod rows;

// As many links as a table keeps.
pub const MAX_LINKS: usize = 2048;

// Up to 2,048 links, each once, ascending by low end and then by high end.
#[derive(Drop)]
pub struct LinkTable {
    links: ArrayVec<Link, MAX_LINKS>,
    ghost room: { array_vec_len links ≤ most_links },
    ghost order: { ascending links.items ≡ true },
    ghost ends: { proper links.items ≡ true },
}
