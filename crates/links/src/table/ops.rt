// The calls of a link table.
ghost use Rattle.std.specs.Prelude.{◌≡◌, true, [], length};
ghost use Rattle.std.specs.List.{slice_get};
ghost use Rattle.model.specs.Links.{link_of};
ghost use Rattle.model.specs.Rows.{is_in};
ghost use Rattle.links.specs.Histories.{OrderIsFree, RowTaken, RowsSettleTheLinks};
ghost use Rattle.links.specs.Order.{Found, Place, ascending, proper};
ghost use Rattle.links.specs.Rows.{Joined};
ghost use Rattle.links.specs.Tables.{links_of};

use super::LinkTable;
use crate::answer::{Added, TableFault};
use arrayvec::ArrayVec;
use model::link::{Link, Row};

impl LinkTable {
    // A table with no links. Whatever rows are added to it, it holds what they settle, whatever their order and direction.
    #[tactic(auto, using(crate::proofs::Chains::settles, crate::proofs::Chains::free))]
    pub fn new() -> LinkTable
        ensures none { links_of result ≡ [] }
        ensures settles { RowsSettleTheLinks result }
        ensures free { OrderIsFree result }
    {
        LinkTable {
            links: ArrayVec::new(),
        }
    }

    // How many links are in.
    pub fn len(&self) -> usize
        ensures { result ≡ length (links_of self.now) }
    {
        self.links.len()
    }

    // The links, ascending.
    pub fn links(&self) -> &[Link]
        ensures { result.now ≡ links_of self.now }
    {
        &self.links
    }

    // The link at an index of the ascending order, from 0; none past the last.
    pub fn get(&self, i: usize) -> Option<Link>
        ensures { result ≡ slice_get (links_of self.now) i }
    {
        self.links.get(i).copied()
    }

    // Whether the link of a row is in.
    pub fn contains(&self, row: Row) -> bool
        ensures { result ≡ is_in (link_of row) (links_of self.now) }
    {
        find(&self.links, Link::from(row)).is_ok()
    }

    // Takes a row in: its link is put at its place, unless it is in already, the row's ends are equal or the table is full.
    pub fn add(&mut self, row: Row) -> Result<Added, TableFault>
        ensures { RowTaken self.old row result self.new }
    {
        let link = joined(row)?;
        match find(&self.links, link) {
            Ok(_) => Ok(Added::Already),
            Err(at) => {
                if self.links.is_full() {
                    return Err(TableFault::TableFull);
                }
                self.links.insert(at, link);
                Ok(Added::New)
            }
        }
    }
}

// The place where `link` is among ascending links, or else the place where it belongs.
fn find(links: &[Link], link: Link) -> Result<usize, usize>
    requires order { ascending links.now ≡ true }
    requires ends { proper links.now ≡ true }
    ensures { Found link links.now result }
{
    found_at(links, link, place(links, link))
}

// How many of ascending links come before `link`.
fn place(links: &[Link], link: Link) -> usize
    requires { ascending links.now ≡ true }
    ensures { Place link links.now result }
{
    links.partition_point(|other| other.is_before(link))
}

// Whether `link` stands at its place. (Apart from `find`: its cases need answers, and an edit of the place is to be refused at its clause.)
fn found_at(links: &[Link], link: Link, at: usize) -> Result<usize, usize>
    requires order { ascending links.now ≡ true }
    requires ends { proper links.now ≡ true }
    requires place { Place link links.now at }
    ensures { Found link links.now result }
{
    match links.get(at) {
        Some(here) if *here == link => Ok(at),
        _ => Err(at),
    }
}

// The link of a row, unless the row's ends are equal.
fn joined(row: Row) -> Result<Link, TableFault>
    ensures { Joined row result }
{
    if row.first == row.second {
        return Err(TableFault::SelfLink);
    }
    Ok(Link::from(row))
}
