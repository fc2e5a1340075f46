// A row names two nodes. A link joins two nodes; it has no direction, so the lower number stands first.
ghost use Rattle.std.specs.Prelude.{◌≡◌, Some};
ghost use Rattle.model.specs.Links.{before, link_of, link_text};

use std::fmt;

// Two node numbers, in the order in which they were handed in.
#[derive(Clone, Copy, PartialEq, Eq, Debug)]
pub struct Row {
    pub first: u32,
    pub second: u32,
}

// Ordered by the low end, then by the high end.
#[derive(Clone, Copy, PartialEq, Eq, PartialOrd, Ord, Default, Debug)]
pub struct Link {
    pub low: u32,
    pub high: u32,
}

// The link of a row, the lower number first.
impl From<Row> for Link {
    ghost from_gives = { λ row link. link ≡ link_of row };

    fn from(row: Row) -> Link {
        if row.first < row.second {
            Link {
                low: row.first,
                high: row.second,
            }
        } else {
            Link {
                low: row.second,
                high: row.first,
            }
        }
    }
}

impl Link {
    // Whether this link comes first. Beside `<`, since its contract says what the derived order is.
    pub fn is_before(self, other: Link) -> bool
        ensures { result ≡ before self other }
    {
        self < other
    }
}

// As its two ends with a dash between.
impl fmt::Display for Link {
    ghost output = { λ link. Some (link_text link) };

    fn fmt<W: fmt::Write>(&self, f: &mut fmt::Formatter<W>) -> fmt::Result {
        write!(f, "{}-{}", self.low, self.high)
    }
}
