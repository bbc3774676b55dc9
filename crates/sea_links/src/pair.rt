// Two rows that a link joins.
ghost use Rattle.std.specs.Prelude.{◌≡◌};
ghost use Rattle.std.specs.Str.{bytes_eq};
ghost use Rattle.sea_links.specs.Pairs.{is_pair as is_pair_of, is_of as is_of_row, side as side_of};

use sea_cell::{Duplicate, RowId};
use sqlite_items::Items;
use std::alloc::{AllocError, Global};

/// Two rows that a link joins.
#[derive(Drop)]
pub struct LinkPair {
    /// The number of the link.
    pub link: u32,
    /// The row on the link's first side.
    pub first: RowId,
    /// The row on its other side.
    pub second: RowId,
}

/// A list of pairs.
pub type LinkPairs = Items<LinkPair>;

impl Duplicate for LinkPair {
    fn duplicate(&self, alloc: Global) -> Result<LinkPair, AllocError> {
        Ok(LinkPair {
            link: self.link,
            first: self.first.duplicate(alloc)?,
            second: self.second.duplicate(alloc)?,
        })
    }
}

/// Whether the pair is of this link, and joins these rows on these sides. It takes no memory.
pub fn is_pair(link: u32, first: &RowId, second: &RowId, pair: &LinkPair) -> bool
    ensures { result ≡ is_pair_of link first.now second.now pair.now }
{
    pair.link == link && is_same(&pair.first, first) && is_same(&pair.second, second)
}

/// Whether the pair is of this link, and the row is on this side of it. It takes no memory.
pub fn is_of(link: u32, first: bool, id: &RowId, pair: &LinkPair) -> bool
    ensures { result ≡ is_of_row link first id.now pair.now }
{
    pair.link == link && is_same(side(first, pair), id)
}

/// The row on a side of a pair. It takes no memory.
pub fn side(first: bool, pair: &LinkPair) -> &RowId
    ensures { result.now ≡ side_of first pair.now }
{
    if first {
        return &pair.first;
    }
    &pair.second
}

// The ids are the same, byte for byte.
fn is_same(one: &RowId, other: &RowId) -> bool
    ensures { result ≡ bytes_eq one.now.0 other.now.0 }
{
    one.0.as_str() == other.0.as_str()
}
