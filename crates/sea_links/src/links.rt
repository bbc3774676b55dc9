// The pairs of a base, in the order in which they were added.
ghost use Rattle.std.specs.Prelude.{◌≡◌, [], length, true, false, Err, OnOk, OnErr, IfOk, IfErr};
ghost use Rattle.sea_links.specs.Pairs.{has_pair, others_of, IsWithoutRepeats, with_pair, without_pair, without_row, without_link};
ghost use Rattle.sea_links.specs.declared.fault.LinkFault.TheVariants.{LinkExists};

use crate::fault::{LinkFault, NoLink};
use crate::pair::LinkPairs;
use crate::pair_index::{PairIndex, copy_of, pairs_of, sides_of};
use sea_cell::{Duplicate, Ids, RowId};
use sqlite_items::Items;
use std::alloc::{AllocError, Global};
use std::marker::Model;

/// The pairs of rows that the links of a base join, seen by contracts as the list of them in the order in which they were
/// added. No pair is in it twice. An index finds the pairs of a row, so that a call about rows takes time by the pairs of
/// these rows and not by all pairs.
#[derive(Drop)]
pub struct Links {
    alloc: Global,
    index: PairIndex,
}

impl Model for Links {
    ghost use Rattle.std.specs.Prelude.{List};
    ghost use Rattle.sea_links.specs.declared.pair.LinkPair.{LinkPair};
    ghost use Rattle.std.specs.Map.{values_of};
    ghost use Rattle.sea_links.specs.Pairs.{IsWithoutRepeats};
    ghost use Rattle.sea_links.specs.Indexed.{IsIndexed};

    ghost Value = { List LinkPair };

    ghost view = { λ it. values_of it.index.pairs.entries };

    ghost invariant = { λ it. IsIndexed it.index × IsWithoutRepeats (values_of it.index.pairs.entries) };
}

impl Links {
    /// No pairs. It takes no memory.
    pub fn new(alloc: Global) -> Links
        ensures { result ≡ [] }
    {
        Links {
            alloc,
            index: PairIndex::new(alloc),
        }
    }

    /// How many pairs there are.
    pub fn len(&self) -> usize
        ensures { result ≡ length self.now }
    {
        self.index.pairs.len()
    }

    /// All pairs, in the order in which they were added. None of them is there twice.
    pub fn all(&self) -> Result<LinkPairs, AllocError>
        ensures all { IfOk result (λ pairs. pairs ≡ self.now) }
        ensures single { IsWithoutRepeats self.now }
    {
        Ok(Items::from_vec(pairs_of(self.alloc, &self.index.pairs)?))
    }

    /// Whether the link joins these rows, the first one on its first side. It takes no memory.
    pub fn linked(&self, link: u32, first: &RowId, second: &RowId) -> bool
        ensures { result ≡ has_pair self.now link first.now second.now }
    {
        self.index.number_of(link, first, second).is_some()
    }

    /// The rows that the link joins to a row on its first side, or on its other side, in the order in which they were
    /// added.
    pub fn of(&self, link: u32, first: bool, id: &RowId) -> Result<Ids, AllocError>
        ensures { IfOk result (λ others. others ≡ others_of link first id.now self.now) }
    {
        match self.index.numbers(link, first, id) {
            Some(numbers) => sides_of(self.alloc, &self.index.pairs, numbers, !first),
            None => Ok(Ids::new(self.alloc)),
        }
    }

    /// Adds a pair at the end.
    ///
    /// # Errors
    /// `LinkExists` where the link joins these rows already, and `Memory` for want of memory, or of a number after 2^64
    /// additions. Both leave the pairs as they were.
    pub fn add(&mut self, link: u32, first: &RowId, second: &RowId) -> Result<(), LinkFault>
        ensures ok { OnOk result (self.new ≡ with_pair self.old link first.now second.now) }
        ensures new { OnOk result (has_pair self.old link first.now second.now ≡ false) }
        ensures exists { IfErr result (λ fault. fault ≡ LinkExists → has_pair self.old link first.now second.now ≡ true) }
        ensures refused { has_pair self.old link first.now second.now ≡ true → result ≡ Err LinkExists }
        ensures err { OnErr result (self.new ≡ self.old) }
    {
        if self.linked(link, first, second) {
            return Err(LinkFault::LinkExists);
        }
        self.index.put(self.alloc, link, first, second)?;
        Ok(())
    }

    /// Removes a pair. It takes no memory.
    ///
    /// # Errors
    /// `NoLink` where the link doesn't join these rows, which leaves the pairs as they were.
    pub fn remove(&mut self, link: u32, first: &RowId, second: &RowId) -> Result<(), NoLink>
        ensures ok { OnOk result (self.new ≡ without_pair self.old link first.now second.now) }
        ensures was { OnOk result (has_pair self.old link first.now second.now ≡ true) }
        ensures absent { OnErr result (has_pair self.old link first.now second.now ≡ false) }
        ensures err { OnErr result (self.new ≡ self.old) }
    {
        let Some(number) = self.index.number_of(link, first, second) else {
            return Err(NoLink);
        };
        self.index.drop_number(number);
        Ok(())
    }

    /// Removes the pairs of a link that have a row on its first side, or on its other side. It takes no memory.
    pub fn remove_row(&mut self, link: u32, first: bool, id: &RowId)
        ensures { self.new ≡ without_row link first id.now self.old }
    {
        self.index.drop_row(link, first, id);
    }

    /// Removes the pairs of a link, in one walk over all pairs. It takes no memory.
    pub fn remove_link(&mut self, link: u32)
        ensures { self.new ≡ without_link link self.old }
    {
        self.index.drop_link(link);
    }
}

impl Duplicate for Links {
    fn duplicate(&self, alloc: Global) -> Result<Links, AllocError> {
        Ok(Links {
            alloc,
            index: copy_of(alloc, &self.index.pairs)?,
        })
    }
}
