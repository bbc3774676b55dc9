// The pairs under numbers, and an index of the numbers by row.
ghost use Rattle.std.specs.Prelude.{◌≡◌, [], slice_get, map, filter, true, false, IfOk, IfSome, IfNone, OnOk, OnErr};
ghost use Rattle.std.specs.List.{list_any};
ghost use Rattle.std.specs.Map.{values_of, remove_entry};
ghost use Rattle.std.specs.BTreeMap.{is_at, IsOrdered};
ghost use Rattle.std.specs.Option.{option_copied};
ghost use Rattle.std.specs.Ordering.{nat_cmp};
ghost use Rattle.sea_links.specs.Pairs.{is_pair as is_pair_of, has_pair, side as side_of, with_pair, without_row, without_link, is_of_other_link};
ghost use Rattle.sea_links.specs.Index.{keys_in, numbers_of, pair_at, pairs_at, passes};
ghost use Rattle.sea_links.specs.Indexed.{IsIndexed};

use crate::pair::{LinkPair, is_pair, side};
use crate::row_numbers::{Numbers, RowNumbers, add_number, numbers, take_number};
use sea_cell::{Duplicate, Ids, RowId};
use std::alloc::{AllocError, Global};
use std::collections::BTreeMap;

// Pairs by their numbers.
type Numbered = BTreeMap<u64, LinkPair>;

// Pairs under numbers that rise as the pairs are added, so that the order of the numbers is that of the additions, and
// the numbers of the pairs of each row, on both sides of each link. The number of a removed pair isn't used again; a copy
// is numbered from 0.
#[derive(Drop)]
pub(crate) struct PairIndex {
    // The number of the next pair.
    pub(crate) next: u64,
    pub(crate) pairs: Numbered,
    // By the row on the first side.
    pub(crate) firsts: RowNumbers,
    // By the row on the other side.
    pub(crate) seconds: RowNumbers,
}

impl PairIndex {
    // No pairs.
    pub(crate) fn new(alloc: Global) -> PairIndex
        ensures indexed { IsIndexed result }
        ensures empty { values_of result.pairs.entries ≡ [] }
    {
        PairIndex {
            next: 0,
            pairs: BTreeMap::new(alloc),
            firsts: BTreeMap::new(alloc),
            seconds: BTreeMap::new(alloc),
        }
    }

    // Puts a pair at the end. It goes into the index of both sides first, since the number can be taken out of them
    // again without memory.
    pub(crate) fn put(
        &mut self,
        alloc: Global,
        link: u32,
        first: &RowId,
        second: &RowId,
    ) -> Result<(), AllocError>
        requires { IsIndexed self.old }
        ensures indexed { IsIndexed self.new }
        ensures ok { OnOk result (values_of self.new.pairs.entries ≡ with_pair (values_of self.old.pairs.entries) link first.now second.now) }
        ensures err { OnErr result (values_of self.new.pairs.entries ≡ values_of self.old.pairs.entries) }
    {
        let number = self.next;
        // The numbers run out after 2^64 additions, which no base comes near. The want of one is told as want of memory,
        // since nothing else is left to tell, and a copy starts anew.
        let Some(next) = number.checked_add(1) else {
            return Err(AllocError);
        };
        let pair = LinkPair {
            link,
            first: first.duplicate(alloc)?,
            second: second.duplicate(alloc)?,
        };
        add_number(alloc, &mut self.firsts, link, first, number)?;
        let Ok(()) = add_number(alloc, &mut self.seconds, link, second, number) else {
            take_number(&mut self.firsts, link, first, number);
            return Err(AllocError);
        };
        let Ok(_) = self.pairs.insert(number, pair) else {
            take_number(&mut self.firsts, link, first, number);
            take_number(&mut self.seconds, link, second, number);
            return Err(AllocError);
        };
        self.next = next;
        Ok(())
    }

    // Drops the pair of a number. It takes no memory.
    pub(crate) fn drop_number(&mut self, number: u64)
        requires { IsIndexed self.old }
        ensures indexed { IsIndexed self.new }
        ensures entries { self.new.pairs.entries ≡ remove_entry (is_at (nat_cmp number)) self.old.pairs.entries }
    {
        let Some(pair) = self.pairs.remove(&number) else {
            return;
        };
        take_number(&mut self.firsts, pair.link, &pair.first, number);
        take_number(&mut self.seconds, pair.link, &pair.second, number);
    }

    // Drops the pairs of a link that have a row on this side. It takes no memory.
    pub(crate) fn drop_row(&mut self, link: u32, first: bool, id: &RowId)
        requires { IsIndexed self.old }
        ensures indexed { IsIndexed self.new }
        ensures left { values_of self.new.pairs.entries ≡ without_row link first id.now (values_of self.old.pairs.entries) }
    {
        while let Some(number) = self.first_of(link, first, id) {
            self.drop_number(number);
        }
    }

    // Drops the pairs of a link. It takes no memory.
    pub(crate) fn drop_link(&mut self, link: u32)
        requires { IsIndexed self.old }
        ensures indexed { IsIndexed self.new }
        ensures left { values_of self.new.pairs.entries ≡ without_link link (values_of self.old.pairs.entries) }
    {
        keep_other_links(&mut self.pairs, link);
        self.firsts.remove(&link);
        self.seconds.remove(&link);
    }

    // The numbers of the pairs of a link that have a row on this side.
    pub(crate) fn numbers(&self, link: u32, first: bool, id: &RowId) -> Option<&Numbers>
        requires { IsIndexed self.now }
        ensures { keys_in (option_copied result) ≡ numbers_of link first id.now self.now.pairs.entries }
    {
        if first {
            return numbers(&self.firsts, link, id);
        }
        numbers(&self.seconds, link, id)
    }

    // The number of the first pair of a link that has a row on this side.
    fn first_of(&self, link: u32, first: bool, id: &RowId) -> Option<u64>
        requires { IsIndexed self.now }
        ensures { result ≡ slice_get (numbers_of link first id.now self.now.pairs.entries) 0 }
    {
        match self.numbers(link, first, id) {
            Some(numbers) => first_number(numbers),
            None => None,
        }
    }

    // The number of the pair of these rows. It goes over the pairs of the row that has fewer of them.
    pub(crate) fn number_of(&self, link: u32, first: &RowId, second: &RowId) -> Option<u64>
        requires { IsIndexed self.now }
        ensures none { IfNone result (has_pair (values_of self.now.pairs.entries) link first.now second.now ≡ false) }
        ensures some { IfSome result (λ number. passes (is_pair_of link first.now second.now) (pair_at self.now.pairs.entries number) ≡ true) }
    {
        let Some(of_first) = self.numbers(link, true, first) else {
            return None;
        };
        let Some(of_second) = self.numbers(link, false, second) else {
            return None;
        };
        if of_first.len() <= of_second.len() {
            return found(&self.pairs, of_first, link, first, second);
        }
        found(&self.pairs, of_second, link, first, second)
    }
}

// Keeps the pairs of other links.
fn keep_other_links(pairs: &mut Numbered, link: u32)
    ensures ordered { IsOrdered nat_cmp pairs.new }
    ensures kept { pairs.new.entries ≡ filter (λ pair. is_of_other_link link pair.1) pairs.old.entries }
{
    pairs.retain(|_, pair| pair.link != link);
}

// The first one of some numbers.
fn first_number(numbers: &Numbers) -> Option<u64>
    ensures { result ≡ slice_get numbers.now.keys 0 }
{
    match numbers.first() {
        Some(number) => Some(*number),
        None => None,
    }
}

// The number of the pair of these rows, where it is among these numbers.
fn found(
    pairs: &Numbered,
    numbers: &Numbers,
    link: u32,
    first: &RowId,
    second: &RowId,
) -> Option<u64>
    ensures none { IfNone result (list_any (is_pair_of link first.now second.now) (pairs_at pairs.now.entries numbers.now.keys) ≡ false) }
    ensures some { IfSome result (λ number. passes (is_pair_of link first.now second.now) (pair_at pairs.now.entries number) ≡ true) }
{
    for number in numbers {
        if is_pair_at(pairs, *number, link, first, second) {
            return Some(*number);
        }
    }
    None
}

// The pair of a number is of this link and joins these rows.
fn is_pair_at(pairs: &Numbered, number: u64, link: u32, first: &RowId, second: &RowId) -> bool
    ensures { result ≡ passes (is_pair_of link first.now second.now) (pair_at pairs.now.entries number) }
{
    match pairs.get(&number) {
        Some(pair) => is_pair(link, first, second, pair),
        None => false,
    }
}

// The rows on a side of the pairs of these numbers.
pub(crate) fn sides_of(
    alloc: Global,
    pairs: &Numbered,
    numbers: &Numbers,
    first: bool,
) -> Result<Ids, AllocError>
    ensures { IfOk result (λ ids. ids ≡ map (side_of first) (pairs_at pairs.now.entries numbers.now.keys)) }
{
    let mut ids = Ids::new(alloc);
    for number in numbers {
        if let Some(pair) = pairs.get(number) {
            ids.push(side(first, pair).duplicate(alloc)?)?;
        }
    }
    Ok(ids)
}

// A copy of some pairs, in their order, numbered from 0.
pub(crate) fn copy_of(alloc: Global, pairs: &Numbered) -> Result<PairIndex, AllocError>
    ensures indexed { IfOk result (λ copy. IsIndexed copy) }
    ensures same { IfOk result (λ copy. values_of copy.pairs.entries ≡ values_of pairs.now.entries) }
{
    let mut copy = PairIndex::new(alloc);
    for pair in pairs.values() {
        copy.put(alloc, pair.link, &pair.first, &pair.second)?;
    }
    Ok(copy)
}

// All pairs, in their order.
pub(crate) fn pairs_of(alloc: Global, pairs: &Numbered) -> Result<Vec<LinkPair>, AllocError>
    ensures { IfOk result (λ list. list.items ≡ values_of pairs.now.entries) }
{
    let mut list = Vec::with_capacity(alloc, pairs.len())?;
    for pair in pairs.values() {
        list.push(pair.duplicate(alloc)?)?;
    }
    Ok(list)
}
