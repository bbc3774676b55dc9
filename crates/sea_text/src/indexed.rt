// Lists whose items are found by name.
ghost use Rattle.std.specs.Prelude.{◌≡◌, ◌∷◌, ◌++◌, ℕ, List, [], Some, None, if◌then◌else◌, slice_get, slice_set, length, ◌<◌, string_bytes, map, filter, IfOk, OnOk, OnErr};
ghost use Rattle.std.specs.Option.{option_copied, option_or};
ghost use Rattle.std.specs.Str.{bytes_eq};
ghost use Rattle.std.specs.BTreeMap.{get_by_text};
ghost use Rattle.sea_text.specs.Named.{item_named, listed, has_another_name, is_named as is_named_of, if_item_named, IsPlaces};
ghost use Rattle.std.specs.List.{list_all};

use crate::duplicate::{Duplicate, copies_of};
use sqlite_items::Items;
use std::alloc::{AllocError, Global};
use std::collections::BTreeMap;
use std::marker::Model;

/// A thing with a name or an id that its like know it by.
pub trait Named {
    /// The name or id.
    ghost name: { Self → List ℕ };

    /// The name or id.
    fn name(&self) -> &str
        ensures { result.now ≡ name self.now };
}

/// A change of things of a kind.
pub trait ChangeOf<T> {
    /// What the change makes of a thing.
    ghost changed: { Self → T → T };

    /// The thing as the change makes it.
    fn made_of(&self, alloc: Global, item: &T) -> Result<T, AllocError>
        ensures { IfOk result (λ new. new ≡ changed self.now item.now) };
}

// Where the first thing of each name stands in a list.
type Places = BTreeMap<String, usize>;

/// Things in order, seen by contracts as their list. The first one of a name is found through an index.
#[derive(Drop)]
pub struct Indexed<T: Named> {
    items: Items<T>,
    places: Places,
}

impl<T: Named> Model for Indexed<T> {
    ghost use Rattle.std.specs.Prelude.{List};
    ghost use Rattle.std.specs.Coded.{coded_list};
    ghost use Rattle.std.specs.BTreeMap.{get_by_text};
    ghost use Rattle.sea_text.specs.Named.{IsPlaces};

    ghost Value = { List T };

    ghost coded = { coded_list T.code };

    ghost view = { λ it. it.items };

    ghost invariant = { λ it. IsPlaces T.name (get_by_text it.places) it.items };
}

impl<T: Named + Drop> Indexed<T> {
    /// No things.
    pub fn new(alloc: Global) -> Indexed<T>
        ensures { result ≡ [] }
    {
        Indexed {
            items: Items::new(alloc),
            places: BTreeMap::new(alloc),
        }
    }

    /// These things, in their order.
    pub fn of(alloc: Global, items: Items<T>) -> Result<Indexed<T>, AllocError>
        ensures { IfOk result (λ it. it ≡ items) }
    {
        let places = places_of(alloc, items.as_slice())?;
        Ok(Indexed { items, places })
    }

    /// The things in order.
    pub fn as_slice(&self) -> &[T]
        ensures { result.now ≡ self.now }
    {
        self.items.as_slice()
    }

    /// The first thing of a name, where there is one. It takes no memory.
    pub fn named(&self, name: &str) -> Option<&T>
        ensures { option_copied result ≡ item_named T.name self.now name.now }
    {
        found(self.items.as_slice(), &self.places, name)
    }

    /// Puts one thing more at the end. It takes some log n comparisons for n things.
    ///
    /// # Errors
    /// Want of memory, which leaves the things as they were. The same is true of each change below.
    pub fn push(&mut self, alloc: Global, item: T) -> Result<(), AllocError>
        ensures ok { OnOk result (self.new ≡ self.old ++ item ∷ []) }
        ensures err { OnErr result (self.new ≡ self.old) }
    {
        let name = String::from_str(alloc, item.name())?;
        let at = self.items.len();
        self.items.push(item)?;
        match add_place(&mut self.places, name, at) {
            Ok(()) => Ok(()),
            Err(error) => {
                self.items.pop();
                Err(error)
            }
        }
    }

    /// Takes out the things of a name. The others stay in their order. It takes some n log n comparisons for n things, and
    /// copies none of them.
    pub fn remove(&mut self, alloc: Global, name: &str) -> Result<(), AllocError>
        ensures ok { OnOk result (self.new ≡ filter (has_another_name T.name name.now) self.old) }
        ensures err { OnErr result (self.new ≡ self.old) }
    {
        let places = places_without(alloc, self.items.as_slice(), name)?;
        take_out(&mut self.items, name);
        self.places = places;
        Ok(())
    }
}

impl<T: Named + Duplicate + Drop> Indexed<T> {
    /// Copies of the things, as a list that can grow.
    pub fn copies(&self, alloc: Global) -> Result<Items<T>, AllocError>
        ensures { IfOk result (λ copies. copies ≡ self.now) }
    {
        Ok(Items::from_vec(copies_of(alloc, self.as_slice())?))
    }

    /// Changes the things of a name, each in its place. Where they keep the name, no other thing is copied, and the index
    /// stays as it is.
    pub fn change<C: ChangeOf<T>>(
        &mut self,
        alloc: Global,
        name: &str,
        change: &C,
    ) -> Result<(), AllocError>
        ensures ok { OnOk result (self.new ≡ map (if_item_named T.name name.now (C.changed change.now)) self.old) }
        ensures err { OnErr result (self.new ≡ self.old) }
    {
        let news = changes(alloc, self.items.as_slice(), name, change)?;
        if are_named(news.as_slice(), name) {
            put_changes(&mut self.items, name, news);
            return Ok(());
        }
        let mut changed = self.copies(alloc)?;
        put_changes(&mut changed, name, news);
        let places = places_of(alloc, changed.as_slice())?;
        self.items = changed;
        self.places = places;
        Ok(())
    }
}

impl<T: Named + Duplicate + Drop> Duplicate for Indexed<T> {
    fn duplicate(&self, alloc: Global) -> Result<Indexed<T>, AllocError> {
        Indexed::of(alloc, self.copies(alloc)?)
    }
}

/// The first thing of a name in a list that may not be there. It takes no memory.
pub fn named_in<'a, T: Named + Drop>(list: Option<&'a Indexed<T>>, name: &str) -> Option<&'a T>
    ensures { option_copied result ≡ item_named T.name (listed list.entry) name.now }
{
    match list {
        Some(list) => list.named(name),
        None => None,
    }
}

/// The things of a list that may not be there, in order.
pub fn items_in<'a, T: Named + Drop>(list: Option<&'a Indexed<T>>) -> &'a [T]
    ensures { result.now ≡ listed list.entry }
{
    match list {
        Some(list) => list.as_slice(),
        None => &[],
    }
}

// The places of some things. It goes from the last one to the first, so that the first one of a name stays.
fn places_of<T: Named>(alloc: Global, items: &[T]) -> Result<Places, AllocError>
    ensures { IfOk result (λ places. IsPlaces T.name (get_by_text places) items.now) }
{
    let mut places = BTreeMap::new(alloc);
    let mut at = items.len();
    while at > 0 {
        at -= 1;
        put_place(alloc, &mut places, items[at].name(), at)?;
    }
    Ok(places)
}

// Puts the place of a name, over the one that it has.
fn put_place(alloc: Global, places: &mut Places, name: &str, at: usize) -> Result<(), AllocError>
    ensures { OnOk result ((other : List ℕ) → get_by_text places.new other ≡ (if bytes_eq name.now other then Some at else get_by_text places.old other)) }
{
    places.insert(String::from_str(alloc, name)?, at)?;
    Ok(())
}

// Puts the place of a name that has none.
fn add_place(places: &mut Places, name: String, at: usize) -> Result<(), AllocError>
    ensures ok { OnOk result ((other : List ℕ) → get_by_text places.new other ≡ option_or (get_by_text places.old other) (if bytes_eq (string_bytes name) other then Some at else None)) }
    ensures err { OnErr result ((other : List ℕ) → get_by_text places.new other ≡ get_by_text places.old other) }
{
    if !places.contains_key(name.as_str()) {
        places.insert(name, at)?;
    }
    Ok(())
}

// The places that things have once those of a name are taken out.
fn places_without<T: Named>(alloc: Global, items: &[T], name: &str) -> Result<Places, AllocError>
    ensures { IfOk result (λ places. IsPlaces T.name (get_by_text places) (filter (has_another_name T.name name.now) items.now)) }
{
    let mut places = BTreeMap::new(alloc);
    let mut at = 0;
    for item in items {
        if item.name() != name {
            add_place(&mut places, String::from_str(alloc, item.name())?, at)?;
            at += 1;
        }
    }
    Ok(places)
}

// Takes out the things of a name, from the last one to the first.
fn take_out<T: Named + Drop>(items: &mut Items<T>, name: &str)
    ensures { items.new ≡ filter (has_another_name T.name name.now) items.old }
{
    let mut at = items.len();
    while at > 0 {
        at -= 1;
        if items.as_slice()[at].name() == name {
            items.remove(at);
        }
    }
}

// The thing has this name.
fn is_named<T: Named>(item: &T, name: &str) -> bool
    ensures { result ≡ is_named_of T.name name.now item.now }
{
    item.name() == name
}

// All of the things have this name.
fn are_named<T: Named>(items: &[T], name: &str) -> bool
    ensures { result ≡ list_all (is_named_of T.name name.now) items.now }
{
    items.iter().all(|item| is_named(item, name))
}

// What a change makes of the things of a name, in their order.
fn changes<T: Named + Drop, C: ChangeOf<T>>(
    alloc: Global,
    items: &[T],
    name: &str,
    change: &C,
) -> Result<Items<T>, AllocError>
    ensures { IfOk result (λ news. news ≡ map (C.changed change.now) (filter (is_named_of T.name name.now) items.now)) }
{
    let mut news = Items::new(alloc);
    for item in items {
        if is_named(item, name) {
            news.push(change.made_of(alloc, item)?)?;
        }
    }
    Ok(news)
}

// Puts what a change made of the things of a name into their places, from the last one to the first.
fn put_changes<T: Named + Drop>(items: &mut Items<T>, name: &str, news: Items<T>)
    ensures { (change : T → T) → news ≡ map change (filter (is_named_of T.name name.now) items.old) → items.new ≡ map (if_item_named T.name name.now change) items.old }
{
    let mut news = news;
    let mut at = items.len();
    while at > 0 {
        at -= 1;
        if is_named(&items.as_slice()[at], name) {
            put_last(items, at, &mut news);
        }
    }
}

// Puts the last one of some things into a place.
fn put_last<T: Drop>(items: &mut Items<T>, at: usize, news: &mut Items<T>)
    requires { at < length items.old }
    ensures length { length items.new ≡ length items.old }
    ensures put { (others : List T) (last : T) → news.old ≡ others ++ last ∷ [] → (news.new ≡ others) × (items.new ≡ slice_set items.old at last) }
{
    if let Some(last) = news.pop() {
        items.set(at, last);
    }
}

// The first thing of a name, by the places.
fn found<'a, T: Named>(items: &'a [T], places: &Places, name: &str) -> Option<&'a T>
    requires { IsPlaces T.name (get_by_text places.now) items.now }
    ensures { option_copied result ≡ item_named T.name items.now name.now }
{
    match place(places, name) {
        Some(at) => item_at(items, at),
        None => None,
    }
}

// The place of a name.
fn place(places: &Places, name: &str) -> Option<usize>
    ensures { result ≡ get_by_text places.now name.now }
{
    match places.get(name) {
        Some(at) => Some(*at),
        None => None,
    }
}

// The thing at a place.
fn item_at<T>(items: &[T], at: usize) -> Option<&T>
    ensures { option_copied result ≡ slice_get items.now at }
{
    items.get(at)
}
