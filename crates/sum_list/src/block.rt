//! A block of items, with the sums of their lengths and their least number.
ghost use Rattle.std.specs.Prelude.{◌≡◌, ◌+◌, ◌*◌, ◌^◌, ◌<◌, ◌≤◌, [], ◌∷◌, ◌++◌, length, min, insert, remove, drop, slice_get, slice_set, slice_index_or, Some, IsSome, ◌==◌, IfOk, IfErr, OnOk, vec_capacity};
ghost use Rattle.sum_list.specs.Block.{Keeps, least, items_of};
ghost use Rattle.sum_list.specs.Counts.{counts};
ghost use Rattle.sum_list.specs.Places.{IsAt, Reaches};

use crate::At;
use crate::measured::{Measure, Measured};
use std::alloc::{AllocError, Global};
use std::marker::Model;
use std::mem;

/// The most items of a block.
const MOST: usize = 128;

/// Half of them.
pub(crate) const HALF: usize = 64;

/// The sums of the lengths of some items, and their least number.
#[derive(Clone, Copy)]
pub struct Measures {
    pub(crate) before: u64,
    pub(crate) after: u64,
    pub(crate) first: u64,
}

/// At least one item, and at most `MOST`, with their measures.
#[derive(Drop)]
pub struct Block<T: Measured> {
    items: Vec<T>,
    measures: Measures,
}

impl<T: Measured> Model for Block<T> {
    ghost use Rattle.std.specs.Prelude.{List};
    ghost use Rattle.sum_list.specs.Block.{IsBlock};

    ghost Value = { List T };

    ghost view = { λ b. b.items.items };

    ghost invariant = { λ b. IsBlock T.before T.after T.first b.items.items b.measures };
}

impl<T: Measured> Block<T> {
    /// A block of these items.
    fn of(items: Vec<T>) -> Block<T>
        requires some { 0 < length items.items }
        requires few { length items.items ≤ 128 }
        ensures { result ≡ items.items }
    {
        let measures = measure(items.as_slice());
        Block { items, measures }
    }

    /// A block of one item. Where there is no memory, the item comes back.
    pub(crate) fn of_one(alloc: Global, item: T) -> Result<Block<T>, T>
        ensures ok { IfOk result (λ b. b ≡ item ∷ []) }
        ensures err { IfErr result (λ x. x ≡ item) }
    {
        let mut items = Vec::new(alloc);
        match items.push(item) {
            Err(failed) => Err(failed.value),
            Ok(()) => Ok(Block::of(items)),
        }
    }

    /// How many items it has.
    pub(crate) fn len(&self) -> usize
        ensures len { result ≡ length self.now }
        ensures some { 0 < result }
        ensures few { result ≤ 128 }
    {
        self.items.len()
    }

    /// Whether one more item splits it.
    pub(crate) fn is_full(&self) -> bool
        ensures { result ≡ (length self.now == 128) }
    {
        self.items.len() == MOST
    }

    /// The measures of its items.
    pub(crate) fn measures(&self) -> Measures
        ensures { Keeps T.before T.after T.first self.now result }
    {
        self.measures
    }

    /// The item at a place.
    pub(crate) fn get(&self, place: usize) -> &T
        requires { place < length self.now }
        ensures { slice_get self.now place ≡ Some result.now }
    {
        &self.items[place]
    }

    /// The items from a place on.
    pub(crate) fn items_from(&self, place: usize) -> &[T]
        requires { place ≤ length self.now }
        ensures { result.now ≡ drop place self.now }
    {
        &self.items[place..]
    }

    /// The first place at which the sum is reached.
    pub(crate) fn find(&self, measure: Measure, sum: u64) -> At
        ensures at { IsAt T.before T.after self.now result }
        ensures reaches { Reaches (counts T.before T.after measure) sum self.now result.place }
        ensures few { result.place ≤ 128 }
        ensures low { (result.before ≤ 128 * 4294967295) × (result.after ≤ 128 * 4294967295) }
    {
        find_among(self.items.as_slice(), measure, sum)
    }

    /// The place of an item with the least number.
    pub(crate) fn least(&self) -> usize
        ensures within { result < length self.now }
        ensures least { (d : T) → T.first (slice_index_or self.now result d) ≡ least T.first self.now }
    {
        least_among(self.items.as_slice())
    }

    /// Puts an item at a place. The upper half of a block that was full comes out. Where there is no memory, the item
    /// comes back.
    pub(crate) fn insert(
        &mut self,
        alloc: Global,
        place: usize,
        item: T,
    ) -> Result<Option<Block<T>>, T>
        requires { place ≤ length self.old }
        ensures ok { IfOk result (λ upper. self.new ++ items_of upper ≡ insert self.old place item) }
        ensures full { IfOk result (λ upper. IsSome upper → length self.old ≡ 128) }
        ensures err { IfErr result (λ x. (x ≡ item) × (self.new ≡ self.old)) }
    {
        if self.is_full() {
            return match self.insert_in_full(alloc, place, item) {
                Err(item) => Err(item),
                Ok(upper) => Ok(Some(upper)),
            };
        }
        let measures = with_one(self.measures, &item);
        match self.items.insert(place, item) {
            Err(failed) => Err(failed.value),
            Ok(()) => {
                self.measures = measures;
                Ok(None)
            }
        }
    }

    fn insert_in_full(&mut self, alloc: Global, place: usize, item: T) -> Result<Block<T>, T>
        requires within { place ≤ length self.old }
        requires full { length self.old ≡ 128 }
        ensures ok { IfOk result (λ upper. self.new ++ upper ≡ insert self.old place item) }
        ensures err { IfErr result (λ x. (x ≡ item) × (self.new ≡ self.old)) }
    {
        let Ok(mut upper) = Vec::with_capacity(alloc, MOST) else {
            return Err(item);
        };
        split(&mut self.items, &mut upper);
        if place <= HALF {
            put_reserved(&mut self.items, place, item);
        } else {
            put_reserved(&mut upper, place - HALF, item);
        }
        self.measures = measure(self.items.as_slice());
        Ok(Block::of(upper))
    }

    /// Takes out the item at a place, where it isn't the only one.
    pub(crate) fn remove(&mut self, place: usize) -> T
        requires within { place < length self.old }
        requires more { 1 < length self.old }
        ensures value { slice_get self.old place ≡ Some result }
        ensures rest { self.new ≡ remove self.old place }
    {
        let item = self.items.remove(place);
        self.measures = measure(self.items.as_slice());
        item
    }

    /// Puts the items of the next block behind its own. Where there is no memory, that block comes back.
    pub(crate) fn append(&mut self, next: Block<T>) -> Result<(), Block<T>>
        requires { length self.old + length next ≤ 128 }
        ensures ok { OnOk result (self.new ≡ self.old ++ next) }
        ensures err { IfErr result (λ b. (b ≡ next) × (self.new ≡ self.old)) }
    {
        let Block {
            mut items,
            measures,
        } = next;
        match self.items.append(&mut items) {
            Err(_) => Err(Block { items, measures }),
            Ok(()) => {
                self.measures = measure(self.items.as_slice());
                Ok(())
            }
        }
    }

    /// The only item.
    pub(crate) fn into_only(self) -> T
        requires { length self ≡ 1 }
        ensures { self ≡ result ∷ [] }
    {
        let Block {
            mut items,
            measures: _,
        } = self;
        items.take_last()
    }

    /// Puts an item in the place of the one there, which it returns.
    pub(crate) fn replace(&mut self, place: usize, item: T) -> T
        requires { place < length self.old }
        ensures value { slice_get self.old place ≡ Some result }
        ensures rest { self.new ≡ slice_set self.old place item }
    {
        let old = mem::replace(&mut self.items[place], item);
        self.measures = measure(self.items.as_slice());
        old
    }
}

impl<T: Measured + Clone> Block<T> {
    /// An equal block.
    pub(crate) fn copy(&self, alloc: Global) -> Result<Block<T>, AllocError>
        requires { (x y : T) → T.is_clone x y → y ≡ x }
        ensures { IfOk result (λ copy. copy ≡ self.now) }
    {
        let items = Vec::from_clones(alloc, self.items.as_slice())?;
        Ok(Block {
            items,
            measures: self.measures,
        })
    }
}

/// The measures of some items.
fn measure<T: Measured>(items: &[T]) -> Measures
    requires { length items.now ≤ 256 }
    ensures { Keeps T.before T.after T.first items.now result }
{
    let mut measures = Measures {
        before: 0,
        after: 0,
        first: u64::MAX,
    };
    for item in items {
        measures = with_one(measures, item);
    }
    measures
}

fn with_one<T: Measured>(measures: Measures, item: &T) -> Measures
    requires before { measures.before < 2 ^ 48 }
    requires after { measures.after < 2 ^ 48 }
    ensures before { result.before ≡ measures.before + T.before item.now }
    ensures after { result.after ≡ measures.after + T.after item.now }
    ensures first { result.first ≡ min measures.first (T.first item.now) }
    ensures short { (T.before item.now < 2 ^ 32) × (T.after item.now < 2 ^ 32) }
{
    Measures {
        before: measures.before + u64::from(item.before()),
        after: measures.after + u64::from(item.after()),
        first: measures.first.min(item.first()),
    }
}

/// The extent of one item.
fn extent<T: Measured>(item: &T) -> At
    ensures extent { result ≡ record { place = 1; before = T.before item.now; after = T.after item.now } }
    ensures short { (result.before < 2 ^ 32) × (result.after < 2 ^ 32) }
{
    At {
        place: 1,
        before: u64::from(item.before()),
        after: u64::from(item.after()),
    }
}

fn find_among<T: Measured>(items: &[T], measure: Measure, sum: u64) -> At
    requires { length items.now ≤ 128 }
    ensures at { IsAt T.before T.after items.now result }
    ensures reaches { Reaches (counts T.before T.after measure) sum items.now result.place }
    ensures low { (result.before ≤ 128 * 4294967295) × (result.after ≤ 128 * 4294967295) }
{
    let mut at = At::start();
    for item in items {
        let end = at.behind(extent(item));
        if sum <= end.by(measure) {
            return at;
        }
        at = end;
    }
    at
}

fn least_among<T: Measured>(items: &[T]) -> usize
    requires { 0 < length items.now }
    ensures within { result < length items.now }
    ensures least { (d : T) → T.first (slice_index_or items.now result d) ≡ least T.first items.now }
{
    let mut place = 0;
    let mut first = u64::MAX;
    for (i, item) in items.iter().enumerate() {
        let number = item.first();
        if number <= first {
            place = i;
            first = number;
        }
    }
    place
}

/// Moves the items from the middle on to `upper`, which is empty and has room for them.
fn split<T>(items: &mut Vec<T>, upper: &mut Vec<T>)
    requires empty { upper.old.items ≡ [] }
    requires room { length items.old.items ≤ vec_capacity upper.old + 64 }
    ensures whole { items.new.items ++ upper.new.items ≡ items.old.items }
    ensures half { length items.new.items ≡ min 64 (length items.old.items) }
    ensures capacities { (vec_capacity items.old ≤ vec_capacity items.new) × (vec_capacity upper.old ≤ vec_capacity upper.new) }
{
    while items.len() > HALF {
        upper.push_reserved(items.take_last());
    }
    upper.reverse();
}

/// Puts an item at a place of a vector that has room for it.
fn put_reserved<T: Drop>(items: &mut Vec<T>, place: usize, item: T)
    requires within { place ≤ length items.old.items }
    requires room { length items.old.items < vec_capacity items.old }
    ensures { items.new.items ≡ insert items.old.items place item }
{
    match items.insert(place, item) {
        Ok(()) => {}
        Err(_) => unreachable!(),
    }
}
