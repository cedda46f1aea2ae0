//! `SumList<T>`: a list of items with two lengths and a number each, in which an item is found by the sums of the lengths of
//! those in front of it, or by its number where that is the least. It lies in blocks, so that a call takes about the square
//! root of its length.
#![tactic(auto)]

ghost use Rattle.std.specs.Prelude.{◌≡◌, ◌+◌, ◌<◌, ◌≤◌, ◌==◌, ◌^◌, [], ◌∷◌, ◌++◌, length, min, drop, insert, remove, slice_get, slice_set, Some, option_copied, IfOk, IfErr, OnOk, MatchOption};
ghost use Rattle.sum_list.specs.Places.{IsAt, Reaches, IsLeast};

mod at;
mod block;
mod blocks;
mod measured;

pub use at::At;
use block::Block;
use blocks::Seat;
use measured::Measure;
pub use measured::Measured;
use std::alloc::{AllocError, Global};
use std::marker::Model;

/// The most items of a list, with which the sums of their lengths fit 64 bits.
const MOST_ITEMS: usize = 0xffff_ffff;

/// There was no memory. The item comes back, and the list is as it was.
#[derive(Debug, Drop)]
pub struct NoMemory<T>(pub T);

/// A list of items with lengths and numbers.
#[derive(Drop)]
pub struct SumList<T: Measured> {
    blocks: Vec<Block<T>>,
    len: usize,
    alloc: Global,
}

impl<T: Measured> Model for SumList<T> {
    ghost use Rattle.std.specs.Prelude.{◌≡◌, ◌+◌, ◌<◌, ◌^◌, List, length};
    ghost use Rattle.sum_list.specs.Blocks.{joined};

    ghost Value = { List T };

    ghost view = { λ s. joined s.blocks.items };

    ghost invariant = { λ s. (s.len ≡ length (joined s.blocks.items)) × (s.len < 2 ^ 32) };
}

impl<T: Measured> SumList<T> {
    /// The empty list. It takes no memory yet, and later takes it from `alloc`.
    pub fn new(alloc: Global) -> SumList<T>
        ensures { result ≡ [] }
    {
        SumList {
            blocks: Vec::new(alloc),
            len: 0,
            alloc,
        }
    }

    /// How many items there are.
    pub fn len(&self) -> usize
        ensures len { result ≡ length self.now }
        ensures few { result < 2 ^ 32 }
    {
        self.len
    }

    /// Whether there are none.
    pub fn is_empty(&self) -> bool
        ensures { result ≡ (length self.now == 0) }
    {
        self.len == 0
    }

    /// The item at `place`, counted from 0: `None` exactly where `place` is not below the length.
    pub fn get(&self, place: usize) -> Option<&T>
        ensures { option_copied result ≡ slice_get self.now place }
    {
        if place >= self.len {
            return None;
        }
        let Seat { block, within } = blocks::seat_of(self.blocks.as_slice(), place);
        let block = &self.blocks[block];
        Some(block.get(within))
    }

    /// The items from `place` to the end of its block: at least one.
    pub fn run_from(&self, place: usize) -> &[T]
        requires { place < length self.now }
        ensures items { drop place self.now ≡ result.now ++ drop (place + length result.now) self.now }
        ensures some { 0 < length result.now }
    {
        let Seat { block, within } = blocks::seat_of(self.blocks.as_slice(), place);
        let block = &self.blocks[block];
        block.items_from(within)
    }

    /// The sums of the lengths of the items in front of `place`, or of all of them where it is behind the list.
    pub fn sums_to(&self, place: usize) -> At
        ensures place { result.place ≡ min place (length self.now) }
        ensures sums { IsAt T.before T.after self.now result }
    {
        let place = place.min(self.len);
        blocks::find(self.blocks.as_slice(), Measure::Places, place as u64 + 1)
    }

    /// The first place at which the lengths before of the items up to it and with it are at least `sum` together, and the
    /// sums of those in front of it. Where there is none, it is the place behind the list.
    pub fn find_before(&self, sum: u64) -> At
        ensures sums { IsAt T.before T.after self.now result }
        ensures first { Reaches T.before sum self.now result.place }
    {
        blocks::find(self.blocks.as_slice(), Measure::Before, sum)
    }

    /// The same by the lengths after.
    pub fn find_after(&self, sum: u64) -> At
        ensures sums { IsAt T.before T.after self.now result }
        ensures first { Reaches T.after sum self.now result.place }
    {
        blocks::find(self.blocks.as_slice(), Measure::After, sum)
    }

    /// The place of an item with the least number: `None` exactly where there is no item.
    pub fn least(&self) -> Option<usize>
        ensures { MatchOption result (length self.now ≡ 0) (IsLeast T.first self.now) }
    {
        blocks::least(self.blocks.as_slice())
    }

    /// Puts `item` before the one at `place`, or at the end where `place` is the length.
    pub fn insert(&mut self, place: usize, item: T) -> Result<(), NoMemory<T>>
        requires { place ≤ length self.old }
        ensures ok { OnOk result (self.new ≡ insert self.old place item) }
        ensures no_memory { IfErr result (λ e. (e.0 ≡ item) × (self.new ≡ self.old)) }
    {
        if self.len >= MOST_ITEMS {
            return Err(NoMemory(item));
        }
        match blocks::put(&mut self.blocks, self.alloc, place, item) {
            Err(item) => Err(NoMemory(item)),
            Ok(()) => {
                self.len += 1;
                Ok(())
            }
        }
    }

    /// Puts `item` at the end.
    pub fn push(&mut self, item: T) -> Result<(), NoMemory<T>>
        ensures ok { OnOk result (self.new ≡ self.old ++ item ∷ []) }
        ensures no_memory { IfErr result (λ e. (e.0 ≡ item) × (self.new ≡ self.old)) }
    {
        self.insert(self.len, item)
    }

    /// Takes out the item at `place`.
    pub fn remove(&mut self, place: usize) -> T
        requires { place < length self.old }
        ensures value { slice_get self.old place ≡ Some result }
        ensures list { self.new ≡ remove self.old place }
    {
        let item = blocks::take_out(&mut self.blocks, place);
        self.len -= 1;
        item
    }

    /// Puts `item` in the place of the one at `place`, which it returns. It takes no memory.
    pub fn replace(&mut self, place: usize, item: T) -> T
        requires { place < length self.old }
        ensures value { slice_get self.old place ≡ Some result }
        ensures list { self.new ≡ slice_set self.old place item }
    {
        blocks::replace(&mut self.blocks, place, item)
    }
}

impl<T: Measured + Clone> SumList<T> {
    /// An equal list, of items whose clones are equal.
    pub fn copy(&self) -> Result<SumList<T>, AllocError>
        requires { (x y : T) → T.is_clone x y → y ≡ x }
        ensures { IfOk result (λ copy. copy ≡ self.now) }
    {
        let blocks = blocks::copy(self.alloc, self.blocks.as_slice())?;
        Ok(SumList {
            blocks,
            len: self.len,
            alloc: self.alloc,
        })
    }
}
