//! A list in blocks.
ghost use Rattle.std.specs.Prelude.{◌≡◌, ◌*◌, ◌^◌, ◌<◌, ◌≤◌, length, sum_by, insert, remove, slice_get, slice_set, Some, IsTrue, vec_capacity, List, [], ◌∷◌, IfOk, IfErr, OnOk, MatchOption};
ghost use Rattle.sum_list.specs.Blocks.{joined, IsSeat};
ghost use Rattle.sum_list.specs.Counts.{counts};
ghost use Rattle.sum_list.specs.Places.{IsAt, Reaches, IsLeast};

use crate::At;
use crate::block::{Block, HALF};
use crate::measured::{Measure, Measured};
use std::alloc::{AllocError, Global};

/// Where a place lies: in which block, and where in it.
#[derive(Clone, Copy)]
pub struct Seat {
    pub(crate) block: usize,
    pub(crate) within: usize,
}

/// Where a place lies. That behind the last item lies behind the last block.
pub(crate) fn seat_of<T: Measured>(blocks: &[Block<T>], place: usize) -> Seat
    requires some { 0 < length blocks.now }
    requires within { place ≤ length (joined blocks.now) }
    ensures { IsSeat blocks.now place result }
{
    let mut within = place;
    for (i, block) in blocks.iter().enumerate() {
        let len = block.len();
        if within < len || i + 1 == blocks.len() {
            return Seat { block: i, within };
        }
        within -= len;
    }
    unreachable!()
}

/// The extent of a block.
fn extent<T: Measured>(block: &Block<T>) -> At
    ensures place { result.place ≡ length block.now }
    ensures before { result.before ≡ sum_by T.before block.now }
    ensures after { result.after ≡ sum_by T.after block.now }
    ensures some { 0 < result.place }
    ensures low { (result.before ≤ result.place * 4294967295) × (result.after ≤ result.place * 4294967295) }
{
    let measures = block.measures();
    At {
        place: block.len(),
        before: measures.before,
        after: measures.after,
    }
}

/// The first place at which the sum is reached.
pub(crate) fn find<T: Measured>(blocks: &[Block<T>], measure: Measure, sum: u64) -> At
    requires { length (joined blocks.now) < 2 ^ 32 }
    ensures at { IsAt T.before T.after (joined blocks.now) result }
    ensures reaches { Reaches (counts T.before T.after measure) sum (joined blocks.now) result.place }
{
    let mut at = At::start();
    for block in blocks {
        let end = at.behind(extent(block));
        if sum <= end.by(measure) {
            return at.behind(block.find(measure, sum.saturating_sub(at.by(measure))));
        }
        at = end;
    }
    at
}

/// The place of an item with the least number.
pub(crate) fn least<T: Measured>(blocks: &[Block<T>]) -> Option<usize>
    requires { length (joined blocks.now) < 2 ^ 32 }
    ensures { MatchOption result (length (joined blocks.now) ≡ 0) (IsLeast T.first (joined blocks.now)) }
{
    if blocks.is_empty() {
        return None;
    }
    let mut front = 0;
    let mut seat = Seat {
        block: 0,
        within: 0,
    };
    let mut first = u64::MAX;
    for (i, block) in blocks.iter().enumerate() {
        let number = block.measures().first;
        if number <= first {
            seat = Seat {
                block: i,
                within: front,
            };
            first = number;
        }
        front += block.len();
    }
    let block = &blocks[seat.block];
    Some(seat.within + block.least())
}

/// Puts an item at a place. Where there is no memory, the item comes back.
pub(crate) fn put<T: Measured>(
    blocks: &mut Vec<Block<T>>,
    alloc: Global,
    place: usize,
    item: T,
) -> Result<(), T>
    requires { place ≤ length (joined blocks.old.items) }
    ensures ok { OnOk result (joined blocks.new.items ≡ insert (joined blocks.old.items) place item) }
    ensures err { IfErr result (λ x. (x ≡ item) × (joined blocks.new.items ≡ joined blocks.old.items)) }
{
    if blocks.is_empty() {
        return put_first(blocks, alloc, item);
    }
    let Seat { block, within } = seat_of(blocks.as_slice(), place);
    if !makes_room(blocks, block) {
        return Err(item);
    }
    let lower = &mut blocks[block];
    match lower.insert(alloc, within, item) {
        Err(item) => Err(item),
        Ok(None) => Ok(()),
        Ok(Some(upper)) => match blocks.insert(block + 1, upper) {
            Err(_) => unreachable!(),
            Ok(()) => Ok(()),
        },
    }
}

/// Puts an item into an empty list. Most lists stay so short that they need no second block.
fn put_first<T: Measured>(blocks: &mut Vec<Block<T>>, alloc: Global, item: T) -> Result<(), T>
    requires { blocks.old.items ≡ [] }
    ensures ok { OnOk result (joined blocks.new.items ≡ item ∷ []) }
    ensures err { IfErr result (λ x. (x ≡ item) × (blocks.new.items ≡ [])) }
{
    if blocks.reserve_exact(1).is_err() {
        return Err(item);
    }
    match Block::of_one(alloc, item) {
        Err(item) => Err(item),
        Ok(block) => {
            blocks.push_reserved(block);
            Ok(())
        }
    }
}

/// Makes room for the upper half of a block that is full. Whether there is memory.
fn makes_room<T: Measured>(blocks: &mut Vec<Block<T>>, block: usize) -> bool
    requires { block < length blocks.old.items }
    ensures items { blocks.new.items ≡ blocks.old.items }
    ensures room { (one : List T) → IsTrue result → slice_get blocks.old.items block ≡ Some one → length one ≡ 128 → length blocks.old.items < vec_capacity blocks.new }
{
    let one = &blocks[block];
    !one.is_full() || blocks.reserve(1).is_ok()
}

/// Takes out the item at a place.
pub(crate) fn take_out<T: Measured>(blocks: &mut Vec<Block<T>>, place: usize) -> T
    requires { place < length (joined blocks.old.items) }
    ensures value { slice_get (joined blocks.old.items) place ≡ Some result }
    ensures rest { joined blocks.new.items ≡ remove (joined blocks.old.items) place }
{
    let Seat { block, within } = seat_of(blocks.as_slice(), place);
    let one = &blocks[block];
    if one.len() == 1 {
        let only = blocks.remove(block).into_only();
        merge_around(blocks, block);
        return only;
    }
    let one = &mut blocks[block];
    let item = one.remove(within);
    merge_around(blocks, block);
    item
}

/// Joins a block with its neighbours, where they are small.
fn merge_around<T: Measured>(blocks: &mut Vec<Block<T>>, block: usize)
    ensures { joined blocks.new.items ≡ joined blocks.old.items }
{
    merge(blocks, block);
    merge(blocks, block.saturating_sub(1));
}

/// Joins a block with the next one, where both are small and there is memory.
fn merge<T: Measured>(blocks: &mut Vec<Block<T>>, block: usize)
    ensures { joined blocks.new.items ≡ joined blocks.old.items }
{
    if blocks.len() < 2 || block > blocks.len() - 2 {
        return;
    }
    let (one, next) = (&blocks[block], &blocks[block + 1]);
    if one.len() + next.len() > HALF {
        return;
    }
    let next = blocks.remove(block + 1);
    let one = &mut blocks[block];
    match one.append(next) {
        Ok(()) => {}
        Err(next) => match blocks.insert(block + 1, next) {
            Ok(()) => {}
            Err(_) => unreachable!(),
        },
    }
}

/// Puts an item in the place of the one there, which it returns.
pub(crate) fn replace<T: Measured>(blocks: &mut Vec<Block<T>>, place: usize, item: T) -> T
    requires { place < length (joined blocks.old.items) }
    ensures value { slice_get (joined blocks.old.items) place ≡ Some result }
    ensures rest { joined blocks.new.items ≡ slice_set (joined blocks.old.items) place item }
{
    let Seat { block, within } = seat_of(blocks.as_slice(), place);
    let one = &mut blocks[block];
    one.replace(within, item)
}

/// Equal blocks.
pub(crate) fn copy<T: Measured + Clone>(
    alloc: Global,
    blocks: &[Block<T>],
) -> Result<Vec<Block<T>>, AllocError>
    requires { (x y : T) → T.is_clone x y → y ≡ x }
    ensures { IfOk result (λ copy. copy.items ≡ blocks.now) }
{
    let mut copy = Vec::with_capacity(alloc, blocks.len())?;
    for block in blocks {
        copy.push_reserved(block.copy(alloc)?);
    }
    Ok(copy)
}
