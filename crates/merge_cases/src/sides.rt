use crate::answer::{Answer, Crossed};
use crate::failure::Failure;
use crate::fields::{copies, let_go};
use std::alloc::Global;
use sync_base::{Changeset, Ident, Instr};
use sync_index::Index;
use sync_transform::{
    CrossMismatch, cross, cross_indexed, cross_sets, cross_sets_indexed, meet, stays_apart,
};

/// The longest list that crosses.
const LONGEST: usize = 65_536;

/// A changeset's milliseconds, and the number of its client.
type Stamp = (u64, Ident);

/// Two lists that cross.
#[derive(Drop)]
pub struct Sides {
    pub alloc: Global,
    pub left: Vec<Instr>,
    pub right: Vec<Instr>,
}

impl Sides {
    /// The sides turned.
    pub fn turned(self) -> Sides {
        Sides {
            alloc: self.alloc,
            left: self.right,
            right: self.left,
        }
    }

    /// Whether each way of crossing gives the answer where the left side is the later, or the earlier.
    pub fn cross_so(&self, left_later: bool, answer: &Answer) -> Result<bool, Failure> {
        let alone = self.meet_so(left_later, answer)?;
        let plain = answer.is_of(&self.crossed(left_later)?);
        let indexed = answer.is_of(&self.crossed_by_index(left_later)?);
        let sets = match left_later {
            true => self.sets_so((9, 1), (8, 2), answer)? & self.sets_so((9, 3), (9, 2), answer)?,
            false => self.sets_so((8, 3), (9, 2), answer)? & self.sets_so((9, 1), (9, 2), answer)?,
        };
        Ok(alone & plain & indexed & sets)
    }

    /// Two lists of one instruction each meet as these do.
    fn meet_so(&self, left_later: bool, answer: &Answer) -> Result<bool, Failure> {
        match (self.left.as_slice(), self.right.as_slice()) {
            ([left], [right]) => pair_meets_so(left, right, left_later, answer),
            _ => Ok(true),
        }
    }

    fn crossed(&self, left_later: bool) -> Result<Crossed, Failure> {
        let left = copies(self.alloc, self.left.as_slice())?;
        let right = copies(self.alloc, self.right.as_slice())?;
        if left.len() > LONGEST || right.len() > LONGEST {
            return Err(Failure::Line);
        }
        Ok(cross(left, right, left_later))
    }

    fn crossed_by_index(&self, left_later: bool) -> Result<Crossed, Failure> {
        let left = copies(self.alloc, self.left.as_slice())?;
        let right = copies(self.alloc, self.right.as_slice())?;
        let index = Index::of(self.alloc, right.as_slice())?;
        if left.len() > LONGEST || right.len() > LONGEST {
            return Err(Failure::Line);
        }
        Ok(cross_indexed(left, right, &index, left_later))
    }

    /// Whether changesets with these stamps give the answer, with an index and without, and what is said to stay apart
    /// does.
    fn sets_so(&self, left: Stamp, right: Stamp, answer: &Answer) -> Result<bool, Failure> {
        let plain = self.sets_crossed(left, right)?;
        let indexed = self.sets_crossed_by_index(left, right)?;
        Ok(is_of_sets(answer, &plain, left, right) & is_of_sets(answer, &indexed, left, right))
    }

    fn sets_crossed(&self, left: Stamp, right: Stamp) -> Result<CrossedSets, Failure> {
        let one = changes(self.alloc, left.0, self.left.as_slice())?;
        let other = changes(self.alloc, right.0, self.right.as_slice())?;
        if left.1 == right.1 {
            return Err(Failure::Line);
        }
        Ok(cross_sets(one, left.1, other, right.1))
    }

    fn sets_crossed_by_index(&self, left: Stamp, right: Stamp) -> Result<CrossedSets, Failure> {
        let one = changes(self.alloc, left.0, self.left.as_slice())?;
        let other = changes(self.alloc, right.0, self.right.as_slice())?;
        let index = Index::of(self.alloc, other.instrs())?;
        if left.1 == right.1 {
            return Err(Failure::Line);
        }
        if stays_apart(None, &one, &index) {
            return Ok(Ok((one, other)));
        }
        Ok(cross_sets_indexed(one, left.1, other, right.1, &index))
    }
}

fn pair_meets_so(
    left: &Instr,
    right: &Instr,
    left_later: bool,
    answer: &Answer,
) -> Result<bool, Failure> {
    let left = left.copy()?;
    let Ok(right) = right.copy() else {
        let_go(left);
        return Err(Failure::Memory);
    };
    let met = meet(left, right, left_later);
    let is_so = answer.is_of_pair(&met);
    let_go(met);
    Ok(is_so)
}

type CrossedSets = Result<(Changeset, Changeset), CrossMismatch>;

fn changes(alloc: Global, ms: u64, instrs: &[Instr]) -> Result<Changeset, Failure> {
    Ok(Changeset::checked(ms, copies(alloc, instrs)?)?)
}

/// Whether changesets of these stamps crossed so, and kept their times.
fn is_of_sets(answer: &Answer, crossed: &CrossedSets, left: Stamp, right: Stamp) -> bool {
    match crossed {
        Ok((one, other)) => {
            let times = (one.ms() == left.0) & (other.ms() == right.0);
            times & answer.is_rest(one.instrs(), other.instrs())
        }
        Err(stuck) => answer.is_stuck(stuck),
    }
}
