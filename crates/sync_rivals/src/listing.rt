ghost use Rattle.std.specs.Prelude.{◌≡◌, ◌≤◌, true, false, ℕ, OnOk, IfSome};
ghost use Rattle.std.specs.FinSet as set;
ghost use Rattle.std.specs.BTreeSet as tree;
ghost use Rattle.std.specs.Option.{option_copied};
ghost use Rattle.std.specs.List.{All};
ghost use Rattle.sync_rivals.specs.Marks.{mark, mark_cmp, is_marked, IsLeast, IsReached, Reaches, IsListed, AreMarked, AreUnmarked, AreGone, KeepsAll, KeepsOthers, AddsNone};

use super::codes::codes_of;
use super::mark::Mark;
use std::alloc::Global;
use std::collections::BTreeSet;
use std::marker::Model;
use std::ops::Bound;
use sync_base::{Instr, NoMemory};

/// Which numbers are listed under which places: marks of a place's code and a number.
#[derive(Drop)]
pub(crate) struct Listing {
    marks: BTreeSet<Mark>,
}

impl Model for Listing {
    ghost use Rattle.std.specs.FinSet as set;
    ghost use Rattle.sync_rivals.specs.Marks.{Marks, coded_marks};

    ghost Value = { Marks };

    ghost coded = { coded_marks };

    ghost view = { λ a. set.from_list a.marks.keys };
}

impl Listing {
    /// Nothing is listed. It takes no memory.
    pub(crate) fn new(alloc: Global) -> Listing
        ensures { result ≡ set.empty }
    {
        Listing {
            marks: BTreeSet::new(alloc),
        }
    }

    /// Lists a number by instructions. What was listed stays so, in any case.
    pub(crate) fn list(&mut self, number: u64, instrs: &[Instr]) -> Result<(), NoMemory>
        ensures listed { OnOk result (IsListed self.new number instrs.now) }
        ensures kept { KeepsAll self.old self.new }
    {
        for instr in instrs {
            self.put_all(codes_of(instr).listed, number)?;
        }
        Ok(())
    }

    /// Takes a number out of all places of these instructions. Others stay as they are listed. It takes no memory.
    pub(crate) fn unlist(&mut self, number: u64, instrs: &[Instr])
        ensures others { KeepsOthers number self.old self.new }
        ensures gone { AreGone self.new number instrs.now }
    {
        for instr in instrs {
            self.remove_all(codes_of(instr).listed, number);
        }
    }

    fn put_all(&mut self, codes: [u64; 3], number: u64) -> Result<(), NoMemory>
        ensures marked { OnOk result (AreMarked self.new number codes) }
        ensures kept { KeepsAll self.old self.new }
    {
        let [first, second, third] = codes;
        self.put(first, number)?;
        self.put(second, number)?;
        self.put(third, number)
    }

    fn put(&mut self, code: u64, number: u64) -> Result<(), NoMemory>
        ensures marked { OnOk result (is_marked self.new code number ≡ true) }
        ensures kept { KeepsAll self.old self.new }
    {
        if self.marks.insert(Mark { code, number }).is_err() {
            return Err(NoMemory);
        }
        Ok(())
    }

    fn remove_all(&mut self, codes: [u64; 3], number: u64)
        ensures others { KeepsOthers number self.old self.new }
        ensures none { AddsNone self.old self.new }
        ensures gone { AreUnmarked self.new number codes }
    {
        let [first, second, third] = codes;
        self.remove(first, number);
        self.remove(second, number);
        self.remove(third, number);
    }

    fn remove(&mut self, code: u64, number: u64)
        ensures others { KeepsOthers number self.old self.new }
        ensures none { AddsNone self.old self.new }
        ensures gone { is_marked self.new code number ≡ false }
    {
        let _ = self.marks.remove(&Mark { code, number });
    }

    /// The least number from `from` on that is listed under that code.
    fn first(&self, code: u64, from: u64) -> Option<u64>
        ensures reaches { Reaches self.now from result code }
        ensures within { IfSome result (λ n. from ≤ n) }
    {
        let first = least(&self.marks, &Mark { code, number: from })?;
        if first.code == code {
            Some(first.number)
        } else {
            None
        }
    }

    /// The least number from `from` on that is listed under one of the codes. It takes no memory.
    pub(crate) fn next(&self, codes: &[u64], from: u64) -> Option<u64>
        ensures reaches { All (Reaches self.now from result) codes.now }
        ensures within { IfSome result (λ n. from ≤ n) }
    {
        let mut least = None;
        for code in codes {
            least = lesser(least, self.first(*code, from));
        }
        least
    }
}

/// The least mark from a start on.
fn least<'a>(marks: &'a BTreeSet<Mark>, start: &Mark) -> Option<&'a Mark>
    ensures { IsLeast (tree.contains mark_cmp marks.now) start.now (option_copied result) }
{
    marks
        .range((Bound::Included(start), Bound::Unbounded))
        .next()
}

/// The lesser of two, where there are two.
fn lesser(left: Option<u64>, right: Option<u64>) -> Option<u64>
    ensures left { (n : ℕ) → IsReached n left → IsReached n result }
    ensures right { (n : ℕ) → IsReached n right → IsReached n result }
    ensures within { (n : ℕ) → IfSome left (λ m. n ≤ m) → IfSome right (λ m. n ≤ m) → IfSome result (λ m. n ≤ m) }
{
    match (left, right) {
        (Some(left), Some(right)) => Some(if left < right { left } else { right }),
        (Some(left), None) => Some(left),
        (None, right) => right,
    }
}
