use crate::failure::Failure;
use crate::fields::{cut, edits_or, number};
use std::alloc::Global;
use sync_base::{Instr, Mismatch, Outcome};
use sync_transform::CrossMismatch;

/// What must come of two lists that cross.
#[derive(Drop)]
pub enum Answer {
    /// What is left of both.
    Rest { left: Vec<Instr>, right: Vec<Instr> },
    /// They can't cross: the places of the two that can't meet, and the code.
    Stuck { left: u32, right: u32, code: u32 },
}

/// The two lists that are left, or why there are none.
pub type Crossed = Result<(Vec<Instr>, Vec<Instr>), CrossMismatch>;

impl Answer {
    /// The answer of the fields `LEFT` and `RIGHT`, or `stuck`, `PLACE`, `PLACE` and `CODE`.
    pub fn of(
        alloc: Global,
        fields: &str,
        left: &[Instr],
        right: &[Instr],
    ) -> Result<Answer, Failure> {
        let (first, rest) = cut(fields);
        if first == "stuck" {
            return stuck_of(rest);
        }
        Ok(Answer::Rest {
            left: edits_or(alloc, first, left)?,
            right: edits_or(alloc, rest, right)?,
        })
    }

    /// The answer with the sides turned. Of lists that can't cross it isn't known: the places count in the left list as
    /// given, and in the right one as carried.
    pub fn turned(self) -> Option<Answer> {
        match self {
            Answer::Rest { left, right } => Some(Answer::Rest {
                left: right,
                right: left,
            }),
            Answer::Stuck { .. } => None,
        }
    }

    /// Whether lists that crossed so have this answer.
    pub fn is_of(&self, crossed: &Crossed) -> bool {
        match crossed {
            Ok((left, right)) => self.is_rest(left.as_slice(), right.as_slice()),
            Err(stuck) => self.is_stuck(stuck),
        }
    }

    /// Whether two instructions that met so have this answer.
    pub fn is_of_pair(&self, met: &Result<Outcome, Mismatch>) -> bool {
        match met {
            Ok(met) => self.is_rest(met.left.as_slice(), met.right.as_slice()),
            Err(kind) => self.is_stuck(&CrossMismatch {
                left_place: 0,
                right_place: 0,
                kind: *kind,
            }),
        }
    }

    /// Whether these are left.
    pub fn is_rest(&self, left: &[Instr], right: &[Instr]) -> bool {
        match self {
            Answer::Rest { left: l, right: r } => {
                are_same(left, l.as_slice()) && are_same(right, r.as_slice())
            }
            Answer::Stuck { .. } => false,
        }
    }

    /// Whether they can't cross so.
    pub fn is_stuck(&self, stuck: &CrossMismatch) -> bool {
        match self {
            Answer::Rest { .. } => false,
            Answer::Stuck { left, right, code } => {
                let places = (*left == stuck.left_place) & (*right == stuck.right_place);
                places & (*code == stuck.kind.code() as u32)
            }
        }
    }
}

fn stuck_of(fields: &str) -> Result<Answer, Failure> {
    let (left, rest) = cut(fields);
    let (right, code) = cut(rest);
    Ok(Answer::Stuck {
        left: number(left)?,
        right: number(right)?,
        code: number(code)?,
    })
}

fn are_same(found: &[Instr], want: &[Instr]) -> bool {
    found.len() == want.len() && found.iter().zip(want).all(|(a, b)| a == b)
}
