use crate::answer::Answer;
use crate::failure::Failure;
use crate::fields::{cut, edits};
use crate::sides::Sides;
use std::alloc::Global;

/// For which orders of the stamps a case holds: where the left side is the later, and where it is the earlier.
#[derive(Clone, Copy)]
struct Orders {
    later: bool,
    earlier: bool,
}

/// Whether the case of a line `ORDER LEFT RIGHT ANSWER` holds, as it stands, and where the lists cross with the sides turned.
pub fn holds(alloc: Global, line: &str) -> Result<bool, Failure> {
    let (order, rest) = cut(line);
    let (left, rest) = cut(rest);
    let (right, answer) = cut(rest);
    let orders = orders_of(order)?;
    let left = edits(alloc, left)?;
    let right = edits(alloc, right)?;
    let answer = Answer::of(alloc, answer, left.as_slice(), right.as_slice())?;
    let sides = Sides { alloc, left, right };
    let straight = hold(&sides, &answer, orders)?;
    let Some(answer) = answer.turned() else {
        return Ok(straight);
    };
    let turned = Orders {
        later: orders.earlier,
        earlier: orders.later,
    };
    Ok(straight & hold(&sides.turned(), &answer, turned)?)
}

fn orders_of(word: &str) -> Result<Orders, Failure> {
    match word {
        "later" => Ok(Orders {
            later: true,
            earlier: false,
        }),
        "earlier" => Ok(Orders {
            later: false,
            earlier: true,
        }),
        "either" => Ok(Orders {
            later: true,
            earlier: true,
        }),
        _ => Err(Failure::Line),
    }
}

fn hold(sides: &Sides, answer: &Answer, orders: Orders) -> Result<bool, Failure> {
    if orders.later && !sides.cross_so(true, answer)? {
        return Ok(false);
    }
    if orders.earlier && !sides.cross_so(false, answer)? {
        return Ok(false);
    }
    Ok(true)
}
