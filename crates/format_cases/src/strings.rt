//! Strings, numbered in the order of their first use.
use crate::bytes::columns_of;
use crate::failure::Failure;
use std::alloc::Global;
use sync_intern::{LONGEST_STRING, Strings};

/// The most strings of a case.
const MOST: usize = 1_000;

/// The case of one line: `numbers TEXTS NUMBERS`: the texts, used in order, get these numbers.
pub fn holds(alloc: Global, word: &str, rest: &str) -> Result<bool, Failure> {
    if word != "numbers" {
        return Err(Failure::Line);
    }
    let (texts, numbers) = columns_of(rest)?;
    let Ok(mut strings) = Strings::new(alloc) else {
        return Err(Failure::Memory);
    };
    for (text, number) in texts.split(' ').zip(numbers.split(' ')) {
        if !is_next(&mut strings, text, number)? {
            return Ok(false);
        }
    }
    Ok(!strings.is_empty() && strings.as_slice().len() == strings.len())
}

/// Uses the text, which gets that number, and is found by it and at it.
fn is_next<'a>(strings: &mut Strings<'a>, text: &'a str, number: &str) -> Result<bool, Failure> {
    let Ok(number) = number.parse::<u32>() else {
        return Err(Failure::Line);
    };
    let next = strings.len();
    if text.len() > LONGEST_STRING || next > MOST {
        return Err(Failure::Line);
    }
    let known = strings.place(text).is_some();
    if strings.get(next as u32).is_some() || known != ((number as usize) < next) {
        return Ok(false);
    }
    let Ok(given) = strings.number(text) else {
        return Err(Failure::Memory);
    };
    Ok(
        given == number
            && strings.place(text) == Some(number as usize)
            && strings.get(number) == Some(text),
    )
}
