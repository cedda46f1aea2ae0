ghost use Rattle.std.specs.Prelude.{◌≡◌, ◌-◌, ◌^◌, ◌<◌, ◌≤◌, [], ◌+◌, length, IfOk, OnOk, Ok};
ghost use Rattle.sync_codec.specs.Fields.{Gives};
ghost use Rattle.sync_codec.specs.Decoding.{string_len_in, as_text, string_in, strings_in, table_in};

use crate::fields::{number32_of, run_of};
use crate::refusal::{ReadRefusal, Rule, broken};
use std::alloc::Global;
use sync_intern::{LONGEST_STRING, Strings};

/// The length of a string at the front, at most 255.
#[tactic(auto, unfolding(crate::specs::Decoding::string_len_in))]
fn string_len_of(bytes: &[u8]) -> Result<(usize, &[u8]), ReadRefusal>
    ensures len { Gives (λ x. (x.0, x.1.now)) result (string_len_in bytes.now) }
    ensures short { IfOk result (λ x. x.0 ≤ 255) }
{
    let (len, rest) = number32_of(bytes)?;
    let len = len as usize;
    if len > LONGEST_STRING {
        return broken(bytes, Rule::BadText);
    }
    Ok((len, rest))
}

/// Those bytes as a text. `field` is where they stand.
#[tactic(auto, using(crate::specs::Lemmas::utf8_is, crate::specs::Lemmas::utf8_not))]
fn text_of<'a>(run: &'a [u8], field: &[u8]) -> Result<&'a str, ReadRefusal>
    ensures { Gives (λ text. text.now) result (as_text run.now field.now) }
{
    match str::from_utf8(run) {
        Ok(text) => Ok(text),
        Err(_) => broken(field, Rule::BadText),
    }
}

/// The next string, which is known from then on. The bytes behind it are left.
#[tactic(auto, unfolding(crate::specs::Decoding::string_in))]
fn take_string<'a>(known: &mut Strings<'a>, bytes: &'a [u8]) -> Result<&'a [u8], ReadRefusal>
    requires { length known.old < 2 ^ 32 - 1 }
    ensures taken { Gives (λ rest. (known.new, rest.now)) result (string_in known.old bytes.now) }
    ensures one_more { OnOk result (length known.new ≡ length known.old + 1) }
{
    let (len, field) = string_len_of(bytes)?;
    let (run, rest) = run_of(field, len)?;
    let text = text_of(run, field)?;
    if known.place(text).is_some() {
        return broken(field, Rule::StringRepeat);
    }
    match known.add(text) {
        Ok(_) => Ok(rest),
        Err(_) => Err(ReadRefusal::NoMemory),
    }
}

fn take_strings<'a>(
    known: &mut Strings<'a>,
    count: u32,
    bytes: &'a [u8],
) -> Result<&'a [u8], ReadRefusal>
    requires { length known.old ≡ 0 }
    ensures { Gives (λ rest. (known.new, rest.now)) result (strings_in count known.old bytes.now) }
{
    let mut rest = bytes;
    for _ in 0..count {
        match take_string(known, rest) {
            Ok(behind) => rest = behind,
            Err(refusal) => return Err(refusal),
        }
    }
    Ok(rest)
}

/// The strings, behind their number, and the bytes behind them.
#[tactic(auto, unfolding(crate::specs::Decoding::table_in))]
pub fn table_of<'a>(alloc: Global, bytes: &'a [u8]) -> Result<(Strings<'a>, &'a [u8]), ReadRefusal>
    ensures { Gives (λ x. (x.0, x.1.now)) result (table_in bytes.now) }
{
    let (count, rest) = number32_of(bytes)?;
    let mut known = no_strings(alloc, count)?;
    match take_strings(&mut known, count, rest) {
        Ok(rest) => Ok((known, rest)),
        Err(refusal) => Err(refusal),
    }
}

/// No strings, with room for so many.
fn no_strings<'a>(alloc: Global, count: u32) -> Result<Strings<'a>, ReadRefusal>
    ensures { Gives (λ known. known) result (Ok []) }
{
    match Strings::with_room(alloc, count as usize) {
        Ok(strings) => Ok(strings),
        Err(_) => Err(ReadRefusal::NoMemory),
    }
}
