ghost use Rattle.std.specs.Prelude.{◌≡◌, ◌++◌, OnOk, decimal};
ghost use Rattle.sync_words.specs.Words.{name_text, numbers_text, said};

use serde_json::Value as Json;
use std::alloc::Global;
use sync_data::{Name, NoMemory};

/// Puts text behind what was written.
pub fn put(out: &mut Vec<u8>, text: &str) -> Result<(), NoMemory>
    ensures { OnOk result (out.new.items ≡ out.old.items ++ text.now) }
{
    match out.extend_from_slice(text.as_bytes()) {
        Ok(()) => Ok(()),
        Err(_) => Err(NoMemory),
    }
}

/// Puts a number in decimal.
pub fn put_number(alloc: Global, out: &mut Vec<u8>, number: u64) -> Result<(), NoMemory>
    ensures { OnOk result (out.new.items ≡ out.old.items ++ decimal number) }
{
    let Ok(text) = number.to_string(alloc) else {
        return Err(NoMemory);
    };
    put(out, text.as_str())
}

/// Puts a name as a JSON string.
pub fn put_name(alloc: Global, out: &mut Vec<u8>, name: &Name) -> Result<(), NoMemory>
    ensures { OnOk result (out.new.items ≡ out.old.items ++ name_text name.now) }
{
    let Ok(json) = Json::try_from_str(alloc, name.text()) else {
        return Err(NoMemory);
    };
    let Ok(text) = json.to_string(alloc) else {
        return Err(NoMemory);
    };
    put(out, text.as_str())
}

/// Puts each number after a space.
pub fn put_numbers(alloc: Global, out: &mut Vec<u8>, numbers: &[u64]) -> Result<(), NoMemory>
    ensures { OnOk result (out.new.items ≡ out.old.items ++ numbers_text numbers.now) }
{
    for number in numbers {
        put(out, " ")?;
        put_number(alloc, out, *number)?;
    }
    Ok(())
}

/// Puts a word and numbers.
pub fn put_said(
    alloc: Global,
    out: &mut Vec<u8>,
    word: &str,
    numbers: &[u64],
) -> Result<(), NoMemory>
    ensures { OnOk result (out.new.items ≡ out.old.items ++ said word.now numbers.now) }
{
    put(out, word)?;
    put_numbers(alloc, out, numbers)
}
