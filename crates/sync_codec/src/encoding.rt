ghost use Rattle.std.specs.Prelude.{◌≡◌, ◌++◌, ◌∷◌, [], length, map, IfOk, OnOk};
ghost use Rattle.std.specs.List.{flat_map, list_any, AllByRecursion};
ghost use Rattle.sync_io.specs.Varints.{varint};
ghost use Rattle.sync_codec.specs.Spelling.{spelling, version_of, instr_fields, strings_of, string_bytes, table_bytes};
ghost use Rattle.sync_codec.specs.Writing.{with_fields};
ghost use Rattle.sync_codec.specs.Valid.{IsString, AreInstrs};

use crate::decoding::any_needs_second;
use crate::writer::Writer;
use std::alloc::Global;
use sync_base::{Changeset, Instr, NoMemory};
use sync_intern::Strings;
use sync_io::put_varint64;

/// Room for what stands before the fields of most changesets.
const HEAD_ROOM: usize = 64;

fn version_of(instrs: &[Instr]) -> u8
    ensures { result ≡ version_of instrs.now }
{
    if any_needs_second(instrs) { 2 } else { 1 }
}

fn put_number(out: &mut Vec<u8>, number: u64) -> Result<(), NoMemory>
    ensures { OnOk result (out.new.items ≡ out.old.items ++ varint number) }
{
    match put_varint64(out, number) {
        Ok(()) => Ok(()),
        Err(_) => Err(NoMemory),
    }
}

fn put_bytes(out: &mut Vec<u8>, bytes: &[u8]) -> Result<(), NoMemory>
    ensures { OnOk result (out.new.items ≡ out.old.items ++ bytes.now) }
{
    match out.extend_from_slice(bytes) {
        Ok(()) => Ok(()),
        Err(_) => Err(NoMemory),
    }
}

fn put_string(out: &mut Vec<u8>, text: &str) -> Result<(), NoMemory>
    ensures { OnOk result (out.new.items ≡ out.old.items ++ string_bytes text.now) }
{
    put_number(out, text.len() as u64)?;
    put_bytes(out, text.as_bytes())
}

/// The number of strings, and each with its length.
fn put_table(out: &mut Vec<u8>, strings: &Strings) -> Result<(), NoMemory>
    ensures { OnOk result (out.new.items ≡ out.old.items ++ table_bytes strings.now) }
{
    put_number(out, strings.len() as u64)?;
    put_strings(out, strings.as_slice())
}

fn put_strings(out: &mut Vec<u8>, strings: &[&str]) -> Result<(), NoMemory>
    ensures { OnOk result (out.new.items ≡ out.old.items ++ flat_map string_bytes (map (λ s. s.now) strings.now)) }
{
    for text in strings {
        put_string(out, text)?;
    }
    Ok(())
}

/// No bytes, with room for so many where there is memory.
pub(crate) fn with_room(alloc: Global, size: usize) -> Vec<u8>
    ensures { result.items ≡ [] }
{
    match Vec::with_capacity(alloc, size) {
        Ok(bytes) => bytes,
        Err(_) => Vec::new(alloc),
    }
}

/// The instructions' bytes, with their version, strings and number before them.
fn with_head(alloc: Global, instrs: &[Instr], body: &Writer) -> Result<Vec<u8>, NoMemory>
    requires { body.now ≡ with_fields (record { strings = []; bytes = [] }) (flat_map instr_fields instrs.now) }
    ensures spelled { IfOk result (λ v. v.items ≡ spelling instrs.now) }
    ensures strings { OnOk result (AllByRecursion IsString (strings_of (flat_map instr_fields instrs.now))) }
{
    let mut out = with_room(alloc, HEAD_ROOM.saturating_add(body.bytes().len()));
    put_bytes(&mut out, &[version_of(instrs)])?;
    put_table(&mut out, body.strings())?;
    put_number(&mut out, instrs.len() as u64)?;
    put_bytes(&mut out, body.bytes())?;
    Ok(out)
}

/// The one spelling of a changeset's instructions. The time isn't part of it.
pub fn encode(alloc: Global, changes: &Changeset) -> Result<Vec<u8>, NoMemory>
    ensures spelled { IfOk result (λ v. v.items ≡ spelling changes.now.instrs) }
    // Each changeset's instructions are valid, so their spelling is read back.
    ensures are { OnOk result (AreInstrs changes.now.instrs) }
{
    let instrs = changes.instrs();
    let mut body = Writer::new(alloc)?;
    body.instrs(instrs)?;
    with_head(alloc, instrs, &body)
}
