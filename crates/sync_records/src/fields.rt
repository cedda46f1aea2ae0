ghost use Rattle.std.specs.Prelude.{◌≡◌, List, length, IfOk};
ghost use Rattle.sync_io.specs.Formats.{number_in, wide_in, bytes_in, body_in};
ghost use Rattle.sync_records.specs.Reading.{Gives, id_in, ident_in, form_in, names_in, rest_in, current_in, pair_in, version_in};

use crate::named::Named;
use crate::refusal::RecordRefusal;
use std::alloc::Global;
use subset_bytes::{TablesRefusal, tables_of};
use sync_data::{Blob, Id};
use sync_io::{varint32_of, varint64_of};
use sync_subset::Subset;

/// What a record Form says: the files' second form.
pub(crate) const FORM: u32 = 2;

pub(crate) fn number_of(bytes: &[u8]) -> Result<(u32, &[u8]), RecordRefusal>
    ensures { Gives (λ x. (x.0, x.1.now)) result (number_in bytes.now) }
{
    match varint32_of(bytes) {
        Ok(found) => Ok(found),
        Err(_) => Err(RecordRefusal::BadRecord),
    }
}

pub(crate) fn wide_of(bytes: &[u8]) -> Result<(u64, &[u8]), RecordRefusal>
    ensures { Gives (λ x. (x.0, x.1.now)) result (wide_in bytes.now) }
{
    match varint64_of(bytes) {
        Ok(found) => Ok(found),
        Err(_) => Err(RecordRefusal::BadRecord),
    }
}

pub(crate) fn id_of(bytes: &[u8]) -> Result<Id, RecordRefusal>
    ensures { Gives (λ x. x) result (id_in bytes.now) }
{
    match bytes.split_first_chunk::<16>() {
        Some((id, [])) => Ok(*id),
        _ => Err(RecordRefusal::BadRecord),
    }
}

pub(crate) fn named_of(bytes: &[u8]) -> Result<Named, RecordRefusal>
    ensures { Gives (λ x. x) result (ident_in bytes.now) }
{
    let (ident, rest) = number_of(bytes)?;
    if ident == 0 || !rest.is_empty() {
        return Err(RecordRefusal::BadRecord);
    }
    Ok(Named::new(ident))
}

/// The form, which is the second.
pub(crate) fn form_of(bytes: &[u8]) -> Result<u32, RecordRefusal>
    ensures { Gives (λ x. x) result (form_in bytes.now) }
{
    let (form, rest) = number_of(bytes)?;
    if form != FORM || !rest.is_empty() {
        return Err(RecordRefusal::BadRecord);
    }
    Ok(form)
}

/// One number alone.
pub(crate) fn version_of(bytes: &[u8]) -> Result<u32, RecordRefusal>
    ensures { Gives (λ x. x) result (version_in bytes.now) }
{
    let (version, rest) = number_of(bytes)?;
    if !rest.is_empty() {
        return Err(RecordRefusal::BadRecord);
    }
    Ok(version)
}

/// Two numbers alone.
pub(crate) fn pair_of(bytes: &[u8]) -> Result<(u32, u32), RecordRefusal>
    ensures { Gives (λ x. (x.0, x.1)) result (pair_in bytes.now) }
{
    let (first, rest) = number_of(bytes)?;
    let (second, rest) = number_of(rest)?;
    if !rest.is_empty() {
        return Err(RecordRefusal::BadRecord);
    }
    Ok((first, second))
}

/// The names of tables, alone.
pub(crate) fn names_of(alloc: Global, bytes: &[u8]) -> Result<Subset, RecordRefusal>
    ensures { Gives (λ x. x) result (names_in bytes.now) }
{
    match tables_of(alloc, bytes) {
        Ok((tables, [])) => Ok(tables),
        Ok(_) => Err(RecordRefusal::BadRecord),
        Err(TablesRefusal::BadTables) => Err(RecordRefusal::BadRecord),
        Err(TablesRefusal::NoMemory) => Err(RecordRefusal::NoMemory),
    }
}

/// Bytes behind their length, and what is left.
pub(crate) fn sized_of(bytes: &[u8]) -> Result<(&[u8], &[u8]), RecordRefusal>
    ensures { Gives (λ x. (x.0.now, x.1.now)) result (body_in bytes.now) }
{
    let (count, rest) = number_of(bytes)?;
    let count = count as usize;
    if rest.len() < count {
        return Err(RecordRefusal::BadRecord);
    }
    Ok(rest.split_at(count))
}

/// A body as it was carried: where nothing is left it is the same, and only there.
pub(crate) fn current_of<'a>(body: &'a [u8], rest: &'a [u8]) -> Result<&'a [u8], RecordRefusal>
    ensures { Gives (λ x. x.now) result (current_in body.now rest.now) }
{
    match rest {
        [] => Ok(body),
        [_, ..] => {
            if rest == body {
                Err(RecordRefusal::BadRecord)
            } else {
                Ok(rest)
            }
        }
    }
}

pub(crate) fn body_of(alloc: Global, bytes: &[u8]) -> Result<Blob, RecordRefusal>
    ensures ok { IfOk result (λ body. body ≡ bytes.now) }
    ensures err { result ≡ Err RecordRefusal.BadRecord → ⊥ }
    ensures gives { Gives (λ x. x) result (rest_in bytes.now) }
{
    match Blob::new(alloc, bytes) {
        Ok(body) => Ok(body),
        Err(_) => Err(RecordRefusal::NoMemory),
    }
}
