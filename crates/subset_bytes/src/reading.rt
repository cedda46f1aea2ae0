ghost use Rattle.std.specs.Prelude.{◌≡◌, ◌++◌, ℕ, List, length, IfOk, Some};
ghost use Rattle.sync_io.specs.Formats.{number_in, body_in, many_in};
ghost use Rattle.sync_subset.specs.Tables.{Tables};
ghost use Rattle.subset_bytes.specs.Reading.{Gives, name_in, tables_in};
ghost use Rattle.subset_bytes.specs.Spelling.{AreTables, tables_spelling};

use crate::refusal::TablesRefusal;
use std::alloc::Global;
use sync_base::Name;
use sync_io::varint32_of;
use sync_subset::Subset;

/// The most tables of a list.
const MOST_TABLES: u32 = 64;

fn number_of(bytes: &[u8]) -> Result<(u32, &[u8]), TablesRefusal>
    ensures { Gives (λ x. (x.0, x.1.now)) result (number_in bytes.now) }
{
    match varint32_of(bytes) {
        Ok(found) => Ok(found),
        Err(_) => Err(TablesRefusal::BadTables),
    }
}

/// Bytes behind their length.
fn body_of(bytes: &[u8]) -> Result<(&[u8], &[u8]), TablesRefusal>
    ensures { Gives (λ x. (x.0.now, x.1.now)) result (body_in bytes.now) }
{
    let (count, rest) = number_of(bytes)?;
    let count = count as usize;
    if rest.len() < count {
        return Err(TablesRefusal::BadTables);
    }
    Ok(rest.split_at(count))
}

#[tactic(auto, using(crate::proofs::Names::utf8_is, crate::proofs::Names::utf8_not))]
fn name_of(bytes: &[u8]) -> Result<(Name, &[u8]), TablesRefusal>
    ensures { Gives (λ x. (x.0, x.1.now)) result (name_in bytes.now) }
{
    let (bytes, rest) = body_of(bytes)?;
    let Ok(text) = str::from_utf8(bytes) else {
        return Err(TablesRefusal::BadTables);
    };
    match Name::new(text) {
        Ok(name) => Ok((name, rest)),
        Err(_) => Err(TablesRefusal::BadTables),
    }
}

fn names_of(alloc: Global, count: u32, bytes: &[u8]) -> Result<(Vec<Name>, &[u8]), TablesRefusal>
    ensures read { Gives (λ x. (x.0.items, x.1.now)) result (many_in name_in count bytes.now) }
    ensures count { IfOk result (λ x. length x.0.items ≡ count) }
{
    let mut names = Vec::new(alloc);
    let mut rest = bytes;
    for _ in 0..count {
        let (name, after) = name_of(rest)?;
        names.push(name)?;
        rest = after;
    }
    Ok((names, rest))
}

fn subset_of(alloc: Global, bytes: &[u8]) -> Result<(Subset, &[u8]), TablesRefusal>
    ensures { Gives (λ x. (x.0, x.1.now)) result (tables_in bytes.now) }
{
    let (count, rest) = number_of(bytes)?;
    if count > MOST_TABLES {
        return Err(TablesRefusal::BadTables);
    }
    let (names, rest) = names_of(alloc, count, rest)?;
    match Subset::new(names) {
        Ok(tables) => Ok((tables, rest)),
        Err(_) => Err(TablesRefusal::BadTables),
    }
}

/// The tables at the front, and the bytes behind them.
pub fn tables_of(alloc: Global, bytes: &[u8]) -> Result<(Subset, &[u8]), TablesRefusal>
    // What is read is spelled so.
    ensures found { IfOk result (λ x. bytes.now ≡ tables_spelling x.0 ++ x.1.now) }
    // What is spelled so is read, unless memory runs out.
    ensures only { (tables : Tables) (rest : List ℕ) → AreTables tables → bytes.now ≡ tables_spelling tables ++ rest → Gives {Y = Tables × List ℕ} (λ x. (x.0, x.1.now)) result (Some (tables, rest)) }
    // What is read, unless memory runs out.
    ensures exact { Gives (λ x. (x.0, x.1.now)) result (tables_in bytes.now) }
    // What is read is so many names.
    ensures are { IfOk result (λ x. AreTables x.0) }
{
    subset_of(alloc, bytes)
}
