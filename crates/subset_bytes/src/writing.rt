ghost use Rattle.std.specs.Prelude.{◌≡◌, ◌≤◌, ◌++◌, All, OnOk, length};
ghost use Rattle.sync_io.specs.Formats.{body, listed};
ghost use Rattle.subset_bytes.specs.Spelling.{IsTableName, AreTables, tables_spelling};

use sync_base::Name;
use sync_io::{NoMemory, put_varint32};
use sync_subset::Subset;

fn put_name(out: &mut Vec<u8>, name: &Name) -> Result<(), NoMemory>
    ensures spelled { OnOk result (out.new.items ≡ out.old.items ++ body name.now) }
    ensures is { OnOk result (IsTableName name.now) }
{
    let text = name.text();
    put_varint32(out, text.len() as u32)?;
    out.extend_from_slice(text.as_bytes())?;
    Ok(())
}

fn put_names(out: &mut Vec<u8>, names: &[Name]) -> Result<(), NoMemory>
    requires { length names.now ≤ 64 }
    ensures spelled { OnOk result (out.new.items ≡ out.old.items ++ listed body names.now) }
    ensures are { OnOk result (All IsTableName names.now) }
{
    put_varint32(out, names.len() as u32)?;
    for name in names {
        put_name(out, name)?;
    }
    Ok(())
}

/// Writes the tables at the end, in their one spelling.
pub fn put_tables(out: &mut Vec<u8>, tables: &Subset) -> Result<(), NoMemory>
    ensures spelled { OnOk result (out.new.items ≡ out.old.items ++ tables_spelling tables.now) }
    // So they are read as these tables again.
    ensures are { OnOk result (AreTables tables.now) }
{
    put_names(out, tables.names())
}
