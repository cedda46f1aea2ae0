// What each list of tables keeps, so that the record that has it is read back.
ghost use Rattle.std.specs.Prelude.{All};
ghost use Rattle.subset_bytes.specs.Spelling.{IsTableName, AreTables};

use sync_data::Name;
use sync_subset::Subset;

fn name_keeps(name: &Name)
    ensures { IsTableName name.now }
{
    let _text = name.text();
}

fn names_keep(names: &[Name])
    ensures { All IsTableName names.now }
{
    for name in names {
        name_keeps(name);
    }
}

/// What each list of tables keeps. It does nothing.
pub(crate) fn tables_keep(tables: &Subset)
    ensures { AreTables tables.now }
{
    names_keep(tables.names())
}
