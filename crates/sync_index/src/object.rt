ghost use Rattle.std.specs.Prelude.{◌≡◌, true, Bool, Some, Ok};
ghost use Rattle.std.specs.Option.{option_map};
ghost use Rattle.sync_base.specs.Effects.{ObjectName, effect_of};
ghost use Rattle.sync_base.specs.Objects.{object_of, are_apart};
ghost use Rattle.sync_base.specs.Rules.{meeting};

use sync_base::{Instr, Key, Name, cell_of, same_object};

/// Whether two instructions are about two objects, or one is about an object and the other about a table or a column.
/// Then both stay as they are. It takes no memory.
pub fn are_apart(left: &Instr, right: &Instr) -> bool
    ensures value { result ≡ are_apart (object_of (effect_of left.now)) (object_of (effect_of right.now)) }
    ensures stay { result ≡ true → (later : Bool) → meeting left.now right.now later ≡ Ok (record { left = Some left.now; right = Some right.now }) }
{
    are_two(left, right)
}

fn are_two(left: &Instr, right: &Instr) -> bool
    ensures { result ≡ are_apart (object_of (effect_of left.now)) (object_of (effect_of right.now)) }
{
    match (object_of(left), object_of(right)) {
        (Some((table, key)), Some((other_table, other_key))) => {
            !same_object(table, key, other_table, other_key)
        }
        (None, None) => false,
        _ => true,
    }
}

/// The object that an instruction is about, by its table and key; none for an instruction of the schema.
#[inline(always)]
pub(crate) fn object_of(instr: &Instr) -> Option<(&Name, &Key)>
    ensures { option_map {U = ObjectName} (λ o. (o.0.now, o.1.now)) result ≡ object_of (effect_of instr.now) }
{
    match instr {
        Instr::CreateObject(create) => Some((&create.table, &create.key)),
        Instr::EraseObject(erase) => Some((&erase.table, &erase.key)),
        _ => match cell_of(instr) {
            Some(cell) => Some((&cell.table, &cell.key)),
            None => None,
        },
    }
}
