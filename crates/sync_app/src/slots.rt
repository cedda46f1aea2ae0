ghost use Rattle.std.specs.Prelude.{◌≡◌, ◌<◌, ◌++◌, ◌∷◌, [], vec_len, vec_capacity, OnOk};

use sync_base::NoMemory;

/// Room for one item more.
pub(crate) fn make_room<T>(list: &mut Vec<T>) -> Result<(), NoMemory>
    ensures room { OnOk result (vec_len list.new < vec_capacity list.new) }
    ensures unchanged { list.new.items ≡ list.old.items }
{
    match list.reserve(1) {
        Ok(()) => Ok(()),
        Err(_) => Err(NoMemory),
    }
}

/// Puts an item at the end of a list that has room for it.
pub(crate) fn put_last<T: Drop>(list: &mut Vec<T>, item: T)
    requires { vec_len list.old < vec_capacity list.old }
    ensures { list.new.items ≡ list.old.items ++ item ∷ [] }
{
    let_go(list.push(item));
}

/// Drops a value, so that no caller's proof has the cases of its kind.
pub(crate) fn let_go<T: Drop>(_: T) {}
