ghost use Rattle.std.specs.Prelude.{◌≡◌, is_some};
ghost use Rattle.std.specs.Option.{option_copied};
ghost use Rattle.std.specs.BTreeMap as tree;
ghost use Rattle.sync_maps.specs.Next.{IsNext};

use std::collections::BTreeMap;
use std::ops::Bound;

/// The least key of a map above `after`, or the least of all where `after` is none. It takes no memory.
pub fn next_key<'a, K: Ord, V>(map: &'a BTreeMap<K, V>, after: Option<&K>) -> Option<&'a K>
    ensures { IsNext K.cmp (λ k. is_some (tree.get K.cmp map.now k)) (option_copied after.entry) (option_copied result) }
{
    let Some(after) = after else {
        return Some(map.first_key_value()?.0);
    };
    let mut above = map.range((Bound::Excluded(after), Bound::Unbounded));
    Some(above.next()?.0)
}
