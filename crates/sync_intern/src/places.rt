ghost use Rattle.std.specs.Prelude.{◌≡◌, ◌≤◌, ◌-◌, false, None, map, position, IfSome, length, take};
ghost use Rattle.std.specs.List.{IsDistinct};
ghost use Rattle.std.specs.Str.{bytes_eq};
ghost use Rattle.sync_intern.specs.FirstUses.{place_in};
ghost use Rattle.sync_intern.specs.Indexes.{Indexes};

use std::alloc::Global;
use std::collections::BTreeMap;

/// Up to so many strings are looked through; of more an index tells the places. It is in order, so that nobody can choose strings
/// that it is slow for.
pub(crate) const FEW: usize = 16;

/// Whether an index tells the places of so many strings, or will from now on.
#[inline(always)]
pub(crate) fn is_indexed(places: &Option<BTreeMap<String, usize>>, count: usize) -> bool
    ensures { result ≡ false → places.now ≡ None }
{
    match places {
        Some(_) => true,
        None => count > FEW,
    }
}

/// The place of a string among others, where it is one of them. It takes no memory.
pub(crate) fn place_among(texts: &[&str], text: &str) -> Option<usize>
    ensures { result ≡ place_in (map (λ s. s.now) texts.now) text.now }
{
    first_equal(texts, text)
}

fn first_equal(texts: &[&str], text: &str) -> Option<usize>
    ensures { result ≡ position (λ s. bytes_eq text.now s.now) texts.now }
{
    texts.iter().position(|other| text == *other)
}

/// The index of strings, from that of all but the last of them on. None where they are few, or where memory runs out.
pub(crate) fn places_with(
    alloc: Global,
    before: Option<BTreeMap<String, usize>>,
    texts: &[&str],
) -> Option<BTreeMap<String, usize>>
    requires distinct { IsDistinct bytes_eq (map (λ s. s.now) texts.now) }
    requires some { 1 ≤ length texts.now }
    requires first { IfSome before (λ p. Indexes p (take (length texts.now - 1) (map (λ s. s.now) texts.now))) }
    ensures { IfSome result (λ p. Indexes p (map (λ s. s.now) texts.now)) }
{
    match before {
        Some(places) => places_from(alloc, places, texts.len() - 1, texts),
        None if texts.len() > FEW => places_from(alloc, BTreeMap::new(alloc), 0, texts),
        None => None,
    }
}

/// The index of strings, from that of so many of them on.
fn places_from(
    alloc: Global,
    before: BTreeMap<String, usize>,
    count: usize,
    texts: &[&str],
) -> Option<BTreeMap<String, usize>>
    requires distinct { IsDistinct bytes_eq (map (λ s. s.now) texts.now) }
    requires count { count ≤ length texts.now }
    requires first { Indexes before (take count (map (λ s. s.now) texts.now)) }
    ensures { IfSome result (λ p. Indexes p (map (λ s. s.now) texts.now)) }
{
    let mut places = before;
    for place in count..texts.len() {
        let Ok(own) = String::from_str(alloc, texts[place]) else {
            return None;
        };
        let Ok(_) = places.insert(own, place) else {
            return None;
        };
    }
    Some(places)
}
