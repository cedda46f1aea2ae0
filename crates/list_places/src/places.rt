ghost use Rattle.std.specs.Prelude.{◌≡◌, ◌<◌};
ghost use Rattle.sync_base.specs.Rules.{top};
ghost use Rattle.list_places.specs.Places.{place_after as after, longer};

/// What an instruction does at its place of a list.
#[derive(Clone, Copy, Debug, PartialEq, Eq)]
pub enum Does {
    Inserts,
    Erases,
    Updates,
}

/// Where the first of two concurrent instructions of a list stands after the other, or none where it is dropped. The flag is
/// whether it is the later one.
#[inline(always)]
pub fn place_after(
    later: bool,
    does: Does,
    place: u32,
    other: Does,
    other_place: u32,
) -> Option<u32>
    requires { place < top }
    ensures { result ≡ after later does place other other_place }
{
    let (p, q) = (place, other_place);
    match (does, other) {
        (Does::Inserts, Does::Inserts) if p < q || p == q && !later => Some(p),
        (Does::Inserts, Does::Inserts) => Some(p + 1),
        (Does::Inserts, Does::Erases) if p <= q => Some(p),
        (Does::Inserts, Does::Erases) => Some(p - 1),
        (Does::Erases | Does::Updates, Does::Inserts) if q <= p => Some(p + 1),
        (Does::Erases | Does::Updates, Does::Erases) if p == q => None,
        (Does::Erases | Does::Updates, Does::Erases) if q < p => Some(p - 1),
        (Does::Updates, Does::Updates) if p == q && !later => None,
        _ => Some(p),
    }
}

/// The length of a list after an instruction.
#[inline(always)]
pub fn length_after(does: Does, length: u32) -> u32
    requires { length < top }
    ensures { result ≡ longer does length }
{
    match does {
        Does::Inserts => length + 1,
        Does::Erases => length.saturating_sub(1),
        Does::Updates => length,
    }
}
