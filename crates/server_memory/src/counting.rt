//! The counts of a trimmed file: what is known of each ident.
ghost use Rattle.std.specs.Prelude.{◌≡◌, ◌≤◌, ◌+◌, ◌==◌, ◌&&◌, suc, [], length, map, nat_le, take, IfOk};
ghost use Rattle.sync_model.specs.Fronts.{all_within, count_is, count_step, counted_sum, leading, of_kind, walk, with_counts};
ghost use Rattle.server_memory.specs.Fronting.{Walks, counted_seen, seen_from, uuids_of};

use crate::given::Given;
use crate::history::LAST;
use crate::kinds::{Counted, Found, as_count};
use crate::lists::keep;
use crate::uuids::heir_in;
use std::alloc::Global;
use sync_base::{Ident, NoMemory};
use sync_journal::ReadRefusal;
use sync_recip::Recip;

/// Whether a count is of the next ident, where so many changes are counted before.
fn is_next(counts: usize, sum: u32, count: Counted) -> bool
    requires { counts ≤ 4294967295 }
    ensures { result ≡ ((count.ident == suc counts) && nat_le (sum + count.number) 4294967295) }
{
    count.ident as usize == counts + 1 && count.number <= LAST - sum
}

/// So many counts at most from a place on, and how many changes they count.
pub(crate) fn read_counts(
    alloc: Global,
    records: &[Found],
    first: usize,
    most: usize,
) -> Result<(Vec<Counted>, u32), ReadRefusal>
    requires within { first ≤ length records.now }
    requires few { most ≤ 4294967295 }
    ensures read { Walks (λ counts. map counted_seen counts.0.items) (λ counts. length counts.0.items) first (walk (count_step 4294967295) [] (take most (leading (of_kind count_is) (seen_from first records.now)))) (length (take most (leading (of_kind count_is) (seen_from first records.now)))) result }
    ensures sum { IfOk result (λ counts. counts.1 ≡ counted_sum (map counted_seen counts.0.items)) }
{
    let mut counts = Vec::new(alloc);
    let mut sum = 0;
    for place in first..records.len() {
        if counts.len() == most {
            return Ok((counts, sum));
        }
        match as_count(&records[place]) {
            None => return Ok((counts, sum)),
            Some(count) => {
                if !is_next(counts.len(), sum, count) {
                    return Err(ReadRefusal::BadRecord { place });
                }
                sum += count.number;
                match keep(&mut counts, count) {
                    Ok(()) => {}
                    Err(NoMemory) => return Err(ReadRefusal::NoMemory),
                }
            }
        }
    }
    Ok((counts, sum))
}

/// Whether no base and no settled number is beyond the length.
pub(crate) fn all_within(len: u32, counts: &[Counted]) -> bool
    ensures { result ≡ all_within len (map counted_seen counts.now) }
{
    for place in 0..counts.len() {
        let Counted { base, settled, .. } = counts[place];
        if base > len || settled > len {
            return false;
        }
    }
    true
}

/// Each uuid with its count, and with its heir where it is retired.
pub(crate) fn with_counts(
    alloc: Global,
    idents: &[Given],
    counts: &[Counted],
    retired: &[(Ident, Ident)],
) -> Result<Vec<Given>, NoMemory>
    requires { length idents.now ≡ length counts.now }
    ensures { IfOk result (λ made. made.items ≡ with_counts retired.now (uuids_of idents.now) (map counted_seen counts.now)) }
{
    let mut made = Vec::new(alloc);
    for place in 0..idents.len() {
        let count = counts[place];
        let heir = heir_in(retired, count.ident);
        let given = Given::counted(*idents[place].id(), count, heir, Recip::new(alloc));
        keep(&mut made, given)?;
    }
    Ok(made)
}
