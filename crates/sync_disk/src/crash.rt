// What a crash leaves of a content.
ghost use Rattle.std.specs.Prelude.{◌≡◌, ◌+◌, ◌/◌, ◌≤◌, ℕ, List, take, length};
ghost use Rattle.sync_disk.specs.Images.{state, is_written};
ghost use Rattle.sync_disk.specs.Leaving.{count_written, tear, left_by};
ghost use Rattle.sync_disk.specs.Memory.{act_of, start_of, strokes_of, ends_writes, is_over, writes_over, IsLastSync};

use crate::Leaves;
use crate::kept::{Asked, KeptStroke};
use crate::start::Start;
use crate::writing::replay;

/// What a torn place holds.
const TORN: u8 = 0x5a;

// How many strokes there are up to the last sync that took effect.
fn synced_strokes(strokes: &[KeptStroke]) -> usize
    ensures within { result ≤ length strokes.now }
    ensures last { IsLastSync result strokes.now }
{
    let mut synced = 0;
    for (i, stroke) in strokes.iter().enumerate() {
        if is_effective_sync(stroke) {
            synced = i + 1;
        }
    }
    synced
}

// Whether it is a sync that took effect.
fn is_effective_sync(stroke: &KeptStroke) -> bool
    ensures { result ≡ ends_writes (act_of stroke.now.asked) stroke.now.lost }
{
    match stroke.asked {
        Asked::Sync => !stroke.lost,
        Asked::Write(..) => false,
    }
}

// Whether the stroke wrote the byte at a place.
fn wrote(stroke: &KeptStroke, k: usize) -> bool
    ensures { result ≡ is_over k (act_of stroke.now.asked) stroke.now.lost }
{
    if stroke.lost {
        return false;
    }
    match &stroke.asked {
        Asked::Write(place, bytes) => {
            let place = *place as usize;
            place <= k && k - place < bytes.len()
        }
        Asked::Sync => false,
    }
}

// Whether one of the strokes wrote the byte at a place.
fn any_wrote(strokes: &[KeptStroke], k: usize) -> bool
    ensures { result ≡ writes_over k strokes.now }
{
    strokes.iter().any(|stroke| wrote(stroke, k))
}

// How many of the first bytes were written.
fn count(len: usize, strokes: &[KeptStroke]) -> usize
    ensures { (ranges : List (ℕ × ℕ)) → ((k : ℕ) → is_written k ranges ≡ writes_over k strokes.now) → result ≡ count_written 0 len ranges }
{
    let mut written = 0;
    for k in 0..len {
        if any_wrote(strokes, k) {
            written += 1;
        }
    }
    written
}

// Leaves the first half of the places that the strokes wrote, and at each other of them the byte of a torn place.
fn tear_bytes(bytes: &mut [u8], strokes: &[KeptStroke])
    ensures { (ranges : List (ℕ × ℕ)) → ((k : ℕ) → is_written k ranges ≡ writes_over k strokes.now)
        → bytes.new ≡ tear 0 (count_written 0 (length bytes.old) ranges / 2) ranges bytes.old }
{
    let mut left = count(bytes.len(), strokes) / 2;
    for k in 0..bytes.len() {
        if any_wrote(strokes, k) {
            if left > 0 {
                left -= 1;
            } else {
                bytes[k] = TORN;
            }
        }
    }
}

/// Leaves of a content what a crash does. It has been written by the strokes since the start.
pub fn leave(leaves: Leaves, start: &Start, bytes: &mut Vec<u8>, strokes: &[KeptStroke])
    requires { bytes.old.items ≡ (state (start_of start.now bytes.old.items) (strokes_of strokes.now)).content }
    ensures content { bytes.new.items ≡ left_by leaves (state (start_of start.now bytes.old.items) (strokes_of strokes.now)) }
{
    let synced = synced_strokes(strokes);
    match leaves {
        Leaves::Drop => {
            start.restore(bytes);
            replay(bytes, &strokes[..synced]);
        }
        Leaves::Keep => {}
        Leaves::Torn => tear_bytes(bytes, &strokes[synced..]),
    }
}
