// How a write changes a content in place.
ghost use Rattle.std.specs.Prelude.{◌≡◌, ◌≤◌, length, vec_len, vec_capacity};
ghost use Rattle.sync_disk.specs.Disk.{put};
ghost use Rattle.sync_disk.specs.Images.{acted, content_after};
ghost use Rattle.sync_disk.specs.Memory.{act_of, strokes_of};

use crate::kept::{Asked, KeptStroke};

// Puts bytes over what stands at a place and past the end. There is room for them. A place past the end is the end.
fn put_bytes(content: &mut Vec<u8>, place: usize, bytes: &[u8])
    requires { length (put content.old.items place bytes.now) ≤ vec_capacity content.old }
    ensures content { content.new.items ≡ put content.old.items place bytes.now }
    ensures room { vec_capacity content.old ≤ vec_capacity content.new }
{
    let from = place.min(content.len());
    let inside = bytes.len().min(content.len() - from);
    content.extend_from_slice(&bytes[inside..]).unwrap();
    content[from..from + inside].copy_from_slice(&bytes[..inside]);
}

/// Does to the content what a stroke does, for which there is room.
pub fn act(content: &mut Vec<u8>, stroke: &KeptStroke)
    requires { length (acted content.old.items (act_of stroke.now.asked) stroke.now.lost) ≤ vec_capacity content.old }
    ensures content { content.new.items ≡ acted content.old.items (act_of stroke.now.asked) stroke.now.lost }
    ensures room { vec_capacity content.old ≤ vec_capacity content.new }
{
    if stroke.lost {
        return;
    }
    if let Asked::Write(place, bytes) = &stroke.asked {
        put_bytes(content, *place as usize, bytes);
    }
}

/// Does to the content what strokes do, for all of which there is room.
pub fn replay(content: &mut Vec<u8>, strokes: &[KeptStroke])
    requires { length (content_after content.old.items (strokes_of strokes.now)) ≤ vec_capacity content.old }
    ensures content { content.new.items ≡ content_after content.old.items (strokes_of strokes.now) }
    ensures room { vec_capacity content.old ≤ vec_capacity content.new }
{
    for stroke in strokes {
        act(content, stroke);
    }
}
