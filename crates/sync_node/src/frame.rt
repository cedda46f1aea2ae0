ghost use Rattle.std.specs.Prelude.{◌≡◌, ◌++◌, IfOk, OnOk};
ghost use Rattle.sync_exchange.specs.Seen.{message_seen};
ghost use Rattle.sync_node.specs.Frames.{frame};

use byteorder::{BigEndian, ByteOrder};
use std::alloc::Global;
use sync_data::NoMemory;
use sync_messages::{Message, message_bytes};

/// Puts bytes behind others.
fn put(out: &mut Vec<u8>, bytes: &[u8]) -> Result<(), NoMemory>
    ensures { OnOk result (out.new.items ≡ out.old.items ++ bytes.now) }
{
    match out.extend_from_slice(bytes) {
        Ok(()) => Ok(()),
        Err(_) => Err(NoMemory),
    }
}

/// The frame of a message: the length of its bytes, and the bytes (docs/FORMATS.md, "Messages").
pub fn frame_of(alloc: Global, message: &Message) -> Result<Vec<u8>, NoMemory>
    ensures { IfOk result (λ bytes. bytes.items ≡ frame (message_seen message.now)) }
{
    let bytes = message_bytes(alloc, message)?;
    let mut size = [0; 4];
    BigEndian::write_u32(&mut size, bytes.len() as u32);
    let mut out = Vec::new(alloc);
    put(&mut out, &size)?;
    put(&mut out, &bytes)?;
    Ok(out)
}
