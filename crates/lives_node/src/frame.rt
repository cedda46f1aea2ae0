use byteorder::{BigEndian, ByteOrder};
use life_bytes::{Letter, letter_bytes};
use std::alloc::Global;
use sync_data::NoMemory;

/// The frame of a message: the length of its bytes, and the bytes (docs/FORMATS.md, "Messages").
pub(crate) fn frame_of(alloc: Global, letter: &Letter) -> Result<Vec<u8>, NoMemory> {
    let bytes = letter_bytes(alloc, letter)?;
    // (a message is far shorter)
    if bytes.len() > u32::MAX as usize {
        return Err(NoMemory);
    }
    let mut size = [0; 4];
    BigEndian::write_u32(&mut size, bytes.len() as u32);
    let mut out = Vec::new(alloc);
    put(&mut out, &size)?;
    put(&mut out, bytes.as_slice())?;
    Ok(out)
}

pub(crate) fn put(out: &mut Vec<u8>, bytes: &[u8]) -> Result<(), NoMemory> {
    match out.extend_from_slice(bytes) {
        Ok(()) => Ok(()),
        Err(_) => Err(NoMemory),
    }
}
