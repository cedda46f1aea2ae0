// The content of a disk in memory at the start, kept by what differs from the content now.
ghost use Rattle.std.specs.Prelude.{◌≡◌, ◌≤◌, [], length, vec_capacity, OnOk};
ghost use Rattle.sync_disk.specs.Memory.{start_of};

use std::alloc::{AllocError, Global};

/// The content at the start: the first bytes of the content now, which no write has reached, and what followed them.
#[derive(Drop)]
pub struct Start {
    pub shared: usize,
    pub rest: Vec<u8>,
}

impl Start {
    /// That of a disk which begins empty.
    pub fn empty(alloc: Global) -> Start
        ensures shared { result.shared ≡ 0 }
        ensures start { start_of result [] ≡ [] }
    {
        Start {
            shared: 0,
            rest: Vec::new(alloc),
        }
    }

    /// Begins with these bytes, which are the content now.
    pub fn begin(&mut self, bytes: &[u8])
        ensures shared { self.new.shared ≡ length bytes.now }
        ensures start { start_of self.new bytes.now ≡ bytes.now }
    {
        self.shared = bytes.len();
        self.rest.clear();
    }

    /// Keeps what stands from a place on, where a write follows.
    pub fn keep(&mut self, alloc: Global, bytes: &[u8], place: usize) -> Result<(), AllocError>
        requires { self.old.shared ≤ length bytes.now }
        ensures start { start_of self.new bytes.now ≡ start_of self.old bytes.now }
        ensures shared { self.new.shared ≤ self.old.shared }
        ensures below { OnOk result (self.new.shared ≤ place) }
    {
        if place >= self.shared {
            return Ok(());
        }
        let over = &bytes[place..self.shared];
        let mut rest = Vec::with_capacity(alloc, over.len() + self.rest.len())?;
        rest.extend_from_slice(over)?;
        rest.extend_from_slice(&self.rest)?;
        self.rest = rest;
        self.shared = place;
        Ok(())
    }

    /// Makes the content that at the start again, for which there is room.
    pub fn restore(&self, content: &mut Vec<u8>)
        requires { length (start_of self.now content.old.items) ≤ vec_capacity content.old }
        ensures content { content.new.items ≡ start_of self.now content.old.items }
        ensures room { vec_capacity content.old ≤ vec_capacity content.new }
    {
        content.truncate(self.shared);
        content.extend_from_slice(&self.rest).unwrap();
    }
}
