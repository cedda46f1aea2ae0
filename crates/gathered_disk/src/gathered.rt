// A disk that gathers: what is written at and behind one place waits in memory until it is landed.
ghost use Rattle.std.specs.Prelude.{◌≡◌, ◌+◌, ◌++◌, ◌∷◌, ◌^◌, ◌<◌, ◌≤◌, [], ℕ, List, length, vec_capacity, Err, OnOk, OnErr, Some, false, true};
ghost use Rattle.sync_disk.specs.Disk.{Told, Only, LeavesOnly, HasCause, put};
ghost use Rattle.sync_disk.specs.Images.{state};
ghost use Rattle.sync_disk.specs.Strokes.{done};
ghost use Rattle.sync_disk.specs.Strokes.Act.{Write};
ghost use Rattle.gathered_disk.specs.Gathered.{NoneOrAll, gathered, images_of, images_since_of, origin_of, shown};
ghost use Rattle.gathered_disk.specs.Laws.{as_asked, by_strokes_of, counts_of, only_of, shown_image};
ghost use Rattle.gathered_disk.specs.Strokes.{strokes_of};

use crate::asked::Asked;
use crate::landing::{OPEN, land_bytes};
use std::alloc::Global;
use sync_disk::{Disk, DiskRefusal};

/// The greatest length of a disk.
const GREATEST: u64 = (1 << 63) - 1;

/// A disk over another one, whose strokes are all done at once, in memory, and come to the disk below by `land`. It takes
/// the writes of what only grows: a byte 1 at one place, the gate, and any bytes behind the gate, without a hole. Any
/// other write answers `NoMemory`, and so do `len` and `read_at`, since it keeps no copy of the disk below.
#[derive(Drop)]
pub struct GatheredDisk<D: Disk> {
    alloc: Global,
    disk: D,
    gate: u64,
    behind: Vec<u8>,
    opened: bool,
    asked: Vec<Asked>,
    closed: bool,
    ghost fits: { gate + 1 + length behind.items ≤ 2 ^ 63 },
    ghost inside: { closed ≡ false → Told (D.content disk) (λ b. gate < length b) },
    ghost durable: { closed ≡ false → Told (D.content disk) (λ b. Only b (D.images disk)) },
    ghost in_step: { closed ≡ false → Told (D.content disk) (λ b. (state b (strokes_of asked.items)).content ≡ gathered b gate behind.items opened) },
}

// Puts bytes over what stands at a place and past the end. There is room for them.
fn put_bytes(content: &mut Vec<u8>, place: usize, bytes: &[u8])
    requires inside { place ≤ length content.old.items }
    requires room { length (put content.old.items place bytes.now) ≤ vec_capacity content.old }
    ensures content { content.new.items ≡ put content.old.items place bytes.now }
{
    let inside = bytes.len().min(content.len() - place);
    content.extend_from_slice(&bytes[inside..]).unwrap();
    content[place..place + inside].copy_from_slice(&bytes[..inside]);
}

impl<D: Disk> GatheredDisk<D> {
    ghost use Rattle.gathered_disk.specs.Below.{below, gate_of, is_closed, pending, told_by};

    /// Gathers over a disk, on which a crash leaves what it holds, unless it is made closed.
    pub fn over(alloc: Global, disk: D, gate: u64, closed: bool) -> GatheredDisk<D>
        requires fits { gate < 2 ^ 63 }
        requires inside { closed ≡ false → Told (D.content disk) (λ b. gate < length b) }
        requires durable { closed ≡ false → Told (D.content disk) (λ b. Only b (D.images disk)) }
        ensures below { below result ≡ disk }
        ensures gate { gate_of result ≡ gate }
        ensures closed { is_closed result ≡ closed }
        ensures pending { pending result ≡ [] }
    {
        GatheredDisk {
            alloc,
            disk,
            gate,
            behind: Vec::new(alloc),
            opened: false,
            asked: Vec::new(alloc),
            closed,
        }
    }

    /// Brings what it shows to the disk below, in four strokes at most, and gathers from then on behind a gate at `end`.
    /// After an `Err` it is closed.
    pub fn land(&mut self, end: u64) -> Result<(), DiskRefusal>
        requires fits { end < 2 ^ 63 }
        requires inside { Told (told_by self.old) (λ b. end < length b) }

        // At `Ok` the disk below holds what was shown, and nothing else after a crash.
        ensures landed { Told (told_by self.old) (λ b. OnOk result (D.content (below self.new) ≡ Some b)) }
        ensures durable { Told (told_by self.old) (λ b. OnOk result (Only b (D.images (below self.new)))) }
        ensures shows { OnOk result (told_by self.new ≡ told_by self.old) }
        ensures idle { OnOk result (pending self.new ≡ []) }
        ensures gate { OnOk result (gate_of self.new ≡ end) }
        ensures open { OnOk result (is_closed self.new ≡ false) }
        ensures closes { OnErr result (is_closed self.new ≡ true) }

        // A crash at any moment leaves none of it or all.
        ensures any_moment { (b : List ℕ) → D.content (below self.old) ≡ Some b → Told (told_by self.old) (λ all.
            LeavesOnly D.moment D.images_since (below self.old) (below self.new) (NoneOrAll b (gate_of self.old) all)) }

        // The disk below: its strokes, what no call changes, and the cause of a fault.
        ensures few { Told (D.content (below self.old)) (λ b. length (D.strokes (below self.new)) ≤ length (D.strokes (below self.old)) + 4) }
        ensures none { pending self.old ≡ [] → below self.new ≡ below self.old }
        ensures origin { D.origin (below self.new) ≡ D.origin (below self.old) }
        ensures cause { HasCause (D.faults (below self.old)) (D.faults (below self.new)) result }
    {
        if self.closed {
            return Err(DiskRefusal::NoMemory);
        }
        if self.asked.is_empty() {
            self.begin(end);
            return Ok(());
        }
        self.closed = true;
        land_bytes(&mut self.disk, self.gate, &self.behind, self.opened)?;
        self.begin(end);
        Ok(())
    }

    // Begins behind a gate, with nothing gathered.
    fn begin(&mut self, gate: u64)
        requires fits { gate < 2 ^ 63 }
        requires inside { Told (D.content (below self.old)) (λ b. gate < length b) }
        requires durable { Told (D.content (below self.old)) (λ b. Only b (D.images (below self.old))) }
        ensures below { below self.new ≡ below self.old }
        ensures gate { gate_of self.new ≡ gate }
        ensures closed { is_closed self.new ≡ false }
        ensures pending { pending self.new ≡ [] }
    {
        self.asked.clear();
        self.behind.clear();
        self.opened = false;
        self.gate = gate;
        self.closed = false;
    }

    /// Hands the disk below back. What wasn't landed is lost.
    pub fn into_disk(self) -> D
        ensures { result ≡ below self }
    {
        self.disk
    }

    // Keeps a write, unless it lies elsewhere.
    fn keep(&mut self, place: u64, bytes: &[u8]) -> Result<(), DiskRefusal>
        requires { place + length bytes.now < 2 ^ 64 }
        ensures done { OnOk result (pending self.new ≡ pending self.old ++ done (Write place bytes.now) ∷ []) }
        ensures refused { OnErr result (pending self.new ≡ pending self.old) }
        ensures only { result ≡ Err DiskRefusal.Failed → ⊥ }
        ensures short { OnOk result (place + length bytes.now < 2 ^ 63) }
        ensures below { below self.new ≡ below self.old }
        ensures gate { gate_of self.new ≡ gate_of self.old }
        ensures closed { is_closed self.new ≡ is_closed self.old }
        ensures open { OnOk result (is_closed self.old ≡ false) }
    {
        if self.closed || place + bytes.len() as u64 > GREATEST {
            return Err(DiskRefusal::NoMemory);
        }
        let copy = bytes.to_vec(self.alloc)?;
        if place == self.gate && bytes == [OPEN].as_slice() {
            self.asked.push(Asked::Write(place, copy))?;
            self.opened = true;
            return Ok(());
        }
        if place <= self.gate || place - self.gate - 1 > self.behind.len() as u64 {
            return Err(DiskRefusal::NoMemory);
        }
        self.behind.reserve(bytes.len())?;
        self.asked.push(Asked::Write(place, copy))?;
        put_bytes(&mut self.behind, (place - self.gate - 1) as usize, bytes);
        Ok(())
    }
}

impl<D: Disk> Disk for GatheredDisk<D> {
    ghost use Rattle.sync_disk.specs.declared.leaves.Leaves.{Leaves};
    ghost use Rattle.std.proofs.Common.{refl};

    ghost content = { λ g. shown g.closed (D.content g.disk) (strokes_of g.asked.items) };

    ghost strokes = { λ g. strokes_of g.asked.items };

    ghost images = { λ g c. images_of (D.content g.disk) (strokes_of g.asked.items) c };

    ghost moment = { λ g. length (strokes_of g.asked.items) };

    ghost images_since = { λ g t c. images_since_of (D.content g.disk) (strokes_of g.asked.items) t c };

    ghost faults = { λ g. D.faults g.disk };

    ghost origin = { λ g. origin_of g.closed (D.content g.disk) (D.origin g.disk).listed g.gate };

    ghost failing = { λ g. [] };

    ghost is_image = { λ g b told. shown_image g.closed (D.content g.disk) (strokes_of g.asked.items) b told };

    ghost counts_now = { λ g t c le now. counts_of (D.content g.disk) (strokes_of g.asked.items) t c le now };

    ghost only_now = { λ g c left. only_of (D.content g.disk) (strokes_of g.asked.items) c left };

    ghost by_strokes = { λ g b c told image. by_strokes_of (D.content g.disk) (strokes_of g.asked.items) c image };

    ghost none_failing = { λ g b told none. refl };

    ghost as_planned = { λ g b told none. as_asked 0 g.asked.items };

    fn len(&mut self) -> Result<u64, DiskRefusal> {
        Err(DiskRefusal::NoMemory)
    }

    fn read_at(&mut self, _place: u64, _into: &mut [u8]) -> Result<(), DiskRefusal> {
        Err(DiskRefusal::NoMemory)
    }

    fn write_at(&mut self, place: u64, bytes: &[u8]) -> Result<(), DiskRefusal> {
        self.keep(place, bytes)
    }

    fn sync(&mut self) -> Result<(), DiskRefusal> {
        if self.closed {
            return Err(DiskRefusal::NoMemory);
        }
        self.asked.push(Asked::Sync)?;
        Ok(())
    }
}
