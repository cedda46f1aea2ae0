//! An application in Rattle: two phones and a server over disks in memory. Both phones take notes offline and sync, and draw
//! again what changed.
#![tactic(auto)]

mod drawing;
mod failure;
mod notes;
mod phone;

use drawing::print_note;
use failure::Failure;
use phone::Phone;
use sync_disk::MemoryDisk;
use sync_server::{Server, ServerRefusal};

/// Runs the application. Whether it came to its end.
pub fn run(rt: &HostRuntime) -> bool {
    run_phones(rt).is_ok()
}

fn run_phones(rt: &HostRuntime) -> Result<(), Failure> {
    let alloc = rt.alloc();
    let Ok(mut server) = Server::open(alloc, MemoryDisk::new(alloc)?) else {
        return Err(Failure::Server(ServerRefusal::DiskFault));
    };
    play(rt, &mut server)
}

/// Two phones at the server, Ann's and Ben's. Each is made in a function of its own, which hands it on by reference: that keeps the
/// proofs of these functions short.
fn play(rt: &HostRuntime, server: &mut Server<MemoryDisk>) -> Result<(), Failure> {
    let mut ann = Phone::new(rt.alloc(), "Ann", [1; 16])?;
    play_with(rt, server, &mut ann)
}

fn play_with(
    rt: &HostRuntime,
    server: &mut Server<MemoryDisk>,
    ann: &mut Phone,
) -> Result<(), Failure> {
    let mut ben = Phone::new(rt.alloc(), "Ben", [2; 16])?;
    use_both(rt, server, ann, &mut ben)
}

/// What Ann and Ben do.
fn use_both(
    rt: &HostRuntime,
    server: &mut Server<MemoryDisk>,
    ann: &mut Phone,
    ben: &mut Phone,
) -> Result<(), Failure> {
    begin(rt, server, ann, ben)?;
    change_offline(rt, ann, ben)?;
    meet_again(rt, server, ann, ben)
}

/// Ann begins, and Ben gets what she has.
fn begin(
    rt: &HostRuntime,
    server: &mut Server<MemoryDisk>,
    ann: &mut Phone,
    ben: &mut Phone,
) -> Result<(), Failure> {
    let alloc = rt.alloc();
    let mut edits = ann.edits(alloc);
    notes::set_up(&mut edits)?;
    notes::create(&mut edits, 1)?;
    notes::write(alloc, &mut edits, 1, "buy milk")?;
    let edits = edits.finish();
    ann.commit(rt, 1, edits)?;
    ann.sync(rt, server)?;
    ben.sync(rt, server)
}

/// Both are offline, and change the same note.
fn change_offline(rt: &HostRuntime, ann: &mut Phone, ben: &mut Phone) -> Result<(), Failure> {
    let alloc = rt.alloc();
    println!(rt; "offline")?;
    let mut edits = ann.edits(alloc);
    notes::write(alloc, &mut edits, 1, "buy bread")?;
    notes::tag(alloc, &mut edits, 1, "shop")?;
    let edits = edits.finish();
    ann.commit(rt, 10, edits)?;

    let mut edits = ben.edits(alloc);
    notes::write(alloc, &mut edits, 1, "buy oat milk")?;
    notes::tag(alloc, &mut edits, 1, "today")?;
    notes::create(&mut edits, 2)?;
    notes::write(alloc, &mut edits, 2, "call home")?;
    let edits = edits.finish();
    ben.commit(rt, 20, edits)
}

/// Back online, the later text stands on both, and both tags stay.
fn meet_again(
    rt: &HostRuntime,
    server: &mut Server<MemoryDisk>,
    ann: &mut Phone,
    ben: &mut Phone,
) -> Result<(), Failure> {
    println!(rt; "online")?;
    ann.sync(rt, server)?;
    ben.sync(rt, server)?;
    ann.sync(rt, server)?;
    for phone in [&*ann, &*ben] {
        print_note(rt, phone, 1)?;
        print_note(rt, phone, 2)?;
    }
    Ok(())
}
