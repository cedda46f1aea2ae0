use marked_client::{MarkedRefusal, Taken};
use std::alloc::Global;
use sync_client::ClientRefusal;
use sync_data::NoMemory;
use sync_io::Status;
use sync_words::{Outcome, put, put_number, put_said};

/// The line of an outcome of today.
pub(crate) fn say(alloc: Global, number: u32, outcome: &Outcome) -> Result<Vec<u8>, Status> {
    told(outcome.line(alloc, number))
}

pub(crate) fn told(line: Result<Vec<u8>, NoMemory>) -> Result<Vec<u8>, Status> {
    match line {
        Ok(line) => Ok(line),
        Err(NoMemory) => Err(Status::NoMemory),
    }
}

/// The line of what came of an answer.
pub(crate) fn say_taken(alloc: Global, number: u32, taken: Taken) -> Result<Vec<u8>, Status> {
    match taken {
        Taken::Cursor(cursor) => say(alloc, number, &Outcome::Took { cursor }),
        Taken::GivenUp(given) => {
            let line = line_of(alloc, number, "given up", &[given.numbers().len() as u64]);
            drop(given);
            told(line)
        }
    }
}

/// The line of why a client of today refuses. One whose disk failed or that found no memory says nothing more.
pub(crate) fn decline(alloc: Global, number: u32, why: ClientRefusal) -> Result<Vec<u8>, Status> {
    match why {
        ClientRefusal::DiskFault => Err(Status::DiskFault),
        ClientRefusal::NoMemory | ClientRefusal::Closed => Err(Status::NoMemory),
        why => say(alloc, number, &Outcome::Declined { why }),
    }
}

/// The line of why a client with lives refuses (docs/formats/lives.md, "Commands with a life").
pub(crate) fn refuse(alloc: Global, number: u32, why: MarkedRefusal) -> Result<Vec<u8>, Status> {
    let line = match why {
        MarkedRefusal::Client(why) => return decline(alloc, number, why),
        MarkedRefusal::NoLife => line_of(alloc, number, "refused NoLife", &[]),
        MarkedRefusal::NoLives => line_of(alloc, number, "refused NoLives", &[]),
        MarkedRefusal::OtherHistory => line_of(alloc, number, "refused OtherHistory", &[]),
        MarkedRefusal::Diverged { version } => {
            line_of(alloc, number, "refused Diverged", &[version as u64])
        }
        MarkedRefusal::FileForked { number: last } => {
            line_of(alloc, number, "refused FileForked", &[last as u64])
        }
        MarkedRefusal::AlreadySaved => line_of(alloc, number, "refused AlreadySaved", &[]),
        MarkedRefusal::FrontierTooLong => line_of(alloc, number, "refused FrontierTooLong", &[]),
        MarkedRefusal::TooMany => line_of(alloc, number, "refused TooMany", &[]),
        MarkedRefusal::Broken => line_of(alloc, number, "refused Broken", &[]),
    };
    told(line)
}

pub(crate) fn line_of(
    alloc: Global,
    number: u32,
    words: &str,
    numbers: &[u64],
) -> Result<Vec<u8>, NoMemory> {
    let mut out = Vec::new(alloc);
    put_number(alloc, &mut out, number as u64)?;
    put(&mut out, " ")?;
    put_said(alloc, &mut out, words, numbers)?;
    put(&mut out, "\n")?;
    Ok(out)
}
