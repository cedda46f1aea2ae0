//! Words that no line of the data can have: of the command line, and of a refusal that would take 2^32 transactions.
use super::failure::Failure;
use super::tally::Tally;
use std::alloc::Global;
use sync_client::ClientRefusal;
use sync_top::{Job, job_of};
use sync_words::Outcome;

/// Whether the words ask for that job.
fn is_job(alloc: Global, words: &[&str], want: Option<Job>) -> Result<bool, Failure> {
    let mut all = Vec::new(alloc);
    for word in words {
        all.push(word.to_string(alloc)?)?;
    }
    Ok(job_of(&all) == want)
}

/// Tries the words.
pub fn try_all(rt: &HostRuntime) -> Result<Tally, Failure> {
    let alloc = rt.alloc();
    let mut tally = Tally::new();
    let blank = is_job(alloc, &["gen", " 1", "1"], None)?;
    tally.count(rt, blank, "a blank before the seed")?;
    let (seed, count) = (u64::MAX, 100_000);
    let most = ["gen", "18446744073709551615", "100000"];
    let most = is_job(alloc, &most, Some(Job::Generate { seed, count }))?;
    tally.count(rt, most, "the greatest seed and count")?;
    let why = ClientRefusal::NumbersFull;
    let full = Outcome::Declined { why }.line(alloc, 1)?;
    let full = full.as_slice() == b"1 refused NumbersFull\n".as_slice();
    tally.count(rt, full, "refused NumbersFull")?;
    Ok(tally)
}
