ghost use Rattle.std.specs.Prelude.{◌≡◌, ℕ, ◌+◌, ◌≤◌, ◌++◌, [], not, nat_le, Err, None, length, replicate, slice_get, IfOk, IsOk, OnOk, OnErr, ◌↔◌};
ghost use Rattle.life_bytes.specs.Runs.{AreRuns, AreLives, most_runs, most_numbers, lives_of, runs_of, count_of, is_other, are_apart, ends_with, pushed};
ghost use Rattle.life_bytes.specs.declared.runs.RunsRefusal.TheVariants.{Full};

use crate::life::Life;
use crate::run::Run;
use std::alloc::Global;
use std::marker::Model;
use sync_data::NoMemory;

/// The most runs.
pub(crate) const MOST_RUNS: u32 = 4_097;

/// The most numbers that they have together.
const MOST_NUMBERS: u64 = 4_294_967_295;

/// These aren't at most 4,097 runs, each of one number at least and of another life than the one before it, with at most
/// 4,294,967,295 numbers together.
#[derive(Clone, Copy, Debug, PartialEq, Eq)]
pub struct BadRuns;

/// Why numbers weren't added.
#[derive(Clone, Copy, Debug, PartialEq, Eq)]
pub enum RunsRefusal {
    /// It would need a run above 4,097, or a number above 4,294,967,295.
    Full,
    /// Memory ran out.
    NoMemory,
}

/// The lives of numbers in a row, as runs of one life each. Contracts see it as the list of the lives, one for each number.
#[derive(Drop)]
pub struct Runs {
    runs: Vec<Run>,
    count: u32,
}

impl Model for Runs {
    ghost use Rattle.life_bytes.specs.Runs.{Lives, HoldsRuns, lives_of};

    ghost Value = { Lives };

    ghost view = { λ a. lives_of a.runs.items };

    ghost invariant = { λ a. HoldsRuns a.runs.items a.count };
}

impl Runs {
    /// No lives. It takes no memory.
    pub fn new(alloc: Global) -> Runs
        ensures { result ≡ [] }
    {
        Runs {
            runs: Vec::new(alloc),
            count: 0,
        }
    }

    /// The lives that these runs have. It takes no memory.
    pub fn of(runs: Vec<Run>) -> Result<Runs, BadRuns>
        ensures ok { IfOk result (λ made. made ≡ lives_of runs.items) }
        ensures good { IsOk result ↔ AreRuns runs.items }
    {
        if runs.len() > MOST_RUNS as usize || !are_apart(runs.as_slice()) {
            drop(runs);
            return Err(BadRuns);
        }
        let count = count_of(runs.as_slice());
        if count > MOST_NUMBERS {
            drop(runs);
            return Err(BadRuns);
        }
        Ok(Runs {
            runs,
            count: count as u32,
        })
    }

    /// How many numbers there are.
    pub fn len(&self) -> u32
        ensures { result ≡ length self.now }
    {
        let _ = &self.runs;
        self.count
    }

    /// The life of the number at that place, counted from 0; none behind the last.
    pub fn life_of(&self, place: u32) -> Option<Life>
        ensures { result ≡ slice_get self.now place }
    {
        life_at(self.runs.as_slice(), place)
    }

    /// So many more numbers, of that life. Refused, nothing changes.
    pub fn push(&mut self, life: Life, count: u32) -> Result<(), RunsRefusal>
        ensures ok { OnOk result (self.new ≡ self.old ++ replicate count life) }
        ensures err { OnErr result (self.new ≡ self.old) }
        ensures full { result ≡ Err Full → ¬ (AreLives (self.old ++ replicate count life)) }
    {
        if count == 0 {
            return Ok(());
        }
        let left = u32::MAX - self.count;
        if left < count {
            return Err(RunsRefusal::Full);
        }
        if !has_room(self.runs.as_slice(), life) {
            return Err(RunsRefusal::Full);
        }
        match put_lives(&mut self.runs, life, count) {
            Ok(()) => {
                self.count += count;
                Ok(())
            }
            Err(NoMemory) => Err(RunsRefusal::NoMemory),
        }
    }

    /// The fewest runs that have these lives.
    pub fn runs(&self) -> &[Run]
        ensures value { result.now ≡ runs_of self.now }
        ensures lives { self.now ≡ lives_of result.now }
        ensures are { AreLives self.now }
    {
        self.runs.as_slice()
    }
}

/// Whether each has a number or more, and another life than the one before it.
fn are_apart(runs: &[Run]) -> bool
    ensures { result ≡ are_apart None runs.now }
{
    let mut before: Option<Life> = None;
    for run in runs {
        if run.count == 0 || is_same(before, run.life) {
            return false;
        }
        before = Some(run.life);
    }
    true
}

fn is_same(before: Option<Life>, life: Life) -> bool
    ensures { is_other before life ≡ not result }
{
    match before {
        None => false,
        Some(before) => before == life,
    }
}

fn count_of(runs: &[Run]) -> u64
    requires { length runs.now ≤ most_runs }
    ensures { result ≡ count_of runs.now }
{
    let mut count = 0;
    for run in runs {
        count += run.count as u64;
    }
    count
}

/// The life of the number at that place, counted from 0; none behind the last.
pub fn life_at(runs: &[Run], place: u32) -> Option<Life>
    ensures { result ≡ slice_get (lives_of runs.now) place }
{
    let mut left = place;
    for run in runs {
        if left < run.count {
            return Some(run.life);
        }
        left -= run.count;
    }
    None
}

/// Whether there is a last run, and it has that life.
fn ends_with(runs: &[Run], life: Life) -> bool
    ensures { result ≡ ends_with life runs.now }
{
    let count = runs.len();
    if count == 0 {
        return false;
    }
    runs[count - 1].life == life
}

/// Whether 4,097 runs have room for more numbers of this life behind these.
fn has_room(runs: &[Run], life: Life) -> bool
    requires { length runs.now ≤ most_runs }
    ensures { (count : ℕ) → nat_le (length (pushed life count runs.now)) most_runs ≡ result }
{
    if ends_with(runs, life) {
        return true;
    }
    runs.len() < MOST_RUNS as usize
}

/// So many more numbers of this life behind the runs, in one step. After `NoMemory` nothing changed.
pub fn put_lives(runs: &mut Vec<Run>, life: Life, count: u32) -> Result<(), NoMemory>
    requires { count_of runs.old.items + count ≤ most_numbers }
    ensures ok { OnOk result (runs.new.items ≡ pushed life count runs.old.items) }
    ensures err { OnErr result (runs.new.items ≡ runs.old.items) }
{
    if ends_with(runs.as_slice(), life) {
        let last = runs.len() - 1;
        let longer = runs[last].count + count;
        runs[last] = Run {
            count: longer,
            life,
        };
        return Ok(());
    }
    match runs.push(Run { count, life }) {
        Ok(()) => Ok(()),
        Err(_) => Err(NoMemory),
    }
}
