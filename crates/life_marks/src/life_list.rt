ghost use Rattle.std.specs.Prelude.{◌≡◌, ◌-◌, ◌++◌, ◌∷◌, [], Err, length, min, replicate, drop, take, slice_get, OnOk, OnErr};
ghost use Rattle.life_bytes.specs.Runs.{AreLives, lives_of};
ghost use Rattle.life_bytes.specs.declared.runs.RunsRefusal.TheVariants.{Full};

use life_bytes::{Life, Run, Runs, RunsRefusal, life_at, put_lives};
use std::alloc::Global;
use std::marker::Model;
use sync_data::NoMemory;

/// The lives of numbers in a row, as many as there are, counted from 0. Contracts see it as the list of the lives, one for each
/// number.
#[derive(Drop)]
pub struct LifeList {
    runs: Vec<Run>,
    count: u32,
}

impl Model for LifeList {
    ghost use Rattle.std.specs.Prelude.{◌≡◌};
    ghost use Rattle.life_bytes.specs.Runs.{Lives, lives_of, count_of};

    ghost Value = { Lives };

    ghost view = { λ a. lives_of a.runs.items };

    ghost invariant = { λ a. a.count ≡ count_of a.runs.items };
}

impl LifeList {
    /// No lives. It takes no memory.
    pub fn new(alloc: Global) -> LifeList
        ensures { result ≡ [] }
    {
        LifeList {
            runs: Vec::new(alloc),
            count: 0,
        }
    }

    /// How many numbers there are.
    pub fn len(&self) -> u32
        ensures { result ≡ length self.now }
    {
        let _ = &self.runs;
        self.count
    }

    /// The same as runs.
    pub fn runs(&self) -> &[Run]
        ensures { lives_of result.now ≡ self.now }
    {
        self.runs.as_slice()
    }

    /// The life of a number; none behind the last.
    pub fn life_of(&self, number: u32) -> Option<Life>
        ensures { result ≡ slice_get self.now number }
    {
        life_at(self.runs.as_slice(), number)
    }

    /// One more number, of that life. After `NoMemory`, which also comes at 4,294,967,295 numbers, nothing changed.
    pub fn push(&mut self, life: Life) -> Result<(), NoMemory>
        ensures ok { OnOk result (self.new ≡ self.old ++ life ∷ []) }
        ensures err { OnErr result (self.new ≡ self.old) }
    {
        self.push_many(life, 1)
    }

    /// The lives of these runs behind those so far, each run in one step. After `NoMemory`, which also comes where there would be
    /// more than 4,294,967,295 numbers, there may be some of them.
    pub fn extend(&mut self, runs: &[Run]) -> Result<(), NoMemory>
        ensures { OnOk result (self.new ≡ self.old ++ lives_of runs.now) }
    {
        for run in runs {
            self.push_many(run.life, run.count)?;
        }
        Ok(())
    }

    fn push_many(&mut self, life: Life, count: u32) -> Result<(), NoMemory>
        ensures ok { OnOk result (self.new ≡ self.old ++ replicate count life) }
        ensures err { OnErr result (self.new ≡ self.old) }
    {
        if u32::MAX - self.count < count {
            return Err(NoMemory);
        }
        put_lives(&mut self.runs, life, count)?;
        self.count += count;
        Ok(())
    }

    /// Puts the lives of so many numbers, from this one on, behind those runs; of fewer where there are no more. Refused, some of
    /// them may be there.
    pub fn tell(&self, from: u32, count: u32, told: &mut Runs) -> Result<(), RunsRefusal>
        ensures ok { OnOk result (told.new ≡ told.old ++ take count (drop from self.now)) }
        ensures full { result ≡ Err Full → ¬ (AreLives (told.old ++ take count (drop from self.now))) }
    {
        tell(self.runs.as_slice(), from, count, told)
    }
}

fn tell(runs: &[Run], from: u32, count: u32, told: &mut Runs) -> Result<(), RunsRefusal>
    ensures ok { OnOk result (told.new ≡ told.old ++ take count (drop from (lives_of runs.now))) }
    ensures full { result ≡ Err Full → ¬ (AreLives (told.old ++ take count (drop from (lives_of runs.now)))) }
{
    let mut skipped = from;
    let mut left = count;
    for run in runs {
        let here = told_of(run.count, skipped, left);
        match told.push(run.life, here) {
            Ok(()) => {}
            Err(why) => return Err(why),
        }
        skipped = skipped.saturating_sub(run.count);
        left -= here;
    }
    Ok(())
}

/// How many of a run's numbers are told, where so many are still skipped, and so many are left to tell.
fn told_of(count: u32, skipped: u32, left: u32) -> u32
    ensures { result ≡ min (count - skipped) left }
{
    count.saturating_sub(skipped).min(left)
}
