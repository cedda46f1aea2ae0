use super::failure::Failure;

/// How many cases were tried, and how many came out otherwise.
#[derive(Clone, Copy)]
pub struct Tally {
    tried: u32,
    wrong: u32,
}

impl Tally {
    pub fn new() -> Tally {
        Tally { tried: 0, wrong: 0 }
    }

    /// Counts a case, and prints its name where it came out otherwise.
    pub fn count(&mut self, rt: &HostRuntime, is_right: bool, name: &str) -> Result<(), Failure> {
        self.tried = self.tried.saturating_add(1);
        if !is_right {
            self.wrong = self.wrong.saturating_add(1);
            println!(rt; "otherwise: {name}")?;
        }
        Ok(())
    }
}

/// Prints how many cases of a kind there are.
pub fn tell(rt: &HostRuntime, kind: &str, tally: Tally) -> Result<(), Failure> {
    let Tally { tried, wrong } = tally;
    println!(rt; "{tried} {kind}, {wrong} otherwise")?;
    Ok(())
}
