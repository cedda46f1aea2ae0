//! The text of lives, runs, tokens and saves.
use crate::failure::Failure;
use life_bytes::{Life, Runs, Saves, Token};
use std::alloc::Global;

/// The 32 digits of a life.
pub fn life_text(alloc: Global, life: Life) -> Result<String, Failure> {
    Ok(hex::encode(alloc, life.bytes().as_slice())?)
}

/// The digits of a life, a colon and a number.
pub fn token_text(alloc: Global, token: Token) -> Result<String, Failure> {
    let life = life_text(alloc, token.life())?;
    Ok(format!(in alloc; "{life}:{}", token.number())?)
}

/// A token, and those of its frontier behind signs `<`.
pub fn saves_text(alloc: Global, saves: &Saves) -> Result<String, Failure> {
    let mut text = token_text(alloc, saves.token())?;
    for token in saves.frontier() {
        let token = token_text(alloc, *token)?;
        write!(text, "<{token}")?;
    }
    Ok(text)
}

/// A bracket for each run, with its length and its life.
pub fn runs_text(alloc: Global, runs: &Runs) -> Result<String, Failure> {
    let mut text = String::new(alloc);
    for run in runs.runs() {
        let life = life_text(alloc, run.life)?;
        write!(text, " [{} {life}]", run.count)?;
    }
    Ok(text)
}
