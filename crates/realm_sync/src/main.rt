//! The program: its words, standard input and output go to the call that runs them, whose answer is the exit number.
#![tactic(auto)]

use std::process::ExitCode;
use sync_cli::{run_program, words};

fn main(rt: HostRuntime) -> ExitCode {
    let exit = match words(&rt) {
        Ok(words) => run_program(&rt, &words, rt.stdin(), rt.stdout()).exit(),
        Err(status) => status.exit(),
    };
    if exit != 0 {
        let _ = eprintln!(rt; "realm_sync: status {exit}");
    }
    ExitCode::from(exit)
}
