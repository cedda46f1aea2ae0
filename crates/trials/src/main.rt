//! Tries all cases of the crates of cases and of tests, those of its folder `data/` among them. It prints how many there are of each
//! kind, each that comes out otherwise, and at the end the words that it knows.
//!
//! With the word `growth` it runs one case alone, of `merge_cases`, and with `notes` the application `notes_example`.
#![tactic(auto)]

use std::process::ExitCode;
use sync_cli::words;

fn main(rt: HostRuntime) -> ExitCode {
    match words(&rt) {
        Ok(words) if tries(&rt, &words) => ExitCode::SUCCESS,
        _ => ExitCode::FAILURE,
    }
}

/// Whether what the words ask for is done, and all that was tried holds.
fn tries(rt: &HostRuntime, words: &[String]) -> bool {
    match words {
        [] => try_cases(rt),
        [word] if word.as_str() == "growth" => {
            merge_cases::each_item_lives_while_its_list_has_it(rt.alloc())
        }
        [word] if word.as_str() == "notes" => notes_example::run(rt),
        _ => false,
    }
}

fn try_cases(rt: &HostRuntime) -> bool {
    let mut all = program_cases::try_all(rt);
    all &= format_cases::try_all(rt);
    all &= merge_cases::try_all(rt);
    all &= notes_example::run(rt);
    all &= tell(rt, "nodes", &node_tests::cases(rt.alloc()));
    all &= tell(
        rt,
        "applications",
        &node_tests::cases_of_applications(rt.alloc()),
    );
    all &= tell(rt, "devices", &device_tests::cases(rt));
    all &= tell(rt, "parts", &merge_cases::cases(rt.alloc()));
    all & println!(rt; "words: growth, notes").is_ok()
}

/// Prints how many cases there are about something, and each that came out otherwise. Whether none did.
fn tell(rt: &HostRuntime, about: &str, cases: &[(&str, bool)]) -> bool {
    let mut wrong = 0u32;
    for (name, is_right) in cases {
        if !*is_right {
            wrong = wrong.saturating_add(1);
            let _ = println!(rt; "otherwise: {name}");
        }
    }
    let count = cases.len();
    println!(rt; "{count} cases of {about}, {wrong} otherwise").is_ok() && wrong == 0
}
