//! The bench: does the commands of a job, and says in plain words what came of each.
#![tactic(auto)]

mod answers;
mod input;
mod refusal;
mod words;

use std::process::ExitCode;

// A failure is said once, in the bench's own words.
fn main(rt: HostRuntime) -> ExitCode {
    match input::run(&rt) {
        Ok(()) => ExitCode::SUCCESS,
        Err(e) => {
            let _ = eprintln!(rt; "bench: {e}");
            ExitCode::FAILURE
        }
    }
}
