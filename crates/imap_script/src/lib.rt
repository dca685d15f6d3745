//! Scripts: the users, what their sessions do, and the transcript of what each session receives.
#![tactic(auto)]

mod error;
mod exit_status;
mod head;
mod input;
mod line;
mod mailboxes;
mod members;
mod owned;
mod run;
mod scenario;
mod step;
mod transcript;

pub use error::ScriptError;
pub use exit_status::report_script_error;
use imap_keeper::ListKeeper;
pub use input::read_input;
pub use scenario::Scenario;
use std::io::{Read, Write};

/// The most reads of a script's input.
const MAX_READS: u32 = 16_777_216;

/// Reads a script from `input`, runs it over a keeper in memory, and writes its transcript to `output`: a
/// line for each line to a client, with the session before it, as `ann.1 > a1 OK done`.
///
/// The whole script is read before any of it runs. Fails with `Bad` at its first bad line, and then
/// nothing was run. No clause speaks of this: tests show it.
pub fn script<R: AllocGlobal, I: Read + Drop, O: Write + Drop>(
    rt: &R,
    input: I,
    output: O,
) -> Result<(), ScriptError> {
    let alloc = rt.alloc();
    let text = read_input(alloc, input, MAX_READS)?;
    let read = Scenario::read(alloc, text.as_slice());
    drop(text);
    let (scenario, world) = read?;
    let (keeper, ended) = scenario.run(alloc, ListKeeper::new(world), output);
    drop(keeper);
    drop(scenario);
    ended
}
