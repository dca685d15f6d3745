//! Scripts run over keepers of every kind, and what is reported of them.
//!
//! [`write_transcripts`] runs each script over a keeper in memory and over a database. It also runs scripts whose
//! database's files fail, over databases that were changed by SQL, and over those whose octets are given.
#![tactic(auto)]

mod comparing_keeper;
mod database;
mod faults;
mod file;
mod filling;
mod owned;
mod past_runs;
mod running;
mod script_row;
mod stops;
mod stored;
mod transcripts;

pub use transcripts::write_transcripts;
