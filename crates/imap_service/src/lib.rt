//! Serving users at ports and socket files, each at one of their own.
//!
//! [`run`] serves the users of a service from what a keeper keeps: a thread for each port receives its clients
//! ([`Reception`]), and a worker for each seat takes one after the other ([`PortDoor`], [`ClientDoor`]). A client that
//! is to log in does so before it gets a worker ([`PendingLogins`]). A connection whose first line is no command of
//! IMAP is ended ([`GuardedStream`], [`FirstLine`]). A worker whose session idles waits for its connection and for its
//! waker ([`WakeableStream`], [`IdleWakers`]), which wakes it when another session changed something. [`Report`] says
//! on standard error what happens, and waits for nobody who reads it. [`report_misuse`] and [`report_service_error`]
//! return exit statuses of the program.
#![tactic(auto)]

mod accept_faults;
mod arrival;
mod client_door;
mod command_words;
mod connection;
mod descriptors;
mod exit_status;
mod first_line;
mod greetings;
mod guarded_stream;
mod idle_ticks;
mod idle_waker;
pub mod laws;
mod listener;
mod listening;
mod log_tail;
mod notify_on_change;
mod owned;
mod pending_login;
mod pending_logins;
mod port_door;
mod private_files;
mod reception;
mod refusing;
mod report;
mod reporting_keeper;
mod service_error;
mod serving;
mod shared_stream;
mod socket_file;
mod standard_error;
mod store_table;
mod system_clock;
mod wakeable_stream;
mod wrong_logins;

pub use accept_faults::AcceptFaults;
pub use client_door::ClientDoor;
pub use connection::Connection;
pub use descriptors::{needed, read_limit};
pub use exit_status::{
    report_file_fault, report_misuse, report_service_error, report_store_fault, report_version,
};
pub use first_line::{FirstLine, Opening};
pub use guarded_stream::GuardedStream;
pub use idle_ticks::{IdleTicks, TICKS_PER_SECOND};
pub use idle_waker::{IdleWaker, IdleWakers};
pub use listener::Listener;
pub use listening::listen_at;
pub use log_tail::{LogLook, look_at, look_at_log, report_unread};
pub use pending_logins::{LoginPort, MAX_LOGINS, PendingLogins};
pub use port_door::{PortDoor, Receptionist};
pub use private_files::{MadeFiles, cut_log, make_missing, make_private, remove_made};
pub use reception::{Reception, SEATS};
pub use report::Report;
pub use service_error::{ServiceError, SocketFault, StoreFault};
pub use serving::{IDLE_TICKS, count_messages, posts, run, serve_in};
pub use shared_stream::SharedStream;
pub use socket_file::listen_at_file;
pub use store_table::StoreTable;
pub use wakeable_stream::WakeableStream;
pub use wrong_logins::WrongLogins;
