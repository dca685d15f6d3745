//! Tests of what no script of `imap_transcripts` has.
//!
//! Of what is read from clients and printed for them: frames and streams that no client sends, requests that are
//! written, calls that no command makes, the texts of errors, the dialect of IMAP4rev1, mailboxes as folders of messages.
//! Of what serves users: notices of the machine, sessions over connections, sessions side by side, hosts that end
//! with their seats, idling sessions that are woken, clients that log in, and scripts, command lines and exit statuses
//! of the program.
//!
//! They stand in one crate of their own, since a crate that has tests is proved twice: once without and
//! once with them. Without them it is a library that has nothing.
#![tactic(auto)]

#[cfg(test)]
mod before_serving;
#[cfg(test)]
mod broken_connections;
#[cfg(test)]
mod command_lines;
#[cfg(test)]
mod config_files;
#[cfg(test)]
mod connection;
#[cfg(test)]
mod dialects;
#[cfg(test)]
mod doors;
#[cfg(test)]
mod faulty_room;
#[cfg(test)]
mod framing;
#[cfg(test)]
mod grammar;
#[cfg(test)]
mod hosts;
#[cfg(test)]
mod idle_wakes;
#[cfg(test)]
mod idling_sessions;
#[cfg(test)]
mod lasting;
#[cfg(test)]
mod laws;
#[cfg(test)]
mod leaving;
#[cfg(test)]
mod logins;
#[cfg(test)]
mod mailbox;
#[cfg(test)]
mod maildirs;
#[cfg(test)]
mod mime;
#[cfg(test)]
mod modseq;
#[cfg(test)]
mod notices;
#[cfg(test)]
mod owned;
#[cfg(test)]
mod peers;
#[cfg(test)]
mod printing;
#[cfg(test)]
mod rev1;
#[cfg(test)]
mod scripts;
#[cfg(test)]
mod serving;
#[cfg(test)]
mod settling;
#[cfg(test)]
mod shut_gates;
#[cfg(test)]
mod side_by_side;
#[cfg(test)]
mod socket_files;
#[cfg(test)]
mod sockets;
#[cfg(test)]
mod spoken_dialects;
#[cfg(test)]
mod store_refusals;
#[cfg(test)]
mod texts;
#[cfg(test)]
mod told_scenes;
#[cfg(test)]
mod wanted;
