//! Workers.
//!
//! Workers are started in a scope, so that one that can't be started is told. `thread::for_each_mut` would
//! run the calls one after another.

use crate::desk::Desk;
use crate::door::Door;
use crate::host::Host;
use crate::seat::Seat;
use imap_dialect::Dialect;
use imap_keeper::Keeper;
use imap_serve::{End, Gate, Moments, ServeError, Watched, serve_in};
use std::alloc::Global;
use std::io::{Read, Write};
use std::slice::IterMut;
use std::sync::Wait;
use std::sync::ledger::Ledger;
use std::thread;
use std::thread::{Scope, Threads};
use thiserror::Error;

/// Why not all workers ran.
#[derive(Clone, Copy, Debug, Error)]
pub enum CrewError {
    #[error("a worker couldn't be started")]
    Start,
}

/// Serves a connection as a session of the seat, told in the dialect. Returns how the session ended.
fn serve_one<
    K: Keeper,
    L: Ledger,
    I: Read + Drop,
    O: Write + Drop,
    C: Moments,
    G: Gate,
    R: Wait,
    T: Dialect,
>(
    rt: &R,
    alloc: Global,
    host: &Host<K, L>,
    seat: &mut Seat<L>,
    connection: (I, O),
    clock: &C,
    gate: &G,
    dialect: &mut T,
    max_octets: u64,
    idle_turns: u64,
) -> Result<End, ServeError> {
    let (input, output) = connection;
    let mut input = Watched::new(input);
    let mut output = Watched::new(output);
    let who = seat.who.try_copy()?;
    let mut desk = Desk { rt, host, seat };
    serve_in(
        rt,
        alloc,
        &mut desk,
        &who,
        clock,
        gate,
        dialect,
        max_octets,
        idle_turns,
        &mut input,
        &mut output,
    )
}

/// Serves the connections of a door one after the other. Each begins in the same state of the dialect.
fn work<K: Keeper, L: Ledger, D: Door, C: Moments, G: Gate, R: Wait, T: Dialect + Copy>(
    rt: &R,
    alloc: Global,
    host: &Host<K, L>,
    post: &mut (Seat<L>, D),
    clock: &C,
    gate: &G,
    dialect: &T,
    max_octets: u64,
    idle_turns: u64,
) {
    for _ in rt.forever() {
        let Some(connection) = post.1.next() else {
            break;
        };
        let mut own = *dialect;
        let end = serve_one(
            rt,
            alloc,
            host,
            &mut post.0,
            connection,
            clock,
            gate,
            &mut own,
            max_octets,
            idle_turns,
        );
        // However it ended, the next one is served.
        post.1.ended(end);
    }
}

/// Starts a worker for a post. Returns whether it could be started.
fn start<
    's,
    'e,
    'r: 's,
    'p: 's,
    K: Keeper + Send,
    L: Ledger + Send + Sync,
    D: Door + Send,
    C: Moments + Sync,
    G: Gate + Sync,
    R: Threads + Wait + Sync,
    T: Dialect + Copy + Sync,
>(
    scope: &Scope<'s, &'e ()>,
    rt: &'r R,
    alloc: Global,
    host: &'r Host<K, L>,
    post: &'p mut (Seat<L>, D),
    clock: &'r C,
    gate: &'r G,
    dialect: &'r T,
    max_octets: u64,
    idle_turns: u64,
) -> bool {
    scope
        .spawn(move || work(
            rt, alloc, host, post, clock, gate, dialect, max_octets, idle_turns,
        ))
        .is_ok()
}

/// Starts a worker for each post, until one can't be started. Returns whether all were started.
fn start_all<
    's,
    'e,
    'r: 's,
    'p: 's,
    K: Keeper + Send,
    L: Ledger + Send + Sync,
    D: Door + Send,
    C: Moments + Sync,
    G: Gate + Sync,
    R: Threads + Wait + Sync,
    T: Dialect + Copy + Sync,
>(
    scope: &Scope<'s, &'e ()>,
    rt: &'r R,
    alloc: Global,
    host: &'r Host<K, L>,
    posts: IterMut<'p, (Seat<L>, D)>,
    clock: &'r C,
    gate: &'r G,
    dialect: &'r T,
    max_octets: u64,
    idle_turns: u64,
) -> bool {
    for post in posts {
        if !start(
            scope, rt, alloc, host, post, clock, gate, dialect, max_octets, idle_turns,
        ) {
            return false;
        }
    }
    true
}

/// Runs a worker for each post, and returns when all doors have ended. A worker serves the connections of its door
/// one after the other, however each ends. The literals of a command may have `max_octets` octets
/// together. A session ends after `idle_turns` reads in a row that brought nothing. Each session is told in the
/// dialect, from the same state on.
///
/// Fails with `Start` if a worker can't be started. The workers that were started have then ended.
pub fn crew<
    K: Keeper + Send,
    L: Ledger + Send + Sync,
    D: Door + Send,
    C: Moments + Sync,
    G: Gate + Sync,
    R: Threads + Wait + Sync,
    T: Dialect + Copy + Sync,
>(
    rt: &R,
    alloc: Global,
    host: &Host<K, L>,
    posts: &mut [(Seat<L>, D)],
    clock: &C,
    gate: &G,
    dialect: &T,
    max_octets: u64,
    idle_turns: u64,
) -> Result<(), CrewError> {
    let each = posts.iter_mut();
    let started = thread::scope(thread::scope_env(), rt, move |scope| {
        start_all(
            scope, rt, alloc, host, each, clock, gate, dialect, max_octets, idle_turns,
        )
    });
    if started {
        Ok(())
    } else {
        Err(CrewError::Start)
    }
}
