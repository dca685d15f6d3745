//! A session that loses its mailbox while it idles.

ghost use Rattle.std.specs.Prelude.{◌≡◌};

use crate::connection::WHOLE;
use crate::hosts::{act, make, new_host, seat};
use crate::owned::both;
use crate::serving::{serve_over, session};
use imap_host::{Desk, Host, PARTS, Seat};
use imap_keeper::Keeper;
use imap_serve::{Act, End, OpenGate};
use std::io::{self, ErrorKind, Read};
use std::marker::Brand;
use std::sync::Wait;
use std::sync::ledger::{Blank, Ledger};

const SENT: &[u8] = b"b1 SELECT Shared/News\r\nb2 IDLE\r\n";

const TAKEN: &[u8] = b"r1 SETACL Shared/News bob l\r\n";

const WRITTEN: &[u8] = b"+ idling\r\n* BYE selected mailbox is no longer available\r\n";

/// Sends a text, and then nothing. After `quiet` reads that bring nothing root takes bob's right
/// away in the next one.
#[derive(Drop)]
struct Taking<'a, K: Keeper, L: Ledger, R: Wait + AllocGlobal> {
    rt: &'a R,
    host: &'a Host<K, L>,
    root: &'a mut Seat<L>,
    text: &'a [u8],
    quiet: u32,
}

impl<'a, K: Keeper, L: Ledger, R: Wait + AllocGlobal> Read for Taking<'a, K, L, R> {
    fn read(&mut self, buf: &mut [u8]) -> io::Result<usize> {
        if self.text.is_empty() {
            if self.quiet == 0 {
                drop(make(self.rt, self.host, self.root, Ok(Act::Open)));
                let taken = act(self.rt.alloc(), TAKEN);
                drop(make(self.rt, self.host, self.root, taken));
            }
            self.quiet = self.quiet.saturating_sub(1);
            return Err(io::Error::from(ErrorKind::WouldBlock));
        }
        let count = self.text.len().min(buf.len());
        buf[..count].copy_from_slice(&self.text[..count]);
        self.text = &self.text[count..];
        Ok(count)
    }
}

/// Serves bob while root takes his right away. Whether he is told so, and his session is closed.
fn tells_bob<K: Keeper, L: Ledger, R: Wait + AllocGlobal>(
    rt: &R,
    host: &Host<K, L>,
    root: &mut Seat<L>,
    seat: &mut Seat<L>,
    quiet: u32,
) -> bool {
    let Ok(who) = session(rt.alloc(), "bob") else {
        return false;
    };
    let input = Taking {
        rt,
        host,
        root,
        text: SENT,
        quiet,
    };
    let mut desk = Desk { rt, host, seat };
    let served = serve_over(rt, &mut desk, &who, &OpenGate, input, WHOLE);
    drop(who);
    served.end == Ok(End::Closed) && served.written.ends_with(WRITTEN)
}

/// The same with new seats.
fn tells_new_seat<K: Keeper, L: Ledger, R: Wait + AllocGlobal>(
    rt: &R,
    host: &mut Host<K, L>,
    quiet: u32,
) -> bool {
    let root = seat(rt.alloc(), host, "root");
    match both(root, seat(rt.alloc(), host, "bob")) {
        Ok((mut root, mut bob)) => {
            let told = tells_bob(rt, host, &mut root, &mut bob, quiet);
            drop(root);
            drop(bob);
            told
        }
        Err(_) => false,
    }
}

/// The same in a new host.
fn told<L: Ledger, R: Wait + AllocGlobal>(rt: &R, blank: Blank, quiet: u32) -> bool
    requires name { blank.name ≡ L.name }
    requires parts { (blank.parts ≡ L.parts) × (blank.parts ≡ 1048576) }
{
    match new_host::<L>(rt.alloc(), blank) {
        Ok(mut host) => {
            let told = tells_new_seat(rt, &mut host, quiet);
            drop(host);
            told
        }
        Err(_) => false,
    }
}

#[test]
fn an_idling_session_loses_its_mailbox(rt: HostRuntime) {
    for quiet in 0..2 {
        let told = told::<Brand, HostRuntime>(&rt, Blank::new(PARTS), quiet);
        assert!(rt; told, "after {quiet} reads");
    }
}
