//! Connections over TCP.

ghost use Rattle.std.specs.Prelude.{◌≡◌};

use crate::hosts::{new_host, post};
use crate::serving::{IDLE_TICKS, Standing};
use imap_dialect::Standard;
use imap_host::{Door, Host, PARTS, crew};
use imap_keeper::Keeper;
use imap_limits::DEFAULT_LIMITS;
use imap_serve::{End, OpenGate, ServeError};
use std::alloc::Global;
use std::io::{self, Read, Write};
use std::marker::Brand;
use std::net::{Net, SocketAddr, TcpListener, TcpStream};
use std::sync::Wait;
use std::sync::ledger::{Blank, Ledger};
use std::thread;
use std::thread::Threads;

const SENT: &[u8] = b"a1 MYRIGHTS INBOX\r\na2 LOGOUT\r\n";

const WRITTEN: &[u8] =
    b"* MYRIGHTS INBOX lrswipkxtea\r\na1 OK done\r\n* BYE logging out\r\na2 OK done\r\n";

/// A door to a listener, through which one client comes.
#[derive(Drop)]
struct Once {
    listener: Option<TcpListener>,
}

impl Door for Once {
    type In = TcpStream;

    type Out = TcpStream;

    fn next(&mut self) -> Option<(TcpStream, TcpStream)> {
        let listener = self.listener.take()?;
        let (input, _) = listener.accept().ok()?;
        let output = input.try_clone().ok()?;
        Some((input, output))
    }

    fn ended(&mut self, _end: Result<End, ServeError>) {}
}

/// What a client gets who sends a text.
fn asked<R: Net<Stream = TcpStream>>(
    rt: &R,
    alloc: Global,
    addr: SocketAddr,
) -> io::Result<Vec<u8>> {
    let mut stream = TcpStream::connect(rt, addr)?;
    stream.write_all(SENT)?;
    let mut text = Vec::new(alloc);
    stream.read_to_end(&mut text)?;
    Ok(text)
}

/// What a client gets from a crew of one.
fn told<
    K: Keeper + Send,
    L: Ledger + Send + Sync,
    R: Net<Listener = TcpListener, Stream = TcpStream> + Threads + Wait + AllocGlobal + Sync,
>(rt: &R, host: &mut Host<K, L>) -> io::Result<Vec<u8>> {
    let listener = TcpListener::bind(rt, "127.0.0.1:0")?;
    let addr = listener.local_addr()?;
    let door = Once {
        listener: Some(listener),
    };
    let mut posts = post(rt.alloc(), host, "root", door)?;
    let posts = posts.as_mut_slice();
    let alloc = rt.alloc();
    let host = &*host;
    let (told, _ran) = thread::join(
        rt,
        || asked(rt, alloc, addr),
        || crew(
            rt,
            alloc,
            host,
            posts,
            &Standing,
            &OpenGate,
            &Standard,
            DEFAULT_LIMITS.max_octets,
            IDLE_TICKS,
        )
        .is_ok(),
    );
    told
}

/// The same in a new host.
fn told_anew<
    L: Ledger + Send + Sync,
    R: Net<Listener = TcpListener, Stream = TcpStream> + Threads + Wait + AllocGlobal + Sync,
>(rt: &R, blank: Blank) -> io::Result<Vec<u8>>
    requires name { blank.name ≡ L.name }
    requires parts { (blank.parts ≡ L.parts) × (blank.parts ≡ 1048576) }
{
    match new_host::<L>(rt.alloc(), blank) {
        Ok(mut host) => {
            let told = told(rt, &mut host);
            drop(host);
            told
        }
        Err(_) => Err(io::Error::from(io::ErrorKind::OutOfMemory)),
    }
}

#[test]
fn a_client_is_served_over_tcp(rt: HostRuntime) {
    match told_anew::<Brand, HostRuntime>(&rt, Blank::new(PARTS)) {
        Ok(text) => assert!(rt; text.ends_with(WRITTEN)),
        Err(error) => panic!(rt; "{error:?}"),
    }
}
