//! Socket files: who may connect, what is replaced and what is not, and clients that come in by them.

use crate::peers::{Deed, Unread, Web, done_with};
use imap_options::{MAX_SOCKET_PATH, SocketPath};
use imap_service::{Connection, Listener, ServiceError, SocketFault, listen_at_file};
use std::fs;
use std::io::{self, ErrorKind};
use std::net::{Net, TcpListener, TcpStream};
use std::os::unix::fs::PermissionsExt;
use std::os::unix::net::{UnixListener, UnixStream};
use std::rt::{Clock, Files};
use std::sync::Wait;
use std::time::SystemTime;

/// A path at which there is nothing, in the folder for what may go.
fn new_path<R: Clock + AllocGlobal>(rt: &R, name: &str) -> io::Result<SocketPath> {
    let now = SystemTime::now(rt)?;
    let nanos = match now.duration_since(SystemTime::UNIX_EPOCH) {
        Ok(since) => since.as_nanos(),
        Err(_) => 0,
    };
    let text = format!(in rt.alloc(); "/tmp/imapd-{name}-{nanos}")?;
    match SocketPath::read(text.as_str()) {
        Some(path) => Ok(path),
        None => Err(io::Error::from(ErrorKind::InvalidInput)),
    }
}

/// Listens at the path. The error of another refusal is `Other`.
fn listener<R: Net + Files>(rt: &R, path: &SocketPath) -> io::Result<UnixListener> {
    match listen_at_file(rt, path) {
        Ok(listener) => Ok(listener),
        Err(_) => Err(io::Error::from(ErrorKind::Other)),
    }
}

/// Why the path can't be listened at, if it can't.
fn fault_at<R: Net + Files>(rt: &R, path: &SocketPath) -> Option<SocketFault> {
    match listen_at_file(rt, path) {
        Err(ServiceError::SocketFile { fault, .. }) => Some(fault),
        _ => None,
    }
}

/// What a socket file did.
#[derive(Clone, Copy, Debug, PartialEq, Eq)]
struct Looks {
    mode: u32,
    /// Why it couldn't be listened at a second time.
    second: Option<SocketFault>,
    /// Why it couldn't be listened at once its listener was gone.
    later: Option<SocketFault>,
}

fn observed<R: Net + Files + Clock + AllocGlobal>(rt: &R) -> io::Result<Looks> {
    let path = new_path(rt, "looks")?;
    let first = listener(rt, &path)?;
    let mode = mode_of(rt, &path);
    let second = fault_at(rt, &path);
    drop(first);
    let later = fault_at(rt, &path);
    fs::remove_file(rt, path.as_str())?;
    Ok(Looks {
        mode: mode?,
        second,
        later,
    })
}

fn mode_of<R: Files>(rt: &R, path: &SocketPath) -> io::Result<u32> {
    let metadata = fs::symlink_metadata(rt, path.as_str())?;
    Ok(metadata.permissions().mode() & 0o7777)
}

/// Its owner alone may connect. One that is listened at is left, and one at which nobody listens any more is replaced.
#[test]
fn a_socket_file_is_its_owners(rt: HostRuntime) {
    const WANTED: Looks = Looks {
        mode: 0o600,
        second: Some(SocketFault::InUse),
        later: None,
    };
    match observed(&rt) {
        Ok(looks) => assert!(rt; looks == WANTED, "{looks:?}"),
        Err(error) => panic!(rt; "{error:?}"),
    }
}

/// Why the path of another file can't be listened at, and whether the file is as it was.
fn of_other_file<R: Net + Files + Clock + AllocGlobal>(
    rt: &R,
) -> io::Result<(Option<SocketFault>, bool)> {
    let path = new_path(rt, "other")?;
    fs::write(rt, path.as_str(), "mail")?;
    let fault = fault_at(rt, &path);
    let text = fs::read_to_string(rt, path.as_str())?;
    fs::remove_file(rt, path.as_str())?;
    Ok((fault, text.as_str() == "mail"))
}

#[test]
fn other_files_are_left(rt: HostRuntime) {
    let found = of_other_file(&rt);
    assert!(rt; matches!(found, Ok((Some(SocketFault::NoSocket), true))));
}

#[test]
fn a_socket_file_wants_a_folder(rt: HostRuntime) {
    match SocketPath::read("/tmp/no-such-folder/imapd") {
        Some(path) => assert!(rt; fault_at(&rt, &path) == Some(SocketFault::NoFolder)),
        None => panic!(rt; "no path"),
    }
}

#[test]
fn paths_have_a_limit(rt: HostRuntime) {
    const OCTETS: [u8; MAX_SOCKET_PATH + 1] = [b'/'; MAX_SOCKET_PATH + 1];
    let text = std::str::from_utf8(&OCTETS).unwrap_or("");
    let most = text.get(1..).unwrap_or("");
    assert!(rt; SocketPath::read(text).is_none() && SocketPath::read("").is_none());
    assert!(rt; SocketPath::read(most).is_some_and(|path| path.as_str() == most));
}

/// Does it with one client, who comes in by a socket file.
fn done<
    D: Deed,
    R: Net<Listener = TcpListener, Stream = TcpStream>
        + Files
        + Wait
        + Clock
        + Eprint
        + Sync
        + AllocGlobal,
>(rt: &R, deed: &D) -> io::Result<bool> {
    let path = new_path(rt, "client")?;
    let listener = listener(rt, &path)?;
    let client = UnixStream::connect(rt, path.as_str())?;
    let (stream, _) = listener.accept()?;
    fs::remove_file(rt, path.as_str())?;
    done_with(
        rt,
        deed,
        Listener::from(listener),
        client,
        Connection::from(stream),
    )
}

#[test]
fn clients_of_a_socket_file_are_refused_or_let_go(rt: HostRuntime) {
    assert!(rt; matches!(done(&rt, &Web), Ok(true)));
    assert!(rt; matches!(done(&rt, &Unread), Ok(true)));
}
