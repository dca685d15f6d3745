//! Listening at socket files.
//!
//! A socket file gets its mode before it gets its name, so that at no moment others than its owner can connect to it.
//! `std` makes one and gives it its mode afterwards, hence `libc`.

use crate::private_files::OWNER_ALONE;
use crate::service_error::{ServiceError, SocketFault};
use imap_options::SocketPath;
use libc::fchmod;
use libc::net::listen;
use std::fs;
use std::io::{self, ErrorKind};
use std::net::Net;
use std::os::fd::{AsFd, AsRawFd};
use std::os::unix::fs::FileTypeExt;
use std::os::unix::net::{SocketAddr, UnixListener};
use std::rt::Files;

/// The number of connections that may wait to be accepted: as many as the system allows.
const BACKLOG: i32 = i32::MAX;

/// Listens at a socket file to which its owner alone may connect. Makes it, in a folder that is there. Replaces one at
/// which nobody listens, and no other file.
pub fn listen_at_file<R: Net + Files>(
    rt: &R,
    path: &SocketPath,
) -> Result<UnixListener, ServiceError> {
    match make_room(rt, path) {
        Ok(()) => match bind(rt, path) {
            Ok(listener) => Ok(listener),
            Err(error) => Err(fault(path, &error)),
        },
        Err(error) => Err(error),
    }
}

/// Removes the socket file of a program that has ended.
fn make_room<R: Net + Files>(rt: &R, path: &SocketPath) -> Result<(), ServiceError> {
    match fs::symlink_metadata(rt, path.as_str()) {
        Ok(metadata) if metadata.file_type().is_socket() => match is_stale(rt, path) {
            Ok(true) => remove(rt, path),
            Ok(false) => Err(refused(path, SocketFault::InUse)),
            Err(error) => Err(fault(path, &error)),
        },
        Ok(_) => Err(refused(path, SocketFault::NoSocket)),
        Err(error) if error.kind() == ErrorKind::NotFound => Ok(()),
        Err(error) => Err(fault(path, &error)),
    }
}

/// Whether nobody listens at a socket file. A listener with no room for one more is one all the same.
fn is_stale<R: Net>(rt: &R, path: &SocketPath) -> io::Result<bool> {
    match mio::net::UnixStream::connect(rt, path.as_str()) {
        Ok(_) => Ok(false),
        Err(error) => match error.kind() {
            ErrorKind::ConnectionRefused | ErrorKind::NotFound => Ok(true),
            ErrorKind::WouldBlock => Ok(false),
            _ => Err(error),
        },
    }
}

fn remove<R: Files>(rt: &R, path: &SocketPath) -> Result<(), ServiceError> {
    match fs::remove_file(rt, path.as_str()) {
        Ok(()) => Ok(()),
        Err(error) if error.kind() == ErrorKind::NotFound => Ok(()),
        Err(error) => Err(fault(path, &error)),
    }
}

/// Makes a socket file, and listens at it.
fn bind<R: Net + Files>(rt: &R, path: &SocketPath) -> io::Result<UnixListener> {
    let address = SocketAddr::from_pathname(path.as_str())?;
    let socket = rt.unix_socket()?;
    if fchmod(socket.as_raw_fd(), OWNER_ALONE) != 0 {
        return Err(io::Error::from(ErrorKind::PermissionDenied));
    }
    rt.bind_unix(socket.as_fd(), &address)?;
    if listen(socket.as_raw_fd(), BACKLOG) != 0 {
        return Err(io::Error::from(ErrorKind::AddrInUse));
    }
    Ok(UnixListener::from(socket))
}

/// Why a call failed.
fn fault(path: &SocketPath, error: &io::Error) -> ServiceError {
    match error.kind() {
        ErrorKind::OutOfMemory => ServiceError::Memory,
        ErrorKind::AddrInUse => refused(path, SocketFault::InUse),
        ErrorKind::NotFound => refused(path, SocketFault::NoFolder),
        kind => refused(path, SocketFault::Other(kind)),
    }
}

fn refused(path: &SocketPath, fault: SocketFault) -> ServiceError {
    ServiceError::SocketFile { path: *path, fault }
}
