//! Listening at ports of this machine and at socket files.

use crate::descriptors::{allowed, needed};
use crate::listener::Listener;
use crate::owned::{beside, push};
use crate::reception::Reception;
use crate::service_error::ServiceError;
use crate::socket_file::listen_at_file;
use imap_options::{Address, Port};
use std::io;
use std::net::{Ipv4Addr, Net, TcpListener, TcpStream};
use std::rt::Files;

/// Listens at all ports and socket files, and then prints a line for each. Fails before the first line if the
/// process may not open as many files as the connections of all ports may need.
pub(crate) fn listen<
    R: Net<Listener = TcpListener, Stream = TcpStream> + Print + Files + AllocGlobal,
>(rt: &R, ports: &[Port]) -> Result<Vec<Reception>, ServiceError> {
    let needed = needed(ports.len(), login_ports(ports));
    if let Some(allowed) = allowed(rt) {
        if allowed < needed {
            return Err(ServiceError::Descriptors { needed, allowed });
        }
    }
    let mut receptions = Vec::new(rt.alloc());
    let opened = open_all(rt, ports, &mut receptions);
    let (_, receptions) = beside(opened, receptions)?;
    let (_, receptions) = beside(print_all(rt, ports), receptions)?;
    Ok(receptions)
}

/// At how many ports clients log in.
fn login_ports(ports: &[Port]) -> usize {
    ports
        .iter()
        .filter(|port| port.credentials.is_some())
        .count()
}

/// Appends a reception for each port.
fn open_all<R: Net<Listener = TcpListener, Stream = TcpStream> + Files + AllocGlobal>(
    rt: &R,
    ports: &[Port],
    receptions: &mut Vec<Reception>,
) -> Result<(), ServiceError> {
    for port in ports {
        let listener = listener(rt, &port.address)?;
        push(receptions, Reception::new(rt.alloc(), listener))?;
    }
    Ok(())
}

fn print_all<R: Print>(rt: &R, ports: &[Port]) -> Result<(), ServiceError> {
    for port in ports {
        print_port(rt, port)?;
    }
    Ok(())
}

fn listener<R: Net<Listener = TcpListener, Stream = TcpStream> + Files>(
    rt: &R,
    address: &Address,
) -> Result<Listener, ServiceError> {
    match address {
        Address::Tcp(number) => Ok(Listener::Tcp(listen_at(rt, *number)?)),
        Address::Unix(path) => Ok(Listener::Unix(listen_at_file(rt, path)?)),
    }
}

/// Listens at a port of this machine alone.
pub fn listen_at<R: Net<Listener = TcpListener, Stream = TcpStream>>(
    rt: &R,
    number: u16,
) -> Result<TcpListener, ServiceError> {
    match TcpListener::bind(rt, (Ipv4Addr::LOCALHOST, number)) {
        Ok(listener) => Ok(listener),
        Err(error) => match error.kind() {
            io::ErrorKind::OutOfMemory => Err(ServiceError::Memory),
            kind => Err(ServiceError::Port { number, kind }),
        },
    }
}

fn print_port<R: Print>(rt: &R, port: &Port) -> Result<(), ServiceError> {
    match println!(rt; "listening {} {}", port.user.as_str(), port.address) {
        Ok(()) => Ok(()),
        Err(error) => match error.kind() {
            io::ErrorKind::OutOfMemory => Err(ServiceError::Memory),
            _ => Err(ServiceError::Output),
        },
    }
}
