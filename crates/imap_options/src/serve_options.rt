//! The values of the options of `serve`.

use crate::address::{Address, SocketPath};
use crate::command_line_error::CommandLineError;
use crate::completed::completed;
use crate::config_file::ConfigFile;
use crate::dialect_name::DialectName;
use crate::log_level::LogLevel;
use crate::secret::{SecretFault, SecretFiles, first_line};
use crate::service::{Port, Service};
use clap::ArgMatches;
use imap_limits::{DEFAULT_LIMITS, read_max_messages, read_max_octets, read_number};
use imap_login::Credentials;
use imap_names::UserName;
use imap_rights::Groups;
use imap_world::Limits;
use std::alloc::Global;

/// Reads the options of `serve`.
pub(crate) fn read_service<S: SecretFiles>(
    secrets: &S,
    file: &ConfigFile<'_>,
    found: &ArgMatches<'_>,
) -> Result<Service, CommandLineError> {
    let administrator = read_user(file, "admin", 0, value_of(found, "admin", ""))?;
    let mut service = Service {
        administrator,
        ports: Vec::new(file.alloc()),
        groups: Groups::new(file.alloc()),
        limits: DEFAULT_LIMITS,
        dialect: DialectName::Rev2,
        log: LogLevel::Errors,
    };
    let done = complete(secrets, file, found, &mut service);
    completed(service, done)
}

/// Reads the options of `serve` but for the administrator.
fn complete<S: SecretFiles>(
    secrets: &S,
    file: &ConfigFile<'_>,
    found: &ArgMatches<'_>,
    service: &mut Service,
) -> Result<(), CommandLineError> {
    service.limits = read_limits(file, found)?;
    service.log = read_log(file, value_of(found, "log", "errors"))?;
    service.dialect = read_dialect(file, value_of(found, "dialect", "rev2"))?;
    let texts = found.get_strs("listen").unwrap_or(&[]);
    add_ports(file, texts, &mut service.ports)?;
    let texts = found.get_strs("secret").unwrap_or(&[]);
    add_secrets(secrets, file, texts, service.ports.as_mut_slice())?;
    let texts = found.get_strs("member").unwrap_or(&[]);
    add_members(file, texts, service)?;
    Ok(())
}

/// The value of an option, or `other` if it isn't given.
pub(crate) fn value_of<'a>(found: &ArgMatches<'a>, option: &str, other: &'a str) -> &'a str {
    found.get_str(option).unwrap_or(other)
}

fn read_limits(file: &ConfigFile<'_>, found: &ArgMatches<'_>) -> Result<Limits, CommandLineError> {
    let mut limits = DEFAULT_LIMITS;
    if let Some(text) = found.get_str("max-messages") {
        match read_max_messages(text) {
            Some(number) => limits.max_messages = number,
            None => {
                return Err(file.fault("max-messages", 0, text, "1 to 1000000 are wanted"));
            }
        }
    }
    if let Some(text) = found.get_str("max-octets") {
        match read_max_octets(text) {
            Some(number) => limits.max_octets = number,
            None => {
                return Err(file.fault("max-octets", 0, text, "1 to 1073741824 are wanted"));
            }
        }
    }
    Ok(limits)
}

fn read_log(file: &ConfigFile<'_>, text: &str) -> Result<LogLevel, CommandLineError> {
    match LogLevel::read(text) {
        Some(level) => Ok(level),
        None => Err(file.fault("log", 0, text, "off, errors or connections is wanted")),
    }
}

fn read_dialect(file: &ConfigFile<'_>, text: &str) -> Result<DialectName, CommandLineError> {
    match DialectName::read(text) {
        Some(dialect) => Ok(dialect),
        None => Err(file.fault("dialect", 0, text, "rev1 or rev2 is wanted")),
    }
}

/// Reads the users with their ports. No user is named twice.
fn add_ports(
    file: &ConfigFile<'_>,
    texts: &[&str],
    ports: &mut Vec<Port>,
) -> Result<(), CommandLineError> {
    for (index, text) in texts.iter().enumerate() {
        add_port(file, index, text, ports)?;
    }
    Ok(())
}

/// Reads `NAME=PORT` or `NAME=PATH`.
fn add_port(
    file: &ConfigFile<'_>,
    index: usize,
    text: &str,
    ports: &mut Vec<Port>,
) -> Result<(), CommandLineError> {
    let (name, address) = match split_port(text) {
        Ok(found) => found,
        Err(reason) => return Err(file.fault("listen", index, text, reason)),
    };
    if find_served(name, ports.as_slice()).is_some() {
        return Err(file.fault("listen", index, text, "the user is named before"));
    }
    let user = read_user(file, "listen", index, name)?;
    ports.push(Port {
        user,
        address,
        credentials: None,
    })?;
    Ok(())
}

/// Reads the secrets of users who are served.
fn add_secrets<S: SecretFiles>(
    secrets: &S,
    file: &ConfigFile<'_>,
    texts: &[&str],
    ports: &mut [Port],
) -> Result<(), CommandLineError> {
    for (index, text) in texts.iter().enumerate() {
        add_secret(secrets, file, index, text, ports)?;
    }
    Ok(())
}

/// Reads `NAME=FILE` and the file, and gives the user of this name its secret.
fn add_secret<S: SecretFiles>(
    secrets: &S,
    file: &ConfigFile<'_>,
    index: usize,
    text: &str,
    ports: &mut [Port],
) -> Result<(), CommandLineError> {
    let Some((name, path)) = split_file(text) else {
        return Err(file.fault("secret", index, text, "NAME=FILE is wanted"));
    };
    let Some(port) = find_port(name, ports) else {
        return Err(file.fault("secret", index, text, "this is no user who is served"));
    };
    if port.credentials.is_some() {
        return Err(file.fault("secret", index, text, "the user has a secret before"));
    }
    match read_secret(secrets, file.alloc(), name, path) {
        Ok(credentials) => {
            port.credentials = Some(credentials);
            Ok(())
        }
        Err(SecretFault::Memory) => Err(CommandLineError::Memory),
        Err(SecretFault::Unread(reason)) => Err(file.fault("secret", index, text, reason)),
    }
}

/// The port of the user of this name.
fn find_port<'a>(name: &str, ports: &'a mut [Port]) -> Option<&'a mut Port> {
    let place = ports.iter().position(|port| port.user.as_str() == name)?;
    ports.get_mut(place)
}

/// Returns what clients of this name log in with: the name, and the first line of the file.
fn read_secret<S: SecretFiles>(
    secrets: &S,
    alloc: Global,
    name: &str,
    path: &str,
) -> Result<Credentials, SecretFault> {
    let text = secrets.read(path)?;
    let credentials = credentials_in(alloc, name, text.as_str());
    drop(text);
    credentials
}

/// Returns the name, and the first line of the text.
fn credentials_in(alloc: Global, name: &str, text: &str) -> Result<Credentials, SecretFault> {
    match first_line(text) {
        Some(line) => Ok(Credentials::new(alloc, name.as_bytes(), line.as_bytes())?),
        None => Err(SecretFault::Unread(
            "its first line is no secret: 1 to 1024 octets without NUL are wanted",
        )),
    }
}

/// Reads who is in which groups. Who is named twice in a group is in it once.
fn add_members(
    file: &ConfigFile<'_>,
    texts: &[&str],
    service: &mut Service,
) -> Result<(), CommandLineError> {
    for (index, text) in texts.iter().enumerate() {
        add_member(file, index, text, service)?;
    }
    Ok(())
}

/// Reads `GROUP=NAME`, and puts the user into the group. The group's name ends at the first `=`.
fn add_member(
    file: &ConfigFile<'_>,
    index: usize,
    text: &str,
    service: &mut Service,
) -> Result<(), CommandLineError> {
    let Some((group, name)) = text.split_once('=') else {
        return Err(file.fault("member", index, text, "GROUP=NAME is wanted"));
    };
    let Some(user) = find_user(name, &service.administrator, service.ports.as_slice()) else {
        return Err(file.fault(
            "member",
            index,
            name,
            "this is neither a user who is served nor the administrator",
        ));
    };
    if service.groups.add(file.alloc(), group, user)? {
        Ok(())
    } else {
        Err(file.fault("member", index, group, "this is no name of a group"))
    }
}

/// The administrator or the served user of this name.
fn find_user<'a>(
    name: &str,
    administrator: &'a UserName,
    ports: &'a [Port],
) -> Option<&'a UserName> {
    if administrator.as_str() == name {
        return Some(administrator);
    }
    find_served(name, ports)
}

/// The served user of this name.
fn find_served<'a>(name: &str, ports: &'a [Port]) -> Option<&'a UserName> {
    for port in ports {
        if port.user.as_str() == name {
            return Some(&port.user);
        }
    }
    None
}

/// Splits `NAME=PORT`, or `NAME=PATH` if there is a `/`. The name ends at the last `=`, or at the last one before the
/// first `/`. Fails with what is wanted.
fn split_port(text: &str) -> Result<(&str, Address), &'static str> {
    if text.contains('/') {
        match split_path(text) {
            Some((name, path)) => Ok((name, Address::Unix(path))),
            None => Err("NAME=PATH is wanted, PATH of at most 107 octets"),
        }
    } else {
        match split_number(text) {
            Some((name, number)) => Ok((name, Address::Tcp(number))),
            None => Err("NAME=PORT is wanted, PORT from 1 to 65535"),
        }
    }
}

fn split_number(text: &str) -> Option<(&str, u16)> {
    let (name, number) = text.rsplit_once('=')?;
    let number = read_number(number, 1, u64::from(u16::MAX))?;
    Some((name, number as u16))
}

/// Splits `NAME=FILE`. The name ends at the last `=`, or at the last one before the first `/`.
fn split_file(text: &str) -> Option<(&str, &str)> {
    let (before, _) = text.split_at_checked(text.find('/').unwrap_or(text.len()))?;
    let (name, _) = before.rsplit_once('=')?;
    let (_, path) = text.split_at_checked(name.len().saturating_add(1))?;
    if path.is_empty() {
        return None;
    }
    Some((name, path))
}

/// Splits `NAME=PATH`.
fn split_path(text: &str) -> Option<(&str, SocketPath)> {
    let (name, path) = split_file(text)?;
    Some((name, SocketPath::read(path)?))
}

pub(crate) fn read_user(
    file: &ConfigFile<'_>,
    option: &'static str,
    index: usize,
    name: &str,
) -> Result<UserName, CommandLineError> {
    match UserName::read(file.alloc(), name)? {
        Some(user) => Ok(user),
        None => Err(file.fault(option, index, name, "this is no name of a user")),
    }
}
