//! Command lines, and the statuses with which the program ends.

use crate::wanted::{expect, expect_text};
use imap_keeper::RowFault;
use imap_options::{
    CommandLineError, DialectName, LayoutName, LogLevel, SecretFault, SecretFiles, Service, Task,
    read_words,
};
use imap_script::{ScriptError, report_script_error};
use imap_service::{ServiceError, StoreFault, StoreTable, report_misuse, report_service_error};
use std::alloc::{AllocError, Global};
use std::io::ErrorKind;
use std::process::{Abort, ExitCode};

pub(crate) fn words(alloc: Global, texts: &[&str]) -> Result<Vec<String>, AllocError> {
    let mut words = Vec::new(alloc);
    for text in texts {
        words.push(String::from_str(alloc, text)?)?;
    }
    Ok(words)
}

/// Files of secrets: two with one, and three without.
#[derive(Drop)]
pub(crate) struct Kept {
    pub(crate) alloc: Global,
}

impl SecretFiles for Kept {
    fn read(&self, path: &str) -> Result<String, SecretFault> {
        match path {
            "s3cret" | "/s=3" => Ok(String::from_str(self.alloc, "s3cret\r\nmore\n")?),
            "empty" => Ok(String::new(self.alloc)),
            "blank" => Ok(String::from_str(self.alloc, "\ns3cret\n")?),
            "nul" => Ok(String::from_str(self.alloc, "s3\0cret\n")?),
            _ => Err(SecretFault::Unread("there is no such file")),
        }
    }
}

/// What these words ask for.
pub(crate) fn task(alloc: Global, texts: &[&str]) -> Result<Task, CommandLineError> {
    match words(alloc, texts) {
        Ok(words) => read_words(alloc, &Kept { alloc }, &words),
        Err(_) => Err(CommandLineError::Memory),
    }
}

/// The database, the administrator, the limits, and the users with their ports.
fn shown_service(alloc: Global, database: &str, service: &Service) -> Result<Vec<u8>, AllocError> {
    let limits = service.limits;
    let name = service.administrator.as_str();
    let mut text = format!(in alloc;
        "{database} {name} {} {}",
        limits.max_messages, limits.max_octets
    )?;
    if service.log == LogLevel::Connections {
        text.push_str(" connections")?;
    }
    if service.dialect == DialectName::Rev1 {
        text.push_str(" rev1")?;
    }
    for port in &service.ports {
        let shown = format!(in alloc; " {}={}", port.user.as_str(), port.address)?;
        text.push_str(shown.as_str())?;
        if port.credentials.is_some() {
            text.push_str(" secret")?;
        }
    }
    Ok(text.into_bytes())
}

fn shown(alloc: Global, texts: &[&str]) -> Result<Vec<u8>, AllocError> {
    shown_task(alloc, task(alloc, texts))
}

/// What is asked for, or that nothing is.
pub(crate) fn shown_task(
    alloc: Global,
    task: Result<Task, CommandLineError>,
) -> Result<Vec<u8>, AllocError> {
    let text = match &task {
        Ok(task) => text_of(alloc, task),
        Err(_) => Vec::from_slice(alloc, b"none"),
    };
    drop(task);
    text
}

fn text_of(alloc: Global, task: &Task) -> Result<Vec<u8>, AllocError> {
    match task {
        Task::Check(database) => octets_of(format!(in alloc; "check {database}")),
        Task::Dump { database, folder } => octets_of(format!(in alloc; "dump {database} {folder}")),
        Task::Load {
            database,
            folder,
            administrator,
            layout,
        } => shown_load(
            alloc,
            database.as_str(),
            folder.as_str(),
            administrator.as_str(),
            *layout,
        ),
        Task::Script => Vec::from_slice(alloc, b"script"),
        Task::Version => Vec::from_slice(alloc, b"version"),
        Task::Serve { database, service } => shown_service(alloc, database.as_str(), service),
    }
}

fn shown_load(
    alloc: Global,
    database: &str,
    folder: &str,
    administrator: &str,
    layout: LayoutName,
) -> Result<Vec<u8>, AllocError> {
    let layout = match layout {
        LayoutName::Recognised => "",
        LayoutName::Dump => " dump",
        LayoutName::Maildirpp => " maildir++",
    };
    octets_of(format!(in alloc; "load {database} {folder} {administrator}{layout}"))
}

fn octets_of(text: Result<String, AllocError>) -> Result<Vec<u8>, AllocError> {
    Ok(text?.into_bytes())
}

#[test]
fn reads_command_lines(rt: HostRuntime) {
    const ROWS: &[(&[&str], &[u8])] = &[
        (&["imapd", "script"], b"script"),
        (&["imapd", "--version"], b"version"),
        (&["imapd", "check", "--db", "mail.db"], b"check mail.db"),
        (
            &["imapd", "dump", "--to", "mail", "--db", "mail.db"],
            b"dump mail.db mail",
        ),
        (
            &[
                "imapd",
                "load",
                "--from=mail",
                "--db=mail.db",
                "--admin=root",
            ],
            b"load mail.db mail root",
        ),
        (
            &[
                "imapd",
                "load",
                "--from=mail",
                "--db=mail.db",
                "--admin=root",
                "--layout=maildir++",
            ],
            b"load mail.db mail root maildir++",
        ),
        (
            &[
                "imapd", "serve", "--db", "mail.db", "--admin", "root", "--listen", "ann=1143",
            ],
            b"mail.db root 100000 33554432 ann=1143",
        ),
        (
            &[
                "imapd",
                "serve",
                "--listen",
                "a=b=1",
                "--max-octets",
                "1073741824",
                "--admin",
                "root",
                "--listen=root=065535",
                "--max-messages=1",
                "--log=connections",
                "--dialect=rev1",
                "--db=/x y",
            ],
            b"/x y root 1 1073741824 connections rev1 a=b=1 root=65535",
        ),
        (
            &[
                "imapd",
                "serve",
                "--db=x",
                "--admin=root",
                "--listen=ann=1143",
                "--listen=a=b=1144",
                "--member=staff=ann",
                "--member=staff=ann",
                "--member=staff=a=b",
                "--member=x-y=root",
                "--member=\u{e9}=root",
            ],
            b"x root 100000 33554432 ann=1143 a=b=1144",
        ),
        (
            &[
                "imapd",
                "serve",
                "--db=x",
                "--admin=root",
                "--listen=ann=/run/ann=1",
                "--listen=a=b=./c",
                "--listen=bob=1143",
            ],
            b"x root 100000 33554432 ann=/run/ann=1 a=b=./c bob=1143",
        ),
        (
            &[
                "imapd",
                "serve",
                "--db=x",
                "--admin=root",
                "--listen=ann=1",
                "--listen=a=b=2",
                "--listen=bob=3",
                "--secret=a=b=/s=3",
                "--secret=ann=s3cret",
            ],
            b"x root 100000 33554432 ann=1 secret a=b=2 secret bob=3",
        ),
        (
            &[
                "imapd",
                "serve",
                "--db=x",
                "--admin=root",
                "--listen=ann=1",
                "--secret=ann=s3cret",
                "--dialect=rev1",
            ],
            b"x root 100000 33554432 rev1 ann=1 secret",
        ),
    ];
    for &(texts, wanted) in ROWS {
        expect(&rt, shown(rt.alloc(), texts), wanted);
    }
}

/// Asserts that these words are refused with the status 2, by the parser if `by_parser`.
fn check_refused(rt: &(impl Abort + Eprint), alloc: Global, texts: &[&str], by_parser: bool) {
    match task(alloc, texts).err() {
        None => panic!(rt; "{texts:?}"),
        Some(error) => {
            let is_usage = matches!(&error, CommandLineError::Usage(_));
            let status = report_misuse(rt, &error);
            drop(error);
            assert!(rt;
                is_usage == by_parser && status == ExitCode::from(2),
                "{texts:?}"
            );
        }
    }
}

#[test]
fn refuses_command_lines(rt: HostRuntime) {
    const ROWS: &[(&[&str], bool)] = &[
        (&["imapd", "frob"], true),
        (&["imapd", "script", "x"], true),
        (&["imapd", "check"], true),
        (&["imapd", "dump", "--db", "x"], true),
        (&["imapd", "load", "--db", "x", "--from", "y"], true),
        (
            &["imapd", "load", "--db=x", "--from=y", "--admin=a/b"],
            false,
        ),
        (
            &[
                "imapd",
                "load",
                "--db=x",
                "--from=y",
                "--admin=a",
                "--layout=fs",
            ],
            false,
        ),
        (&["imapd", "check", "--db", "x", "--admin", "ann"], true),
        (&["imapd", "--help"], true),
        (&["imapd", "help"], true),
        (&["imapd"], false),
        (&["imapd", "serve", "--db=x", "--admin=root"], true),
        (&["imapd", "serve", "--db=x", "--listen=ann=1143"], true),
        (
            &["imapd", "serve", "--admin=root", "--listen=ann=1143"],
            true,
        ),
        (
            &[
                "imapd",
                "serve",
                "--db=x",
                "--admin=root",
                "--listen=ann=1143",
                "--listen=ann=1144",
            ],
            false,
        ),
        (
            &[
                "imapd",
                "serve",
                "--db=x",
                "--admin=anyone",
                "--listen=ann=1143",
            ],
            false,
        ),
        (
            &["imapd", "serve", "--db=x", "--admin=", "--listen=ann=1143"],
            false,
        ),
    ];
    for &(texts, by_parser) in ROWS {
        check_refused(&rt, rt.alloc(), texts, by_parser);
    }
}

/// Options, of which each is refused beside `--admin root --listen ann=1143`.
#[test]
fn refuses_options(rt: HostRuntime) {
    const ROWS: &[&str] = &[
        "--log=all",
        "--log=",
        "--listen=bob",
        "--listen=bob=",
        "--listen=bob=0",
        "--listen=bob=65536",
        "--listen=bob=x",
        "--listen==1144",
        "--listen=anyone=1144",
        "--listen=/x",
        "--listen==/x",
        "--listen=bob=/x\0",
        "--max-messages=0",
        "--max-messages=1000001",
        "--max-octets=0",
        "--max-octets=1073741825",
        "--member=staff",
        "--member=staff=bob",
        "--member=staff=",
        "--member==ann",
        "--member=anyone=ann",
        "--member=a/b=ann",
        "--member=-x=ann",
        "--member=e\u{301}=ann",
        "--secret=s3cret",
        "--secret=ann=",
        "--secret==s3cret",
        "--secret=root=s3cret",
        "--secret=ann=none",
        "--secret=ann=empty",
        "--secret=ann=blank",
        "--secret=ann=nul",
    ];
    for &option in ROWS {
        let texts = [
            "imapd",
            "serve",
            "--db=x",
            "--admin=root",
            "--listen=ann=1143",
            option,
        ];
        check_refused(&rt, rt.alloc(), &texts, false);
    }
}

#[test]
fn ends_with_a_status(rt: HostRuntime) {
    const ROWS: [(ScriptError, u8); 3] = [
        (ScriptError::Bad { line: 3 }, 2),
        (ScriptError::Io, 3),
        (ScriptError::Memory, 4),
    ];
    for (error, status) in &ROWS {
        assert!(rt; report_script_error(&rt, error) == ExitCode::from(*status));
    }
    assert!(rt; report_misuse(&rt, &CommandLineError::Memory) == ExitCode::from(4));
    const ENDS: &[(ServiceError, u8)] = &[
        (ServiceError::Output, 3),
        (ServiceError::NoConnection, 3),
        (
            ServiceError::Port {
                number: 1143,
                kind: ErrorKind::AddrInUse,
            },
            3,
        ),
        (
            ServiceError::Descriptors {
                needed: 65,
                allowed: 64,
            },
            3,
        ),
        (ServiceError::Memory, 4),
        (ServiceError::Store(StoreFault::InUse), 5),
        (ServiceError::Store(StoreFault::Missing), 5),
        (ServiceError::Store(StoreFault::OtherTables), 5),
        (
            ServiceError::Store(StoreFault::Row {
                table: StoreTable::Message,
                row: 3,
                fault: RowFault::Value,
            }),
            5,
        ),
    ];
    for &(error, status) in ENDS {
        assert!(rt; report_service_error(&rt, error) == ExitCode::from(status));
    }
}

/// What is said of a command line that is refused.
fn said(alloc: Global, texts: &[&str]) -> Result<String, AllocError> {
    said_of(alloc, task(alloc, texts))
}

/// What is said of a refusal.
pub(crate) fn said_of(
    alloc: Global,
    task: Result<Task, CommandLineError>,
) -> Result<String, AllocError> {
    let said = match &task {
        Ok(_) => String::from_str(alloc, "nothing"),
        Err(error) => format!(in alloc; "{error}"),
    };
    drop(task);
    said
}

/// The second line says which word is wrong, and why.
#[test]
fn says_what_is_wrong(rt: HostRuntime) {
    const ROWS: &[(&str, &str)] = &[
        (
            "--listen=ann=0",
            "imapd: bad command line\nimapd: --listen ann=0: NAME=PORT is wanted, PORT from 1 to 65535\n",
        ),
        (
            "--listen=/x",
            "imapd: bad command line\nimapd: --listen /x: NAME=PATH is wanted, PATH of at most 107 octets\n",
        ),
        (
            "--listen=-a=1",
            "imapd: bad command line\nimapd: --listen -a: this is no name of a user\n",
        ),
        (
            "--dialect=rev3",
            "imapd: bad command line\nimapd: --dialect rev3: rev1 or rev2 is wanted\n",
        ),
        (
            "--log=all",
            "imapd: bad command line\nimapd: --log all: off, errors or connections is wanted\n",
        ),
        (
            "--member=staff=ann",
            "imapd: bad command line\nimapd: --member ann: this is neither a user who is served nor the \
            administrator\n",
        ),
        (
            "--member=a b=bob",
            "imapd: bad command line\nimapd: --member a b: this is no name of a group\n",
        ),
        (
            "--secret=bob=/none",
            "imapd: bad command line\nimapd: --secret bob=/none: there is no such file\n",
        ),
        (
            "--secret=ann=s3cret",
            "imapd: bad command line\nimapd: --secret ann=s3cret: this is no user who is served\n",
        ),
    ];
    for &(option, wanted) in ROWS {
        let texts = [
            "imapd",
            "serve",
            "--db=x",
            "--admin=root",
            "--listen=bob=1",
            option,
        ];
        expect_text(&rt, said(rt.alloc(), &texts), wanted);
    }
}
