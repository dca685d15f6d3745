//! The subcommands of the command line, and the options of each.

use clap::{Arg, ArgAction, Command};
use std::alloc::{AllocError, Global};

/// A subcommand, as the help shows it.
struct SubcommandRow {
    name: &'static str,
    about: &'static str,
    options: &'static [OptionRow],
}

/// An option `--NAME` of a subcommand, as the help shows it.
struct OptionRow {
    name: &'static str,
    /// The name of its value.
    value: &'static str,
    help: &'static str,
    is_required: bool,
    may_repeat: bool,
}

const SUBCOMMANDS: &[SubcommandRow] = &[
    SubcommandRow {
        name: "script",
        about: "Runs a script from standard input and writes its transcript to standard output",
        options: &[],
    },
    SubcommandRow {
        name: "check",
        about: "Says how much a store holds, or which of its rows is damaged",
        options: CHECK,
    },
    SubcommandRow {
        name: "dump",
        about: "Writes all mailboxes of a store as folders of messages",
        options: DUMP,
    },
    SubcommandRow {
        name: "load",
        about: "Adds the messages in folders to the mailboxes of a store",
        options: LOAD,
    },
    SubcommandRow {
        name: "serve",
        about: "Serves users over TCP and by socket files",
        options: SERVE,
    },
];

const CHECK: &[OptionRow] = &[OptionRow {
    name: "db",
    value: "FILE",
    help: "The database that keeps the mail",
    is_required: true,
    may_repeat: false,
}];

const DUMP: &[OptionRow] = &[
    OptionRow {
        name: "db",
        value: "FILE",
        help: "The database that keeps the mail",
        is_required: true,
        may_repeat: false,
    },
    OptionRow {
        name: "to",
        value: "FOLDER",
        help: "The folder to be made, with a Maildir for each mailbox",
        is_required: true,
        may_repeat: false,
    },
];

const LOAD: &[OptionRow] = &[
    OptionRow {
        name: "db",
        value: "FILE",
        help: "The database that keeps the mail; it is made if it is missing",
        is_required: true,
        may_repeat: false,
    },
    OptionRow {
        name: "from",
        value: "FOLDER",
        help: "The folder with a Maildir for each mailbox, as dump writes them",
        is_required: true,
        may_repeat: false,
    },
    OptionRow {
        name: "admin",
        value: "NAME",
        help: "The administrator, who owns the Shared tree",
        is_required: true,
        may_repeat: false,
    },
    OptionRow {
        name: "layout",
        value: "LAYOUT",
        help: "How folders stand for mailboxes: dump, or maildir++ (Dovecot, Courier); without it as each folder shows",
        is_required: false,
        may_repeat: false,
    },
];

const SERVE: &[OptionRow] = &[
    OptionRow {
        name: "db",
        value: "FILE",
        help: "The database that keeps the mail; it is made if it is missing",
        is_required: true,
        may_repeat: false,
    },
    OptionRow {
        name: "admin",
        value: "NAME",
        help: "The administrator, who owns the Shared tree",
        is_required: true,
        may_repeat: false,
    },
    OptionRow {
        name: "listen",
        value: "NAME=PORT",
        help: "Serves a user at a port of 127.0.0.1, or with NAME=PATH at a socket file; may be repeated",
        is_required: true,
        may_repeat: true,
    },
    OptionRow {
        name: "member",
        value: "GROUP=NAME",
        help: "Puts a served user or the administrator into a group; may be repeated",
        is_required: false,
        may_repeat: true,
    },
    OptionRow {
        name: "secret",
        value: "NAME=FILE",
        help: "Has a user's clients log in with the first line of a file; may be repeated",
        is_required: false,
        may_repeat: true,
    },
    OptionRow {
        name: "max-messages",
        value: "N",
        help: "How many messages a mailbox may hold",
        is_required: false,
        may_repeat: false,
    },
    OptionRow {
        name: "max-octets",
        value: "N",
        help: "How many octets a message may have",
        is_required: false,
        may_repeat: false,
    },
    OptionRow {
        name: "dialect",
        value: "NAME",
        help: "What clients are spoken to in: rev2 (the default), or rev1 for those that know no IMAP4rev2",
        is_required: false,
        may_repeat: false,
    },
    OptionRow {
        name: "log",
        value: "LINES",
        help: "What standard error is told: off, errors (the default) or connections",
        is_required: false,
        may_repeat: false,
    },
    OptionRow {
        name: "config",
        value: "FILE",
        help: "Reads options from a file, one a line without its hyphens, before those given here",
        is_required: false,
        may_repeat: false,
    },
];

/// Adds the subcommands. `is_whole` says whether the options that a subcommand can't do without are asked for.
pub(crate) fn with_subcommands<'a>(
    alloc: Global,
    command: Command<'a>,
    is_whole: bool,
) -> Result<Command<'a>, AllocError> {
    let mut command = command;
    for row in SUBCOMMANDS {
        command = with_subcommand(command, subcommand(alloc, row, is_whole))?;
    }
    Ok(command)
}

/// Adds a subcommand.
fn with_subcommand<'a>(
    command: Command<'a>,
    subcommand: Result<Command<'a>, AllocError>,
) -> Result<Command<'a>, AllocError> {
    match subcommand {
        Ok(subcommand) => command.subcommand(subcommand),
        Err(error) => {
            drop(command);
            Err(error)
        }
    }
}

/// The subcommand with its options.
fn subcommand<'a>(
    alloc: Global,
    row: &SubcommandRow,
    is_whole: bool,
) -> Result<Command<'a>, AllocError> {
    let mut command = Command::new(alloc, row.name).about(row.about);
    for option in row.options {
        command = command.arg(argument(alloc, option, is_whole))?;
    }
    Ok(command)
}

fn argument<'a>(alloc: Global, row: &OptionRow, is_whole: bool) -> Arg<'a> {
    Arg::new(alloc, row.name)
        .long(row.name)
        .value_name(row.value)
        .help(row.help)
        .required(is_whole && row.is_required)
        .action(action(row.may_repeat))
}

/// What a further use of an option does.
fn action(may_repeat: bool) -> ArgAction {
    if may_repeat {
        ArgAction::Append
    } else {
        ArgAction::Set
    }
}
