//! The command line.

use crate::command_line_error::CommandLineError;
use crate::config_file::ConfigFile;
use crate::layout_name::LayoutName;
use crate::secret::{SecretFiles, why_unread};
use crate::serve_options::{read_service, read_user, value_of};
use crate::service::Service;
use crate::subcommands::with_subcommands;
use clap::error::ErrorKind;
use clap::{ArgMatches, Command};
use imap_names::UserName;
use std::alloc::{AllocError, Global};
use std::rt::{Env, Files};
use std::{env, fs, io};

/// The version of the program, as `CHANGELOG.md` has it.
pub const VERSION: &str = "0.1.0";

/// What the program is asked to do.
#[derive(Drop)]
pub enum Task {
    /// Says whether the database at this path is a sound store.
    Check(String),
    /// Writes the mailboxes of a database as folders of messages.
    Dump {
        /// The path of the database.
        database: String,
        /// The path of the folder, which is made.
        folder: String,
    },
    /// Reads folders of messages into the mailboxes of a database.
    Load {
        /// The path of the database, which is made if it is missing.
        database: String,
        /// The path of the folder.
        folder: String,
        /// The owner of the Shared tree.
        administrator: UserName,
        layout: LayoutName,
    },
    /// Runs the script on standard input.
    Script,
    /// Says which version of the program this is.
    Version,
    /// Serves users.
    Serve {
        /// The path of the database that keeps the mail.
        database: String,
        service: Service,
    },
}

/// Reads the words that the program was started with, and the files of configuration and of secrets that they name.
pub fn read_command_line<R: Env + Files + AllocGlobal + Eprint>(
    rt: &R,
) -> Result<Task, CommandLineError> {
    let words = program_words(rt)?;
    let task = read_with_config(rt, words.as_slice());
    drop(words);
    task
}

/// Returns the words that the program was started with.
fn program_words<R: Env + AllocGlobal>(rt: &R) -> Result<Vec<String>, CommandLineError> {
    match env::args(rt) {
        Ok(words) => Ok(words.collect::<Vec<String>>(rt.alloc())?),
        Err(error) => match error.kind() {
            io::ErrorKind::OutOfMemory => Err(CommandLineError::Memory),
            _ => Err(CommandLineError::Unreadable),
        },
    }
}

/// Reads the words of a command line after the options in the configuration file that they name, if they do.
fn read_with_config<R: Files + AllocGlobal + Eprint>(
    rt: &R,
    words: &[String],
) -> Result<Task, CommandLineError> {
    match config_name(rt.alloc(), words)? {
        Some(name) => {
            let text = read_config(rt, name)?;
            let task = read_words_after(rt.alloc(), rt, words, name, text.as_str());
            drop(text);
            task
        }
        None => read_words(rt.alloc(), rt, words),
    }
}

/// Returns the name of the configuration file that the words of a command line name, if they do.
fn config_name<'a>(
    alloc: Global,
    words: &'a [String],
) -> Result<Option<&'a str>, CommandLineError> {
    if !words.iter().any(|word| word.starts_with("--config")) {
        return Ok(None);
    }
    match parse(alloc, words, false) {
        Ok(matches) => {
            let name = config_of(&matches);
            drop(matches);
            Ok(name)
        }
        Err(error) => {
            let kind = error.kind();
            drop(error);
            match kind {
                ErrorKind::OutOfMemory => Err(CommandLineError::Memory),
                // What is wrong is said when all words are read.
                _ => Ok(None),
            }
        }
    }
}

fn config_of<'a>(matches: &ArgMatches<'a>) -> Option<&'a str> {
    match matches.subcommand() {
        Some(("serve", found)) => found.get_str("config"),
        _ => None,
    }
}

fn read_config<R: Files + AllocGlobal>(rt: &R, name: &str) -> Result<String, CommandLineError> {
    match fs::read_to_string(rt, name) {
        Ok(text) => Ok(text),
        Err(error) => match error.kind() {
            io::ErrorKind::OutOfMemory => Err(CommandLineError::Memory),
            kind => Err(CommandLineError::of_value(rt.alloc(), "config", name, why_unread(kind))),
        },
    }
}

/// Reads the words of a command line. The first of them names the program.
pub fn read_words<S: SecretFiles>(
    alloc: Global,
    secrets: &S,
    words: &[String],
) -> Result<Task, CommandLineError> {
    read_with(alloc, secrets, &ConfigFile::none(alloc), words)
}

/// Reads the words of a command line after the options in the text of a configuration file, which stand before those of
/// the words.
pub fn read_words_after<S: SecretFiles>(
    alloc: Global,
    secrets: &S,
    words: &[String],
    name: &str,
    text: &str,
) -> Result<Task, CommandLineError> {
    let file = ConfigFile::read(alloc, name, text)?;
    let task = read_after(alloc, secrets, &file, words);
    drop(file);
    task
}

/// Reads the words of a command line after the options of the file.
fn read_after<S: SecretFiles>(
    alloc: Global,
    secrets: &S,
    file: &ConfigFile<'_>,
    words: &[String],
) -> Result<Task, CommandLineError> {
    let joined = file.joined(words)?;
    let task = read_with(alloc, secrets, file, joined.as_slice());
    drop(joined);
    task
}

fn read_with<S: SecretFiles>(
    alloc: Global,
    secrets: &S,
    file: &ConfigFile<'_>,
    words: &[String],
) -> Result<Task, CommandLineError> {
    match parse(alloc, words, true) {
        Ok(matches) => {
            let task = read_matches(secrets, file, &matches);
            drop(matches);
            task
        }
        Err(error) => task_of(error),
    }
}

/// Returns the task of words that the parser doesn't take: it takes no words that ask for the version.
fn task_of(error: clap::Error) -> Result<Task, CommandLineError> {
    if error.kind() == ErrorKind::DisplayVersion {
        drop(error);
        return Ok(Task::Version);
    }
    Err(CommandLineError::from(error))
}

/// Parses the words of a command line. `is_whole` says whether the options that a subcommand can't do without are asked
/// for.
fn parse<'a>(
    alloc: Global,
    words: &'a [String],
    is_whole: bool,
) -> Result<ArgMatches<'a>, clap::Error> {
    command(alloc, is_whole)?.try_get_matches_from(words)
}

/// The program's command line.
fn command<'a>(alloc: Global, is_whole: bool) -> Result<Command<'a>, AllocError> {
    let command = Command::new(alloc, "imapd")
        .about("An IMAP server for shared mailboxes")
        .version(VERSION);
    with_subcommands(alloc, command, is_whole)
}

fn read_matches<S: SecretFiles>(
    secrets: &S,
    file: &ConfigFile<'_>,
    matches: &ArgMatches<'_>,
) -> Result<Task, CommandLineError> {
    match matches.subcommand() {
        Some(("check", found)) => Ok(Task::Check(read_path(file, found, "db")?)),
        Some(("dump", found)) => read_dump(file, found),
        Some(("load", found)) => read_load(file, found),
        Some(("script", _)) => Ok(Task::Script),
        Some(("serve", found)) => read_serve(secrets, file, found),
        _ => Err(CommandLineError::NoSubcommand),
    }
}

fn read_dump(file: &ConfigFile<'_>, found: &ArgMatches<'_>) -> Result<Task, CommandLineError> {
    let database = read_path(file, found, "db")?;
    let folder = read_path(file, found, "to")?;
    Ok(Task::Dump { database, folder })
}

fn read_load(file: &ConfigFile<'_>, found: &ArgMatches<'_>) -> Result<Task, CommandLineError> {
    let database = read_path(file, found, "db")?;
    let folder = read_path(file, found, "from")?;
    let layout = read_layout(file, value_of(found, "layout", ""))?;
    let administrator = read_user(file, "admin", 0, value_of(found, "admin", ""))?;
    Ok(Task::Load {
        database,
        folder,
        administrator,
        layout,
    })
}

fn read_layout(file: &ConfigFile<'_>, text: &str) -> Result<LayoutName, CommandLineError> {
    match LayoutName::read(text) {
        Some(layout) => Ok(layout),
        None => Err(file.fault("layout", 0, text, "dump or maildir++ is wanted")),
    }
}

fn read_serve<S: SecretFiles>(
    secrets: &S,
    file: &ConfigFile<'_>,
    found: &ArgMatches<'_>,
) -> Result<Task, CommandLineError> {
    let database = read_path(file, found, "db")?;
    let service = read_service(secrets, file, found)?;
    Ok(Task::Serve { database, service })
}

/// Reads the value of an option that names a file or a folder.
fn read_path(
    file: &ConfigFile<'_>,
    found: &ArgMatches<'_>,
    option: &str,
) -> Result<String, AllocError> {
    String::from_str(file.alloc(), value_of(found, option, ""))
}
