//! Configuration files: options of `serve`, one a line.

use crate::command_line_error::CommandLineError;
use crate::completed::completed;
use std::alloc::{AllocError, Global};

/// The options that a file may give, and whether it may give them again.
const OPTIONS: &[(&str, bool)] = &[
    ("db", false),
    ("admin", false),
    ("listen", true),
    ("member", true),
    ("secret", true),
    ("max-messages", false),
    ("max-octets", false),
    ("dialect", false),
    ("log", false),
];

/// A line that gives an option its value.
#[derive(Clone, Copy)]
struct ConfigLine<'a> {
    /// The first line of the file is line 1.
    number: usize,
    option: &'static str,
    value: &'a str,
}

/// The options of a configuration file, if there is one.
#[derive(Drop)]
pub(crate) struct ConfigFile<'a> {
    alloc: Global,
    name: String,
    lines: Vec<ConfigLine<'a>>,
}

impl<'a> ConfigFile<'a> {
    /// No file.
    pub(crate) fn none(alloc: Global) -> ConfigFile<'a> {
        ConfigFile {
            alloc,
            name: String::new(alloc),
            lines: Vec::new(alloc),
        }
    }

    /// Reads the text of the file of this name. Each line is an option without its hyphens, a space and the value. Lines
    /// without a word are passed over, and so are those that begin with `#`.
    pub(crate) fn read(
        alloc: Global,
        name: &str,
        text: &'a str,
    ) -> Result<ConfigFile<'a>, CommandLineError> {
        let mut file = ConfigFile::none(alloc);
        let done = file.add_all(name, text);
        completed(file, done)
    }

    /// Adds the name and the lines.
    fn add_all(&mut self, name: &str, text: &'a str) -> Result<(), CommandLineError> {
        self.name.push_str(name)?;
        for (index, line) in text.lines().enumerate() {
            let line = line.trim();
            if !line.is_empty() && !line.starts_with('#') {
                self.add(index.saturating_add(1), line)?;
            }
        }
        Ok(())
    }

    /// Adds the line of this number.
    fn add(&mut self, number: usize, line: &'a str) -> Result<(), CommandLineError> {
        let (word, value) = line.split_once(' ').unwrap_or((line, ""));
        let value = value.trim();
        match self.option_of(word, value) {
            Ok(option) => {
                self.lines.push(ConfigLine {
                    number,
                    option,
                    value,
                })?;
                Ok(())
            }
            Err(reason) => Err(self.fault_at(number, line, reason)),
        }
    }

    /// The option that a line gives, or why it can't.
    fn option_of(&self, word: &str, value: &str) -> Result<&'static str, &'static str> {
        for &(option, may_repeat) in OPTIONS {
            if option == word {
                if value.is_empty() {
                    return Err("a value is wanted");
                }
                if !may_repeat && self.line_of(option, 0).is_some() {
                    return Err("it is given before");
                }
                return Ok(option);
            }
        }
        Err("there is no such option")
    }

    pub(crate) fn alloc(&self) -> Global {
        self.alloc
    }

    /// The number of the line that gives an option for the first time if `index` is 0, for the second time if it is 1,
    /// and so on.
    fn line_of(&self, option: &str, index: usize) -> Option<usize> {
        let mut left = index;
        for line in &self.lines {
            if line.option == option {
                if left == 0 {
                    return Some(line.number);
                }
                left = left.saturating_sub(1);
            }
        }
        None
    }

    /// Why the value of an option isn't valid. `index` says at which of the option's values it stands: those of the file
    /// come first. `value` is the value, or the part of it that is shown.
    pub(crate) fn fault(
        &self,
        option: &'static str,
        index: usize,
        value: &str,
        reason: &'static str,
    ) -> CommandLineError {
        match self.line_of(option, index) {
            Some(line) => match format!(in self.alloc; "{option} {value}") {
                Ok(text) => self.fault_at(line, text.as_str(), reason),
                Err(_) => CommandLineError::Memory,
            },
            None => CommandLineError::of_value(self.alloc, option, value, reason),
        }
    }

    /// Why the line of this number isn't taken.
    fn fault_at(&self, line: usize, text: &str, reason: &'static str) -> CommandLineError {
        match self.line_fault(line, text, reason) {
            Ok(fault) => fault,
            Err(_) => CommandLineError::Memory,
        }
    }

    fn line_fault(
        &self,
        line: usize,
        text: &str,
        reason: &'static str,
    ) -> Result<CommandLineError, AllocError> {
        let file = String::from_str(self.alloc, self.name.as_str())?;
        let text = String::from_str(self.alloc, text)?;
        Ok(CommandLineError::Line {
            file,
            line,
            text,
            reason,
        })
    }

    /// Returns the words of a command line, with the file's options after the program and the subcommand.
    pub(crate) fn joined(&self, words: &[String]) -> Result<Vec<String>, AllocError> {
        let mut joined = Vec::new(self.alloc);
        let done = self.append_all(&mut joined, words);
        completed(joined, done)
    }

    /// Appends the words, with the file's options before the third.
    fn append_all(&self, joined: &mut Vec<String>, words: &[String]) -> Result<(), AllocError> {
        for (index, word) in words.iter().enumerate() {
            if index == 2 {
                self.append(joined)?;
            }
            joined.push(String::from_str(self.alloc, word.as_str())?)?;
        }
        Ok(())
    }

    /// Appends the file's options as words of a command line.
    fn append(&self, words: &mut Vec<String>) -> Result<(), AllocError> {
        for line in &self.lines {
            words.push(format!(in self.alloc; "--{}={}", line.option, line.value)?)?;
        }
        Ok(())
    }
}
