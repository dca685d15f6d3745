//! Which lines standard error is told.

/// The lines that the log has.
#[derive(Clone, Copy, PartialEq, Eq)]
pub enum LogLevel {
    Off,
    /// The start, saves that the store refuses, and the first that it takes again.
    Errors,
    /// Those, and each connection that is opened, refused or ended.
    Connections,
}

impl LogLevel {
    /// Reads the value of the option. Returns `None` for another word.
    pub fn read(text: &str) -> Option<LogLevel> {
        match text {
            "off" => Some(LogLevel::Off),
            "errors" => Some(LogLevel::Errors),
            "connections" => Some(LogLevel::Connections),
            _ => None,
        }
    }
}
