//! The transcript of a run.

use crate::error::ScriptError;
use imap_print::{Response, print};
use std::alloc::Global;
use std::io::{self, BufWriter, Write};

/// Writes a line for each line to a client.
#[derive(Drop)]
pub(crate) struct Transcript<O: Write + Drop> {
    output: BufWriter<O>,
}

impl<O: Write + Drop> Transcript<O> {
    pub(crate) fn new(alloc: Global, output: O) -> Result<Transcript<O>, ScriptError> {
        // Only memory can be refused here.
        match BufWriter::new(alloc, output) {
            Ok(output) => Ok(Transcript { output }),
            Err(_) => Err(ScriptError::Memory),
        }
    }

    /// Writes the replies to one session, which `label` names.
    pub(crate) fn tell(
        &mut self,
        alloc: Global,
        label: &str,
        replies: &[Response],
    ) -> Result<(), ScriptError> {
        let octets = print(alloc, replies)?;
        for line in octets.split_inclusive(|octet| *octet == b'\n') {
            if self.write_line(label, without_end(line)).is_err() {
                return Err(ScriptError::Io);
            }
        }
        Ok(())
    }

    fn write_line(&mut self, label: &str, line: &[u8]) -> io::Result<()> {
        self.output.write_all(label.as_bytes())?;
        self.output.write_all(b" > ")?;
        self.output.write_all(line)?;
        self.output.write_all(b"\n")
    }

    /// Flushes the output.
    pub(crate) fn finish(&mut self) -> Result<(), ScriptError> {
        self.output.flush().map_err(|_| ScriptError::Io)
    }
}

/// A line without the CRLF or LF that ends it.
fn without_end(line: &[u8]) -> &[u8] {
    match line {
        [text @ .., b'\r', b'\n'] | [text @ .., b'\n'] => text,
        text => text,
    }
}
