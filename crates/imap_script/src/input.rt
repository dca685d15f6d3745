//! Reading a whole input.
//!
//! The input is read by a loop of our own, and not by `read_to_end`, since its reads are limited.
//! `read_all` is public for tests, which give it smaller limits.

ghost use Rattle.std.specs.Prelude.{◌≡◌, IfOk, IfSome};

use crate::error::ScriptError;
use std::alloc::Global;
use std::io::{ErrorKind, Read};

/// The most octets of one read.
const MAX_PIECE: usize = 4096;

/// Reads the whole input. Fails with `Io` if a read fails, or if `max_reads` reads don't reach the end. A read that
/// was interrupted is made again, and counts. No clause speaks of the errors: tests show them.
pub fn read_input<I: Read + Drop>(
    alloc: Global,
    mut input: I,
    max_reads: u32,
) -> Result<Vec<u8>, ScriptError>
    ensures { IfOk result (λ octets. IfSome (I.remaining input) (λ known. octets.items ≡ known)) }
{
    let mut octets = Vec::new(alloc);
    let mut piece = [0u8; MAX_PIECE];
    for _ in 0..max_reads {
        match input.read(&mut piece) {
            Ok(0) => return Ok(octets),
            Ok(count) => octets.extend_from_slice(&piece[..count])?,
            Err(error) if error.kind() == ErrorKind::Interrupted => {}
            Err(_) => return Err(ScriptError::Io),
        }
    }
    Err(ScriptError::Io)
}
