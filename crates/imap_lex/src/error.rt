//! Why a framer refused a piece of the stream.

use std::alloc::AllocError;
use std::error::Error;
use std::fmt;

// The texts are written by hand: an `impl` that `thiserror` derives has no clause on what it writes.
#[derive(Clone, Copy, Debug)]
pub enum LexError {
    /// Memory ran out. The piece may be fed again.
    Memory,
    /// The framer returned [`Frame::Hangup`](crate::Frame::Hangup) before, and takes nothing more.
    Closed,
}

impl fmt::Display for LexError {
    ghost use Rattle.std.specs.Prelude.{Some};
    ghost use Rattle.imap_lex.specs.ErrorText.{error_text};

    ghost output = { λ error. Some (error_text error) };

    fn fmt<W: fmt::Write>(&self, f: &mut fmt::Formatter<W>) -> fmt::Result {
        match self {
            LexError::Memory => f.write_str("out of memory"),
            LexError::Closed => f.write_str("the stream was hung up"),
        }
    }
}

impl Error for LexError {}

impl From<AllocError> for LexError {
    ghost use Rattle.std.specs.Prelude.{◌≡◌};
    ghost use Rattle.imap_lex.specs.declared.error.LexError.TheVariants.{Memory};

    ghost from_gives = { λ _ error. error ≡ Memory };

    fn from(_error: AllocError) -> LexError {
        LexError::Memory
    }
}
