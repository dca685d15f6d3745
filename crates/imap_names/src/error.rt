//! The faults of the text of a name.
ghost use Rattle.std.specs.Prelude.{◌≡◌};
ghost use Rattle.imap_names.specs.declared.error.NameError.TheVariants.{Memory};

use crate::name::{MAX_DEPTH, MAX_PATH_OCTETS};
use std::alloc::AllocError;
use thiserror::Error;

/// Why a text is no name.
///
/// Of several faults the first of `Control`, `Reserved`, `EmptyComponent`, `TooLong` and `TooDeep` counts.
#[derive(Clone, Copy, Debug, Error)]
pub enum NameError {
    /// Two delimiters in a row, or one at an end.
    #[error("a component of the name is empty")]
    EmptyComponent,
    /// A path of more than [`MAX_PATH_OCTETS`] octets.
    #[error("the path is longer than {max} octets", max = MAX_PATH_OCTETS)]
    TooLong,
    /// More than [`MAX_DEPTH`] components.
    #[error("the path has more than {max} components", max = MAX_DEPTH)]
    TooDeep,
    /// A namespace alone, a tree that has no name of this kind, or a path that begins as a namespace does.
    #[error("the name is reserved")]
    Reserved,
    /// A control character, or octets that are not UTF-8.
    #[error("the name is not printable text")]
    Control,
    /// Out of memory.
    #[error("out of memory")]
    Memory,
}

impl From<AllocError> for NameError {
    ghost from_gives = { λ _ error. error ≡ Memory };

    fn from(_error: AllocError) -> NameError {
        NameError::Memory
    }
}
