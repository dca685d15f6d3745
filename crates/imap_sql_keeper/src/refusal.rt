//! Refusals of the database.

ghost use Rattle.std.specs.Prelude.{◌≡◌, ◌≢◌, Err, IfErr};
ghost use Rattle.imap_keeper.specs.declared.error.KeepError.TheVariants.{Damaged, Memory, Refused};
ghost use Rattle.imap_mailbox.specs.declared.parts.PartsError.TheVariants as parts;
ghost use Rattle.sqlite.specs.declared.error.Error.TheVariants.{SqliteFailure};
ghost use Rattle.sqlite.specs.declared.error.ErrorCode.TheVariants.{OutOfMemory};

use imap_keeper::KeepError;
use imap_mailbox::PartsError;
use sqlite::{Error, ErrorCode};

/// Returns why a statement failed.
pub(crate) fn refusal(error: Error) -> KeepError
    ensures { result ≢ Damaged }
{
    match error {
        Error::SqliteFailure(ErrorCode::OutOfMemory) => KeepError::Memory,
        _ => KeepError::Refused,
    }
}

/// Returns why rows could not be read.
pub(crate) fn damage(error: Error) -> KeepError
    ensures { result ≡ Damaged → error ≢ SqliteFailure OutOfMemory }
{
    match error {
        Error::SqliteFailure(ErrorCode::OutOfMemory) => KeepError::Memory,
        _ => KeepError::Damaged,
    }
}

/// Returns why the rows are those of no world.
pub(crate) fn fault(error: PartsError) -> KeepError
    ensures { result ≡ Damaged → error ≡ parts.Bad }
{
    match error {
        PartsError::Bad => KeepError::Damaged,
        PartsError::Memory => KeepError::Memory,
    }
}
