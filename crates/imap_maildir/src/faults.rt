//! What is left out while the rest is written or read.

use crate::maildir_error::MaildirError;
use crate::progress::Progress;

/// Tells `progress` what is left out, and counts it. Fails with the error if nothing can be done after it.
pub(crate) fn pass_over<P: Progress>(
    progress: &mut P,
    faults: &mut u64,
    error: MaildirError,
) -> Result<(), MaildirError> {
    if error.is_last() {
        return Err(error);
    }
    progress.passed_over(&error);
    drop(error);
    *faults = faults.saturating_add(1);
    Ok(())
}

/// Does the same if what was done failed.
pub(crate) fn pass_over_failed<P: Progress>(
    progress: &mut P,
    faults: &mut u64,
    done: Result<(), MaildirError>,
) -> Result<(), MaildirError> {
    match done {
        Ok(()) => Ok(()),
        Err(error) => pass_over(progress, faults, error),
    }
}
