//! Why a host can't be ended.

ghost use Rattle.std.specs.Prelude.{◌≡◌, ◌+◌, ◌<◌, ◌≤◌, ◌↔◌, IsErrOf, false};
ghost use Rattle.imap_receipts.specs.declared.settling.SettleError.TheVariants as error;

use thiserror::Error;

/// Into how many parts a ledger is cut.
pub const PARTS: u64 = 1_048_576;

/// Why a host can't be ended with these seats.
#[derive(Clone, Copy, Debug, Error, PartialEq, Eq)]
pub enum SettleError {
    /// A seat of the host is missing.
    #[error("a seat is missing")]
    Missing,
    /// The journal and the receipts of the seats differ.
    #[error("receipts differ from the journal")]
    Mismatch,
}

/// Whether a host can be ended with `seats` seats. No seat has `left` parts of its ledger, and `are_settled` says
/// whether its journal and the receipts agree. Fails with `Missing` if a seat is left out, and else with `Mismatch` if
/// they don't agree.
pub fn check_settled(left: u64, seats: u64, are_settled: bool) -> Result<(), SettleError>
    ensures missing { IsErrOf result error.Missing ↔ (left + seats < 1048576) }
    ensures mismatch { IsErrOf result error.Mismatch
        ↔ ((1048576 ≤ left + seats) × (are_settled ≡ false)) }
{
    if left.saturating_add(seats) < PARTS {
        return Err(SettleError::Missing);
    }
    if !are_settled {
        return Err(SettleError::Mismatch);
    }
    Ok(())
}
