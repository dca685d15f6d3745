//! What holds of each keeper.

ghost use Rattle.imap_keeper.specs.Laws.{NeverRefuses, RefusalsAreCounted};

/// A keeper refuses only if its count of failures rises, or is the greatest that there is.
pub fn refusals_are_counted()
    ensures { RefusalsAreCounted }
{}

/// A keeper whose count of failures stays 0, as that of one in memory, never refuses.
pub fn no_failures_no_refusal()
    ensures { NeverRefuses }
{}
