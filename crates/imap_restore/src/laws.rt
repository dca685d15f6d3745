//! What holds of databases that keep worlds. The function does nothing: its contract is the law.

ghost use Rattle.imap_restore.specs.Holding.{OneIsHeld};

/// A database whose messages stand in three tables keeps one world at most.
pub fn one_is_held()
    ensures { OneIsHeld }
{}
