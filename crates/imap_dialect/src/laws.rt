//! Laws of dialects.

ghost use Rattle.imap_dialect.specs.Laws.{HandsOn, IsIsolated, Prints};

use crate::dialect::Dialect;
use crate::standard::Standard;

/// What a session is told follows from its own frames and their replies, in every dialect: by the type of a telling,
/// which is handed nothing else. That a session over a connection is told so is
/// `imap_serve::laws::told_from_exchanges`.
pub fn is_isolated<D: Dialect>(_dialect: &D)
    ensures { IsIsolated D.telling }
{}

/// [`Standard`] is the server as it is.
pub fn standard_is_plain()
    ensures frames { HandsOn ⟦<Standard as Dialect>⟧.telling }
    ensures replies { Prints ⟦<Standard as Dialect>⟧.telling }
{}
