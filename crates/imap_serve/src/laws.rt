//! Laws of what sessions are told.

ghost use Rattle.imap_serve.specs.Laws.{FollowsFromExchanges, FollowsFromReplies};

use imap_dialect::Dialect;

/// What a session is told in a dialect follows from its own frames and their replies. Nothing else can show in
/// it.
pub fn told_from_exchanges<D: Dialect>(_dialect: &D)
    ensures exchanges { FollowsFromExchanges D.telling }
    ensures replies { FollowsFromReplies D.telling }
{}
