//! What holds of every view.

ghost use Rattle.imap_view.specs.After.{HiddenIsAbsent, HiddenSubtreesAreAbsent, OthersInboxesAreHidden};
ghost use Rattle.imap_view.specs.After.{OthersSubscriptionsAreHidden, OwnEffectsAreMade, OwnEffectsAreSeen};
ghost use Rattle.imap_view.specs.MessagesAfter.{AnothersSeenIsHidden, ChangingMessagesIsSeen};
ghost use Rattle.imap_view.specs.RenameAfter.{RenamingIsSeen};
ghost use Rattle.imap_view.specs.TreeAfter.{CreatingIsSeen, DeletingIsSeen, SettingRightsIsSeen};

/// The view after an effect that the user may ask for is found from the view before alone, if what the type
/// of a mailbox keeps holds of the messages of each, as it does in every [`World`](imap_world::World).
pub fn own_effects_are_seen()
    ensures { OwnEffectsAreSeen }
{}

/// An effect that the user may ask for can be made, if what the type of a mailbox keeps holds of the messages
/// of each.
pub fn own_effects_are_made()
    ensures { OwnEffectsAreMade }
{}

/// Another user's subscriptions are not in the view.
pub fn others_subscriptions_are_hidden()
    ensures { OthersSubscriptionsAreHidden }
{}

/// The INBOX that is made for another user is not in the view, nor whether that user had one.
pub fn others_inboxes_are_hidden()
    ensures { OthersInboxesAreHidden }
{}

/// Mailboxes that the user doesn't see can change, and under names of which the user may not know if they are in
/// use they can come and go, and leave their used UIDVALIDITYs: the view stays.
pub fn hidden_is_absent()
    ensures { HiddenIsAbsent }
{}

/// A mailbox that the user doesn't see is as one that isn't there, with all below it, if the user may not know of
/// their names.
pub fn hidden_subtrees_are_absent()
    ensures { HiddenSubtreesAreAbsent }
{
    hidden_is_absent();
}

/// Whether the user may delete a mailbox, and the view after it, are found from the view before alone.
pub fn deleting_is_seen()
    ensures { DeletingIsSeen }
{}

/// Whether the user may set rights on a mailbox, and the view after it, are found from the view before alone.
pub fn setting_rights_is_seen()
    ensures { SettingRightsIsSeen }
{}

/// Whether the user may create a mailbox, and the view after it, are found from the view before alone.
pub fn creating_is_seen()
    ensures { CreatingIsSeen }
{}

/// Whether the user may rename a mailbox, and the view after it, are found from the view before alone.
pub fn renaming_is_seen()
    ensures { RenamingIsSeen }
{}

/// Whether the user may change messages of one mailbox, or of two, and the view after it, are found from the
/// view before alone. To one who may not read, messages that are added are that much less of room and nothing
/// else.
pub fn changing_messages_is_seen()
    ensures { ChangingMessagesIsSeen }
{}

/// A user's own `\Seen` shows to nobody else.
pub fn anothers_seen_is_hidden()
    ensures { AnothersSeenIsHidden }
{}
