//! What holds of worlds, whatever effects are made.

ghost use Rattle.imap_world.specs.Laws.{CreatesByName, CurrentIsFresh, MessagesGrow, MessagesStayKept};
ghost use Rattle.imap_world.specs.Laws.{RenamesByName, ValiditiesAreUsedOnce, WorldsStaySound};
ghost use Rattle.imap_world.specs.Parts.{StandForOne};

/// The superiors of mailboxes stay there, and the UIDVALIDITYs of mailboxes stay counted.
pub fn worlds_stay_sound()
    ensures { WorldsStaySound }
{}

/// What the type of a mailbox keeps goes on holding of the messages of each mailbox.
pub fn messages_stay_kept()
    ensures { MessagesStayKept }
{}

/// No UIDVALIDITY is used twice under a name (RFC 9051, section 2.3.1.1): a mailbox has one that a mailbox
/// of its name had before, or one above all that were used there.
pub fn validities_are_used_once()
    ensures { ValiditiesAreUsedOnce }
{}

/// Under a name and a UIDVALIDITY, messages only grow: UIDNEXT and the number of shared events don't fall, and
/// a session that was told of the mailbox up to a mod-sequence stays so. A mailbox that is another has a
/// UIDVALIDITY above all that were used under its name.
pub fn messages_grow()
    ensures { MessagesGrow }
{}

/// A change that is current makes mailboxes, or moves them, only to names that are free, with UIDVALIDITYs that
/// were never used there. It sets a list that is the mailbox's as it is but for one entry, removes or moves no
/// mailbox that is gone, and writes to messages only what is found for them as they are.
pub fn current_changes_are_fresh()
    ensures { CurrentIsFresh }
{}

/// CREATE makes a mailbox at the name and at each superior of it that wasn't there, each with the inherited
/// list, the next UIDVALIDITY and no messages, and changes nothing else (RFC 9051, section 6.3.4).
pub fn creates_by_name()
    ensures { CreatesByName }
{}

/// After RENAME each mailbox at or below the old name stands at the new one, with its list, its messages and
/// the next UIDVALIDITY there, and nothing is left at the old one. Superiors of the new name that weren't
/// there are made, and all else stays (RFC 9051, section 6.3.6).
pub fn renames_by_name()
    ensures { RenamesByName }
{}

/// What a store keeps of a world stands for one world at most, whatever the order of its rows.
pub fn parts_stand_for_one_world()
    ensures { StandForOne }
{}
