//! What the summary of a mailbox says of the events that happened, of a client that was away, and of what
//! each change shows to a user.
//!
//! The events of a mailbox are one list of shared events, and for each user a list of own changes of
//! `\Seen`. Their summary is what a [`Mailbox`](crate::Mailbox) keeps. The functions do nothing: their
//! contracts are the laws.

ghost use Rattle.imap_mailbox.specs.Bridge.{RowsAreThoseOfEvents, GoneAreThoseOfEvents};
ghost use Rattle.imap_mailbox.specs.Bridge.{CountsAreThoseOfEvents};
ghost use Rattle.imap_mailbox.specs.Bridge.{EventsAreSteps, ChangesAreSteps, LawfulStays};
ghost use Rattle.imap_mailbox.specs.Bridge.{SummariesAreAdmitted};
ghost use Rattle.imap_mailbox.specs.Brought.{EventsAreLater, SeenIsLater, ShownIsOrdered, AllToldIsBrought};
ghost use Rattle.imap_mailbox.specs.Called.{CallsAreEvents, FlagsAreTested};
ghost use Rattle.imap_mailbox.specs.Client.{ClientIsBroughtUp};
ghost use Rattle.imap_mailbox.specs.KeptLaws.{AllRowsFollow, AnyMayGo, ChangesAreNumbered, DroppedStays, FewAreKept};
ghost use Rattle.imap_mailbox.specs.KeptLaws.{KeptIsEnough, RowsFollow, RowsStayFew};
ghost use Rattle.imap_mailbox.specs.Parts.{StandForOne};
ghost use Rattle.imap_mailbox.specs.Shown.{AnothersSeenIsHidden, AddIsSeenAsRoom, EventIsSeen};
ghost use Rattle.imap_mailbox.specs.Shown.{DecidedIsSeen, ExpungesAreSeen, OwnSeenIsSeen};

/// The messages of the summary, as a user has them, are those that the user's events give, with flags and
/// numbers.
pub fn rows_are_those_of_events()
    ensures { RowsAreThoseOfEvents }
{}

/// The gone UIDs of the summary, with their numbers, are those of the user's events.
pub fn gone_are_those_of_events()
    ensures { GoneAreThoseOfEvents }
{}

/// UIDNEXT, the number of shared events, HIGHESTMODSEQ and the room of the summary are those of the events.
pub fn counts_are_those_of_events()
    ensures { CountsAreThoseOfEvents }
{}

/// One shared event more is a step of the summary.
pub fn events_are_steps()
    ensures { EventsAreSteps }
{}

/// One own change more is a step of the summary.
pub fn changes_are_steps()
    ensures { ChangesAreSteps }
{}

/// A client that held what the first events gave, and follows VANISHED and FETCH of what came later, holds
/// the UIDs and flags that a fetch of all messages gives (RFC 7162, section 3.2.5).
pub fn client_is_brought_up()
    ensures { ClientIsBroughtUp }
{}

/// What another user marks as seen shows nothing.
pub fn another_seen_is_hidden()
    ensures { AnothersSeenIsHidden }
{}

/// To a user who may not read, an added message is one less of room and nothing else.
pub fn add_is_seen_as_room()
    ensures { AddIsSeenAsRoom }
{}

/// What a reader sees after a shared event is a function of what was seen before and of the event.
pub fn event_is_seen()
    ensures { EventIsSeen }
{}

/// What a reader sees after a change that was decided before, as the methods of
/// [`Mailbox`](crate::Mailbox) make it that end in `_reserved`, is a function of what was seen before and of
/// the change.
pub fn decided_is_seen()
    ensures { DecidedIsSeen }
{}

/// What a reader sees after several messages were expunged is a function of what was seen before and of their
/// UIDs.
pub fn expunges_are_seen()
    ensures { ExpungesAreSeen }
{}

/// What a user sees after a change of the user's own `\Seen` is a function of what was seen before and of
/// the change.
pub fn own_seen_is_seen()
    ensures { OwnSeenIsSeen }
{}

/// What the laws ask of events holds of a mailbox without events, and is kept by each event that a mailbox
/// takes.
pub fn lawful_stays()
    ensures { LawfulStays }
{}

/// The summary of events is one that a mailbox may have.
pub fn summaries_are_admitted()
    ensures { SummariesAreAdmitted }
{}

/// Each call that succeeds makes the events that a mailbox takes: the new summary is that of the events
/// which are there then, and these are lawful.
pub fn calls_are_events()
    ensures { CallsAreEvents }
{}

/// Flags that are the same by the test of [`Mailbox::set_flags`](crate::Mailbox::set_flags), and so make no
/// event, are equal.
pub fn flags_are_tested()
    ensures { FlagsAreTested }
{}

/// A session that was told of a mailbox up to a mod-sequence stays so after a shared event: what it knows
/// agrees with all rows whose mod-sequence is not above.
pub fn events_are_later()
    ensures { EventsAreLater }
{}

/// The same holds after a change of the user's own `\Seen`.
pub fn seen_is_later()
    ensures { SeenIsLater }
{}

/// What a mailbox shows to a user has UIDs that rise, and no mod-sequence above HIGHESTMODSEQ.
pub fn shown_is_ordered()
    ensures { ShownIsOrdered }
{}

/// A session that was told of all messages is brought up to HIGHESTMODSEQ.
pub fn all_told_is_brought()
    ensures { AllToldIsBrought }
{}

/// What a store keeps of a mailbox stands for one mailbox at most, whatever the order of its parts.
pub fn parts_stand_for_one()
    ensures { StandForOne }
{}

/// By a user's own changes that are kept the user is shown what all events tell: each message with `\Seen` and its
/// mod-sequence, each message that went with its mod-sequence, and HIGHESTMODSEQ (RFC 7162, sections 3.1.2.1 and
/// 3.2.10). A change is kept if it is the last one of its message, or the last one before a shared event.
pub fn kept_is_enough()
    ensures { KeptIsEnough }
{}

/// So it is while some that need not be kept are still there. A store in which nothing was dropped stands for the same.
pub fn any_may_go()
    ensures { AnyMayGo }
{}

/// The rows after a change, without the one that the change drops, stand for the changes with it.
pub fn rows_follow()
    ensures { RowsFollow }
{}

/// The same holds of the changes of a batch, each with the row that it drops.
pub fn all_rows_follow()
    ensures { AllRowsFollow }
{}

/// Changes that come after all others have the next places.
pub fn changes_are_numbered()
    ensures { ChangesAreNumbered }
{}

/// What a change drops may be found before the others of its batch, which are of other messages, are made.
pub fn dropped_stays()
    ensures { DroppedStays }
{}

/// At most as many rows are kept as messages that the user changed and shared events, and one.
pub fn few_are_kept()
    ensures { FewAreKept }
{}

/// A change leaves no row that may go, if none was there. So there are never more.
pub fn rows_stay_few()
    ensures { RowsStayFew }
{}
