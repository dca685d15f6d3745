//! What holds at the start, of every step and of every run.

ghost use Rattle.std.specs.FinMap as map;
ghost use Rattle.imap_core.specs.Histories.{RunsGrowMessages, RunsKeepValidities};
ghost use Rattle.imap_core.specs.InStep.{AreInStep, SessionsStayInStep};
ghost use Rattle.imap_core.specs.Laws.{EffectsAreMade, HiddenIsAlike, HiddenSubtreesAreAbsent};
ghost use Rattle.imap_core.specs.Laws.{MessagesAreKnown, NeverUnavailable, NumbersStay};
ghost use Rattle.imap_core.specs.Laws.{OtherSessionsStay, OtherUsersStay};
ghost use Rattle.imap_core.specs.Laws.{QuietPollsChangeNothing, QuotasAreKept, RefusalsChangeNothing, StepsAreAlike};
ghost use Rattle.imap_core.specs.MadeByEvents.{AreMadeByEvents, RunsAreMadeByEvents, StartsAreMadeByEvents};
ghost use Rattle.imap_core.specs.OwnSteps.{GivenBackTellsNothing, IsolationAtOwnSteps, UnseenStepsAreSilent};
ghost use Rattle.imap_core.specs.SameKnowledge.{KnownByOneList, SameKnowledgeIsAlike, SelectingAgainIsAlike};
ghost use Rattle.imap_core.specs.Starting.{StartsAreAlike, StartsWithInboxes};
ghost use Rattle.imap_core.specs.Trace.{EqualViewsAreSame, Isolation, IsolationOfReplies};
ghost use Rattle.imap_world.specs.Kept.{AreKept, IsSound};

use crate::machine::Core;
use imap_view::laws::{creating_is_seen, hidden_is_absent, others_inboxes_are_hidden};

/// To each user, any two runs that begin alike and have one trace for that user send the same octets: by the
/// laws of one step alone.
pub fn isolation()
    ensures { Isolation }
{
    steps_are_alike();
    other_sessions_stay();
    quiet_polls_change_nothing();
    equal_views_are_same();
    messages_grow();
}

/// They send the same replies, however these are written.
pub fn isolation_of_replies()
    ensures { IsolationOfReplies }
{
    steps_are_alike();
    other_sessions_stay();
    quiet_polls_change_nothing();
    equal_views_are_same();
    messages_grow();
}

/// To each user, two runs that begin alike send the same replies if the user takes the same steps in both and
/// sees the same at each. How often others changed in between what the user may see makes no difference.
pub fn isolation_at_own_steps()
    ensures { IsolationAtOwnSteps }
{
    steps_are_alike();
    other_sessions_stay();
    quiet_polls_change_nothing();
    equal_views_are_same();
    messages_grow();
}

/// What others change and change back between two steps of the user tells the user nothing.
pub fn what_is_given_back_tells_nothing()
    ensures { GivenBackTellsNothing }
{
    steps_are_alike();
    other_sessions_stay();
    quiet_polls_change_nothing();
    equal_views_are_same();
    messages_grow();
}

/// A step of another that changes nothing of what the user may see is in no trace, and leaves the state
/// alike.
pub fn unseen_steps_are_silent()
    ensures { UnseenStepsAreSilent }
{
    steps_are_alike();
    other_sessions_stay();
    quiet_polls_change_nothing();
    equal_views_are_same();
    messages_grow();
}

/// A trace has another's step exactly if the step changed what the user may see: the test of two views passes
/// exactly if they are equal.
pub fn equal_views_are_same()
    ensures { EqualViewsAreSame }
{}

/// A step in two states that are alike to its user has equal replies, and the states afterwards are
/// alike again: by the laws of the commands.
pub fn steps_are_alike()
    ensures { StepsAreAlike }
{
    imap_changes::laws::commands_are_alike();
    imap_list::laws::commands_are_alike();
    imap_messages::laws::commands_are_alike();
    imap_messages::select_laws::commands_are_alike();
    imap_search::laws::commands_are_alike();
    imap_tree::laws::commands_are_alike();
}

/// A session that was told all of its mailbox up to a mod-sequence, and one that was told all up to another, know the
/// same exactly if one list of messages may be what both were told.
pub fn the_same_is_known_by_one_list()
    ensures { KnownByOneList }
{}

/// Sessions in step that differ in nothing but the mod-sequence up to which they were told all are alike exactly if
/// each message of their mailbox is known as it is to both or to neither.
pub fn same_knowledge_is_alike()
    ensures { SameKnowledgeIsAlike }
{}

/// A session that knows the messages of its mailbox and was told all of each, as after each step of which
/// [`messages_are_known`] speaks, is alike to one that selects the mailbox now. So by [`isolation`] it makes no
/// difference to what follows when the session was last told all.
pub fn selecting_again_is_alike()
    ensures { SelectingAgainIsAlike }
{}

/// States are alike to a user that differ in mailboxes alone which are hidden from the user. Under a name of
/// which the user may not know they may come and go, and leave used UIDVALIDITYs. Under another name a
/// hidden mailbox is there in both states or in neither, since the name is taken. What the user is answered
/// from then on is the same, by [`isolation`].
pub fn hidden_is_alike()
    ensures { HiddenIsAlike }
{}

/// A mailbox that is taken away with all below it leaves the state alike to a user who sees none of them, and
/// who may not know that their names are in use. So to the user a hidden mailbox is as one that isn't there.
pub fn hidden_subtrees_are_absent()
    ensures { HiddenSubtreesAreAbsent }
{
    hidden_is_alike();
}

/// A step changes no session but its own: neither another user's, nor another one of the same user.
pub fn other_sessions_stay()
    ensures users { OtherUsersStay }
    ensures own { OtherSessionsStay }
{}

/// What a step asks of the mailboxes can be made in every state in which the messages of each mailbox are as
/// its type keeps them: no reply says OK to an effect that is dropped.
pub fn effects_are_made()
    ensures { EffectsAreMade }
{}

/// No step adds messages to a mailbox that would then have more than `max_messages`: APPEND, COPY and MOVE are
/// refused that would.
pub fn quotas_are_kept()
    ensures { QuotasAreKept }
{}

/// In every state of the machine, what the type of a mailbox keeps holds of the messages of each. So the
/// machine's states meet what [`isolation`], [`steps_are_alike`] and [`effects_are_made`] ask of messages.
/// The superiors of each mailbox are there, and its UIDVALIDITY is counted as used. All open sessions are in
/// step with their mailboxes.
pub fn messages_are_kept(core: &Core)
    ensures sound { IsSound core.now.state.world }
    ensures messages { AreKept core.now.state.world.mailboxes }
    ensures sessions { AreInStep core.now.state.world core.now.state.accounts }
{
    core.invariant_holds();
}

/// No UIDVALIDITY is used twice under a name, whatever steps are made (RFC 9051, section 2.3.1.1).
pub fn validities_are_used_once()
    ensures { RunsKeepValidities }
{}

/// Under a name and a UIDVALIDITY messages only grow, whatever steps are made: UIDNEXT and the number of shared
/// events don't fall.
pub fn messages_grow()
    ensures { RunsGrowMessages }
{}

/// Each mailbox of a host that began without mailboxes is what events made of it, whatever steps were made: its
/// messages, mod-sequences and gone UIDs are for each user those of the events, and a client that follows what it is
/// told is brought up to them (RFC 7162, section 3.2.5). What begins with such mailboxes goes on with them.
pub fn mailboxes_are_made_by_events()
    ensures none { AreMadeByEvents map.empty }
    ensures starts { StartsAreMadeByEvents }
    ensures runs { RunsAreMadeByEvents }
{}

/// A step that is answered by a refusal leaves all mailboxes, subscriptions and sessions as they were, but for
/// what its session was told of its mailbox by lines before the refusal, which are none at BAD; a refused SELECT
/// or EXAMINE leaves no mailbox selected in its session, and a line that ends the IDLE of its session does so.
pub fn refusals_change_nothing()
    ensures { RefusalsChangeNothing }
{}

/// No step is answered UNAVAILABLE (RFC 5530).
pub fn never_unavailable()
    ensures { NeverUnavailable }
{}

/// A host starts with the mailboxes and subscriptions that it is given, a new INBOX for each user who
/// lacks one while a UIDVALIDITY is left (RFC 9051, section 5.1), and no open session. It counts the
/// UIDVALIDITYs of the new INBOXes as used, and all others stay counted as they were. It knows the
/// administrator and the users only.
pub fn starts_with_inboxes()
    ensures { StartsWithInboxes }
{}

/// Two stores that differ for a user in hidden mailboxes alone, and in used UIDVALIDITYs of names of which the
/// user may not know, start machines that are alike to the user. So by [`isolation`] the user's sessions are
/// sent the same over both.
pub fn starts_are_alike()
    ensures { StartsAreAlike }
{
    others_inboxes_are_hidden();
    creating_is_seen();
    hidden_is_absent();
}

/// Sessions stay in step with their mailboxes, whosever step is made: each was told all of its mailbox up to a
/// mod-sequence, but for expunges that were held back. [`messages_are_kept`] says that the machine's type keeps
/// what it asks.
pub fn sessions_stay_in_step()
    ensures { SessionsStayInStep }
{}

/// A poll to which nothing is answered changes nothing, in its own session neither.
pub fn quiet_polls_change_nothing()
    ensures { QuietPollsChangeNothing }
{}

/// A session that has not lost its mailbox knows the messages that its user sees there, with their flags and
/// mod-sequences, after each step that may tell expunges: a command, unless it is FETCH, STORE or SEARCH by number or
/// is answered BAD, and a poll or DONE of a session that idles.
pub fn messages_are_known()
    ensures { MessagesAreKnown }
{}

/// FETCH, STORE and SEARCH by number are answered by no EXPUNGE and no VANISHED (RFC 9051, section 7.5.1).
pub fn numbers_stay()
    ensures { NumbersStay }
{}
