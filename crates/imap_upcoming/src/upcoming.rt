//! A mailbox as a change will leave it to a user.

ghost use Rattle.std.specs.Prelude.{◌≡◌, ◌<◌, ◌≤◌, true, option_and_then, option_map, IfSome};
ghost use Rattle.std.specs.FinMap as map;
ghost use Rattle.imap_batch.specs.Written.{with_batch, MayWrite};
ghost use Rattle.imap_mailbox.specs.Held.{IsKept};
ghost use Rattle.imap_mailbox.specs.Order.{AreRowsInOrder};
ghost use Rattle.imap_modseq.specs.Numbers.{max_events, max_number};
ghost use Rattle.imap_rights.specs.Effective.{effective};
ghost use Rattle.imap_rights.specs.Rights.{has_any, read};
ghost use Rattle.imap_session.specs.Held.{uid_limit};
ghost use Rattle.imap_upcoming.specs.Asked.{IsAskedBy};
ghost use Rattle.imap_upcoming.specs.Changed.{mailbox_after, MayBeMade};
ghost use Rattle.imap_upcoming.specs.Readable.{messages_for, readable, readable_for};
ghost use Rattle.imap_view.specs.Readable.{readable_in};
ghost use Rattle.imap_view.specs.View.{view_of};
ghost use Rattle.imap_world.specs.Effects.{after_writes};
ghost use Rattle.imap_world.specs.Mailbox.{plain};
ghost use Rattle.imap_world.specs.Stored.{world_of};

use crate::changed::{acl_after, batch_for};
use crate::counts::{next_uid_after, own_after, shared_after};
use crate::upcoming_messages::UpcomingMessages;
use imap_batch::BatchWrite;
use imap_modseq::highest_after;
use imap_names::{Name, UserName};
use imap_rights::{Acl, Groups, Rights};
use imap_view::View;
use imap_world::{Change, MailboxEntry, Site, World};

/// What a user who may read a mailbox will see of its messages, once a change is made.
#[derive(Drop)]
pub struct Upcoming<'a> {
    /// UIDVALIDITY (RFC 9051, section 2.3.1.1).
    pub validity: u32,
    /// UIDNEXT (RFC 9051, section 2.3.1.1).
    pub next_uid: u32,
    /// HIGHESTMODSEQ for the user (RFC 7162, section 3.1.2.1).
    pub highest: u64,
    /// The number of changes of the user's own `\Seen`.
    pub own: u64,
    /// The messages as the user will have them.
    pub messages: UpcomingMessages<'a>,
}

impl<'a> Upcoming<'a> {
    /// The mailbox of this name, which is there, as the change will leave it, if the user may read it then.
    /// The user asked for the change, which was found for the world as it is.
    pub fn after(
        world: &'a World,
        site: &'a Site,
        user: &'a UserName,
        change: &'a Change,
        name: &Name,
    ) -> Option<Upcoming<'a>>
        requires asked { IsAskedBy site.now user.now (world_of world.now) change.now }
        requires there { map.contains_key (world_of world.now).mailboxes name.now ≡ true }
        ensures readable { let after = after_writes change.now (world_of world.now) in
            option_map readable result ≡ readable_in (view_of site.now user.now after) name.now }
        ensures valid { IfSome result (λ u. AreRowsInOrder u.next_uid u.highest u.messages) }
        ensures uids { IfSome result (λ u. u.next_uid < uid_limit) }
        ensures few { IfSome result (λ u. u.own ≤ max_events) }
        ensures bounded { IfSome result (λ u. u.highest ≤ max_number) }
    {
        let entry = world.mailbox(&name.as_ref())?;
        let view = View::new(world, site, user);
        Upcoming::of_entry(
            entry,
            user,
            view.owner(name),
            site.groups.groups(),
            change,
            name,
        )
    }

    /// The mailbox of this name, if the user may read it then. `owner` is that of its tree.
    fn of_entry(
        entry: &'a MailboxEntry,
        user: &UserName,
        owner: &UserName,
        groups: &Groups,
        change: &'a Change,
        name: &Name,
    ) -> Option<Upcoming<'a>>
        requires may { MayBeMade user.now name.now change.now (plain entry.now).messages }
        requires kept { IsKept (plain entry.now).messages }
        ensures readable { let after = mailbox_after name.now change.now (plain entry.now) in
            option_map readable result ≡ option_and_then (readable_for user.now owner.now groups.now) after }
        ensures valid { IfSome result (λ u. AreRowsInOrder u.next_uid u.highest u.messages) }
        ensures uids { IfSome result (λ u. u.next_uid < uid_limit) }
        ensures few { IfSome result (λ u. u.own ≤ max_events) }
        ensures bounded { IfSome result (λ u. u.highest ≤ max_number) }
    {
        let acl = acl_after(name, &entry.acl, change)?;
        let may = may_read(user, owner, groups, acl);
        if !may {
            return None;
        }
        match batch_for(name, change) {
            Some(write) => Some(Upcoming::written(entry, write)),
            None => Some(Upcoming::there(entry, user)),
        }
    }

    /// A mailbox as it is.
    fn there(entry: &'a MailboxEntry, user: &UserName) -> Upcoming<'a>
        ensures readable { let mailbox = plain entry.now in
            readable result ≡ messages_for user.now mailbox.validity mailbox.messages }
        ensures uids { result.next_uid < uid_limit }
    {
        let mailbox = entry.messages.as_ref();
        let user = user.as_str();
        Upcoming {
            validity: entry.validity,
            next_uid: mailbox.next_uid(),
            highest: mailbox.highest(user),
            own: mailbox.own_len(user),
            messages: UpcomingMessages::there(mailbox, user),
        }
    }

    /// A mailbox as a batch will leave it to its user.
    fn written(entry: &'a MailboxEntry, write: &'a BatchWrite) -> Upcoming<'a>
        requires { MayWrite write.now (plain entry.now).messages }
        ensures readable { let mailbox = plain entry.now in
            let batch = write.now.batch in
            let messages = with_batch batch mailbox.messages in
            readable result ≡ messages_for batch.user mailbox.validity messages }
        ensures uids { result.next_uid < uid_limit }
    {
        let mailbox = entry.messages.as_ref();
        let own = own_after(mailbox, write);
        Upcoming {
            validity: entry.validity,
            next_uid: next_uid_after(mailbox, write),
            highest: highest_after(shared_after(mailbox, write), own),
            own,
            messages: UpcomingMessages::planned(mailbox, write),
        }
    }
}

/// Whether the user may read a mailbox with this list in a tree of `owner`.
fn may_read(user: &UserName, owner: &UserName, groups: &Groups, acl: &Acl) -> bool
    ensures { result ≡ has_any (effective user.now owner.now groups.now acl.now) read }
{
    acl.effective(user.as_str(), owner.as_str(), groups)
        .has_any(Rights::READ)
}
