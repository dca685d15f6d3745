//! The world.
//!
//! Used UIDVALIDITYs stand in a second map by name, in the order of the mailboxes, and not in a hash map: a
//! look-up then builds no key from tree and path, and RENAME puts a subtree's in by one pass.

ghost use Rattle.std.specs.Prelude.{◌≡◌, ◌↔◌, ◌+◌, ◌<◌, ◌≤◌, ◌∷◌, [], false, true, not, length, IfOk, Ok};
ghost use Rattle.std.specs.Prelude.{IsTrue, MatchOption, OnErr, OnOk, option_copied};
ghost use Rattle.std.specs.FinMap as map;
ghost use Rattle.imap_name_map.specs.Rows.{has_below, has_within};
ghost use Rattle.imap_world.specs.Changing.{Answers, AnswersOrMemory, Changes};
ghost use Rattle.imap_world.specs.Changing.{list_with_rights, world_with_placed, world_with_rights};
ghost use Rattle.imap_world.specs.Effects.{after_write, after_writes, writes_for, writes_of};
ghost use Rattle.imap_world.specs.Indexed.{IsIndexIn};
ghost use Rattle.imap_world.specs.Kept.{AreKept, IsSound};
ghost use Rattle.imap_world.specs.Laws.{KeepsValidities};
ghost use Rattle.imap_world.specs.Mailbox.{AreShared, plain_all, plain_lent};
ghost use Rattle.imap_world.specs.Messages.{with_messages};
ghost use Rattle.imap_world.specs.Moving.{with_moved};
ghost use Rattle.imap_world.specs.Parts.{Restores};
ghost use Rattle.imap_world.specs.Ready.{AreApart, HasRoomFor, IsCurrent, IsMadeByEffects, IsOneReady};
ghost use Rattle.imap_world.specs.Ready.{HasPartsRoom, IsReady, Leaves, MayChangeParts, MayMove, MayPut};
ghost use Rattle.imap_world.specs.Ready.{count_of};
ghost use Rattle.imap_world.specs.Stored.{names_in, world_of};
ghost use Rattle.imap_world.specs.Tree.{new_row, with_acl, with_row, without};
ghost use Rattle.imap_world.specs.World.{epoch, max_validity, subscribed_by};

use crate::arrivals::Arrivals;
use crate::change::{Change, Write};
use crate::copies::{copy_mailboxes, share_mailboxes};
use crate::effect::Effect;
use crate::error::WorldError;
use crate::indexing::{
    index_of, make_index_room, make_room_for_row, remove_from_index, set_list_in_index,
};
use crate::mailbox_entry::MailboxEntry;
use crate::messages::{make_message_room, write_parts};
use crate::moving::set_validities;
use crate::named_batch::NamedWrite;
use crate::new_mailbox::NewMailbox;
use crate::placing::{has_superior, new_row};
use crate::restored::{are_sound, mailboxes_of, map_of, subscriptions_of};
use crate::rights::{changed_acl, put_acl};
use crate::subscriptions::{add_name, make_room_for, remove_name};
use crate::world_parts::WorldParts;
use imap_batch::PartsError;
use imap_identifier_index::IdentifierIndex;
use imap_name_map::NameMap;
use imap_name_map::numbers::{next_number, number_of};
use imap_names::{Name, NameRef};
use imap_rights::{Acl, Identifier, RightsChange};
use imap_user_map::UserMap;
use imap_values::beside;
use std::alloc::{AllocError, Global};
use std::collections::VecDeque;
use std::marker::Model;

/// The mailboxes by their names, the greatest UIDVALIDITY that was ever used under each name, and the names
/// that each user subscribed to.
///
/// The superiors of a mailbox are there, and its UIDVALIDITY is counted among those that were used. Its
/// messages meet what a mailbox promises of them.
/// Contracts see the room for more, too; `world_of` leaves it out.
pub struct World {
    mailboxes: NameMap<MailboxEntry>,
    epochs: NameMap<u32>,
    subscriptions: UserMap<NameMap<()>>,
    // What LIST starts from. Contracts see no more of it than that it is one of these mailboxes.
    index: IdentifierIndex,
}

// Not derived: a derived one is proved anew in each crate that lets go of one.
impl Drop for World {
    fn drop(self) {
        let World {
            mailboxes: _,
            epochs: _,
            subscriptions: _,
            index: _,
        } = self;
    }
}

impl Model for World {
    ghost use Rattle.imap_world.specs.Indexed.{IsIndexIn};
    ghost use Rattle.imap_world.specs.Kept.{AreKept, IsSound};
    ghost use Rattle.imap_world.specs.Mailbox.{plain_all};
    ghost use Rattle.imap_world.specs.Stored.{Stored, stored_code, world_of};

    ghost Value = { Stored };

    ghost coded = { stored_code };

    ghost view = { λ w.
        record { mailboxes = w.mailboxes; epochs = w.epochs; subscriptions = w.subscriptions } };

    ghost invariant = { λ w.
        IsSound (world_of (record {
          mailboxes = w.mailboxes;
          epochs = w.epochs;
          subscriptions = w.subscriptions;
        })) × AreKept (plain_all w.mailboxes.map) × IsIndexIn w.index (plain_all w.mailboxes.map) };
}

impl World {
    /// Without mailboxes.
    pub fn new(alloc: Global) -> World
        ensures mailboxes { (world_of result).mailboxes ≡ map.empty }
        ensures epochs { (world_of result).epochs ≡ map.empty }
        ensures subscriptions { (world_of result).subscriptions ≡ map.empty }
    {
        World {
            mailboxes: NameMap::new(alloc),
            epochs: NameMap::new(alloc),
            subscriptions: UserMap::new(alloc),
            index: IdentifierIndex::new(alloc),
        }
    }

    /// The world for which the parts stand. Fails with `Bad` if they stand for none: if a mailbox, a used
    /// UIDVALIDITY or a subscription of a user is there twice under a name; a superior is missing; a
    /// UIDVALIDITY is 0, or is greater than the greatest that was used under its name; or the entries of a
    /// list, or the parts of a mailbox, stand for none.
    pub fn from_parts(alloc: Global, parts: WorldParts) -> Result<World, PartsError>
        ensures { Restores parts result }
    {
        let WorldParts {
            mailboxes,
            epochs,
            subscriptions,
        } = parts;
        let epochs = map_of(epochs)?;
        let mut mailboxes = mailboxes_of(alloc, mailboxes)?;
        if !are_sound(&mailboxes, &epochs) {
            return Err(PartsError::Bad);
        }
        let subscriptions = subscriptions_of(alloc, subscriptions)?;
        let index = index_of(&mut mailboxes, alloc)?;
        Ok(World {
            mailboxes,
            epochs,
            subscriptions,
            index,
        })
    }

    /// Lets copies share the messages of all mailboxes until they change. A copy still copies names, lists of
    /// rights, used UIDVALIDITYs and subscriptions. If memory runs out, some mailboxes are shared.
    pub fn share(&mut self, alloc: Global) -> Result<(), AllocError>
        ensures world { world_of self.new ≡ world_of self.old }
        ensures shared { OnOk result (AreShared self.new.mailboxes.map) }
    {
        share_mailboxes(&mut self.mailboxes, alloc)
    }

    /// Returns a copy. Its room may be another.
    pub fn try_copy(&self, alloc: Global) -> Result<World, AllocError>
        ensures { IfOk result (λ copy. world_of copy ≡ world_of self.now) }
    {
        let mailboxes = copy_mailboxes(alloc, &self.mailboxes)?;
        let front = beside(self.epochs.try_copy(alloc), mailboxes)?;
        let front = beside(self.subscriptions.try_copy(alloc), front)?;
        let (index, (subscriptions, (epochs, mailboxes))) = beside(
            self.index.try_copy(alloc),
            front,
        )?;
        Ok(World {
            mailboxes,
            epochs,
            subscriptions,
            index,
        })
    }

    /// Whether both are one world, whatever their room.
    pub fn same(&self, other: &World) -> bool
        ensures { IsTrue result ↔ (world_of self.now ≡ world_of other.now) }
    {
        self.mailboxes.is_same(&other.mailboxes)
            && self.epochs.is_same(&other.epochs)
            && self.subscriptions.is_same(&other.subscriptions)
    }

    /// The mailbox of this name, or `None` if there is none.
    pub fn mailbox(&self, name: &NameRef<'_>) -> Option<&MailboxEntry>
        ensures there { plain_lent result ≡ map.get (world_of self.now).mailboxes name.now }
        ensures valid { IsSound (world_of self.now) }
        ensures kept { AreKept (world_of self.now).mailboxes }
    {
        self.mailboxes.get(name)
    }

    /// All mailboxes, in the order of their names.
    pub fn mailboxes(&self) -> &NameMap<MailboxEntry>
        ensures { plain_all result.now.map ≡ (world_of self.now).mailboxes }
    {
        &self.mailboxes
    }

    /// What finds mailboxes by the identifiers in their lists.
    pub fn index(&self) -> &IdentifierIndex
        ensures { IsIndexIn result.now (world_of self.now).mailboxes }
    {
        &self.index
    }

    /// Whether there is a mailbox below the name.
    pub(crate) fn has_below(&self, name: &NameRef<'_>) -> bool
        ensures { result ≡ has_below name.now (world_of self.now).mailboxes }
    {
        self.mailboxes.has_below(name)
    }

    /// Whether neither the name nor one below it is in use.
    pub(crate) fn is_free(&self, name: &NameRef<'_>) -> bool
        ensures { result ≡ not (has_within name.now (world_of self.now).mailboxes) }
    {
        self.mailboxes.is_free(name)
    }

    /// The greatest UIDVALIDITY that was ever used under the name, and 0 if none was.
    pub fn epoch(&self, name: &NameRef<'_>) -> u32
        ensures { result ≡ epoch (world_of self.now).epochs name.now }
    {
        number_of(&self.epochs, name)
    }

    /// The names that the user subscribed to, or `None` if there never was one.
    pub fn subscriptions(&self, user: &str) -> Option<&NameMap<()>>
        ensures { names_in (option_copied result) ≡ subscribed_by (world_of self.now) user.now }
    {
        self.subscriptions.get(user)
    }

    /// Makes a mailbox without messages. Fails with `Taken` if it is there, else with `NoSuch` if its
    /// superior isn't, else with `Limit` if no UIDVALIDITY is left under its name. The root of a tree counts
    /// as there.
    pub fn place(&mut self, alloc: Global, name: Name, acl: Acl) -> Result<(), WorldError>
        ensures world { Changes result (world_of self.new) (world_with_placed (world_of self.old) name acl) }
        ensures err { OnErr result (world_of self.new ≡ world_of self.old) }
    {
        if self.mailbox(&name.as_ref()).is_some() {
            return Err(WorldError::Taken);
        }
        if !has_superior(&self.mailboxes, &name.as_ref()) {
            return Err(WorldError::NoSuch);
        }
        match new_row(alloc, &self.epochs, name, acl) {
            Ok(row) => self.add(alloc, row),
            Err(error) => Err(error),
        }
    }

    /// Makes room for a mailbox and writes it.
    fn add(&mut self, alloc: Global, row: NewMailbox) -> Result<(), WorldError>
        requires { MayPut row (world_of self.old) }
        ensures world { Changes result (world_of self.new) (Ok (with_row (world_of self.old) row)) }
        ensures err { OnErr result (world_of self.new ≡ world_of self.old) }
    {
        let room = self.make_room_to_add(alloc, &row);
        let ((), row) = beside(room, row)?;
        self.put(row);
        Ok(())
    }

    /// Makes room for a mailbox.
    fn make_room_to_add(&mut self, alloc: Global, row: &NewMailbox) -> Result<(), AllocError>
        ensures world { world_of self.new ≡ world_of self.old }
        ensures mailboxes { OnOk result (0 < self.new.mailboxes.spare) }
        ensures epochs { OnOk result (0 < self.new.epochs.spare) }
    {
        self.make_room_for_row(alloc, row)?;
        self.mailboxes.reserve(1)?;
        self.epochs.reserve(1)?;
        Ok(())
    }

    /// Changes the rights of one identifier on a mailbox (RFC 4314, section 3.1). Fails with `NoSuch` if
    /// there is no such mailbox, and with `Limit` if its list is full.
    pub fn set_acl(
        &mut self,
        alloc: Global,
        name: &NameRef<'_>,
        identifier: Identifier,
        change: RightsChange,
    ) -> Result<(), WorldError>
        ensures world { let meant = world_with_rights (world_of self.old) name.now identifier change in
            Changes result (world_of self.new) meant }
        ensures err { OnErr result (world_of self.new ≡ world_of self.old) }
    {
        let acl = self.list_with_rights(alloc, name, &identifier, change)?;
        self.make_room_for_list(alloc, &acl)?;
        self.put_list(name, acl);
        Ok(())
    }

    /// The list of a mailbox with the rights of one identifier changed.
    fn list_with_rights(
        &self,
        alloc: Global,
        name: &NameRef<'_>,
        identifier: &Identifier,
        change: RightsChange,
    ) -> Result<Acl, WorldError>
        ensures { let mailbox = map.get (world_of self.now).mailboxes name.now in
            Answers result (list_with_rights mailbox identifier.now change) }
    {
        match self.mailboxes.get(name) {
            Some(mailbox) => changed_acl(alloc, &mailbox.acl, identifier, change),
            None => Err(WorldError::NoSuch),
        }
    }

    /// Makes room in the index for a mailbox.
    fn make_room_for_row(&mut self, alloc: Global, row: &NewMailbox) -> Result<(), AllocError>
        ensures { self.new ≡ self.old }
    {
        make_room_for_row(&mut self.index, alloc, row, 1)
    }

    /// Makes room in the index for a mailbox with this list.
    fn make_room_for_list(&mut self, alloc: Global, acl: &Acl) -> Result<(), AllocError>
        ensures { self.new ≡ self.old }
    {
        self.index.reserve_entries(alloc, acl, 1)
    }

    /// Makes room in the index for all that is written.
    fn make_index_room(&mut self, alloc: Global, change: &Change) -> Result<(), AllocError>
        ensures { self.new ≡ self.old }
    {
        make_index_room(&mut self.index, alloc, change.writes(), change.len())
    }

    /// The UIDVALIDITY of the next mailbox that is made under the name: 1 more than the greatest that was
    /// ever used there (RFC 9051, section 2.3.1.1). `None` if that is the greatest there is.
    pub fn next_validity(&self, name: &NameRef<'_>) -> Option<u32>
        ensures { let used = epoch (world_of self.now).epochs name.now in
            MatchOption result (used ≡ max_validity)
            (λ validity. (validity ≡ used + 1) × (used < max_validity)) }
    {
        next_number(&self.epochs, name)
    }

    /// The mailbox that is made under a name, with the next UIDVALIDITY. Fails with `Limit` if none is left.
    pub(crate) fn next_row(
        &self,
        alloc: Global,
        name: Name,
        acl: Acl,
    ) -> Result<NewMailbox, WorldError>
        ensures { Answers result (new_row (world_of self.now).epochs name acl) }
    {
        new_row(alloc, &self.epochs, name, acl)
    }

    /// Finds the values to be written for the effects, and reserves all room. Changes nothing that is kept.
    ///
    /// Memory may run out before the fault of an effect that isn't the first.
    ///
    /// Fails with the first fault: `Taken` if a mailbox is to be made or to move to a name that is in use,
    /// `NoSuch` if one isn't there that is to go, to move or to have other rights or messages, or if a batch
    /// names a message that isn't there, `Cannot` if an INBOX is to go, a mailbox can't move there or two
    /// batches are of one mailbox, `Below` if one is below a mailbox that is to go, `Limit` if no UIDVALIDITY,
    /// UID or shared event is left, a message would have too many keywords, a name would be too long or too
    /// deep, or an access control list would be too long.
    pub fn prepare(&mut self, alloc: Global, effects: &[Effect]) -> Result<Change, WorldError>
        requires { AreApart effects.now }
        ensures unchanged { world_of self.new ≡ world_of self.old }
        ensures change { AnswersOrMemory result (writes_of effects.now (world_of self.old)) }
        ensures alone { (effect : Effect) → effects.now ≡ effect ∷ []
            → Answers result (writes_for effect (world_of self.old)) }
        ensures ready { IfOk result (λ change. IsReady change self.new) }
    {
        let change = self.resolve_all(alloc, effects)?;
        self.make_room(alloc, &change)?;
        Ok(change)
    }

    /// Makes room for all that is written.
    fn make_room(&mut self, alloc: Global, change: &Change) -> Result<(), AllocError>
        ensures unchanged { world_of self.new ≡ world_of self.old }
        ensures room { OnOk result (HasRoomFor change.now self.new) }
    {
        self.make_index_room(alloc, change)?;
        let more = change.len();
        self.mailboxes.reserve(more)?;
        self.epochs.reserve(change.count()?)?;
        make_message_room(&mut self.mailboxes, alloc, change.writes())?;
        make_room_for(&mut self.subscriptions, alloc, change.writes(), more)
    }

    /// Writes what was prepared. It must still be what effects ask for by the world as it is: since it was
    /// prepared nothing else may have been written.
    pub fn commit(&mut self, change: Change)
        requires { IsReady change self.old }
        ensures world { world_of self.new ≡ after_writes change (world_of self.old) }
        ensures effects { IsMadeByEffects (world_of self.old) (world_of self.new) }
        ensures validities { KeepsValidities (world_of self.old) (world_of self.new) }
    {
        let mut writes = VecDeque::from_vec(change.into_writes());
        while let Some(write) = writes.pop_front() {
            self.write(write);
        }
    }

    /// Makes a change that was prepared on another world that is the same as this one, which afterwards is the same
    /// as the other once it has committed. It fails only where memory runs out, and then nothing has changed.
    pub fn apply(&mut self, alloc: Global, change: &Change) -> Result<(), AllocError>
        requires { IsCurrent change.now (world_of self.old) }
        ensures ok { OnOk result (world_of self.new ≡ after_writes change.now (world_of self.old)) }
        ensures err { OnErr result (world_of self.new ≡ world_of self.old) }
    {
        let copy = change.try_copy(alloc)?;
        let ready = self.make_room(alloc, &copy);
        let ((), copy) = beside(ready, copy)?;
        self.commit(copy);
        Ok(())
    }

    /// Writes one value.
    fn write(&mut self, write: Write)
        requires { IsOneReady self.old write }
        ensures world { world_of self.new ≡ after_write write (world_of self.old) }
        ensures room { Leaves (count_of write) self.old self.new }
    {
        match write {
            Write::Put(row) => self.put(row),
            Write::SetAcl(name, acl) => self.put_list(&name.as_ref(), acl),
            Write::Remove(name) => self.remove(&name.as_ref()),
            Write::Move(old, new, arrivals) => {
                self.move_run(&old.as_ref(), &new.as_ref(), arrivals)
            }
            Write::Messages(part, other) => self.put_messages(part, other),
            Write::Subscribe(user, name) => {
                add_name(&mut self.subscriptions, user.as_str(), name)
            }
            Write::Unsubscribe(user, name) => {
                remove_name(&mut self.subscriptions, user.as_str(), &name.as_ref())
            }
        }
    }

    /// Writes a mailbox, and counts its UIDVALIDITY as used.
    fn put(&mut self, row: NewMailbox)
        requires mailboxes { 0 < self.old.mailboxes.spare }
        requires epochs { 0 < self.old.epochs.spare }
        requires may { MayPut row (world_of self.old) }
        ensures world { world_of self.new ≡ with_row (world_of self.old) row }
        ensures room { Leaves 1 self.old self.new }
    {
        let NewMailbox {
            name,
            epoch_name,
            mut mailbox,
        } = row;
        let validity = mailbox.validity;
        mailbox.number = self.index.add(&name, &mailbox.acl);
        self.mailboxes.insert_reserved(name, mailbox);
        self.epochs.insert_reserved(epoch_name, validity);
    }

    /// Writes the access control list of a mailbox, if it is there.
    fn put_list(&mut self, name: &NameRef<'_>, acl: Acl)
        ensures world { world_of self.new ≡ with_acl (world_of self.old) name.now acl }
        ensures room { Leaves 0 self.old self.new }
    {
        set_list_in_index(&mut self.index, &self.mailboxes, name, &acl);
        put_acl(&mut self.mailboxes, name, acl);
    }

    /// Writes to the messages of one mailbox, and of another one.
    fn put_messages(&mut self, part: NamedWrite, other: Option<NamedWrite>)
        requires room { HasPartsRoom self.old.mailboxes.map part other }
        requires may { MayChangeParts (world_of self.old).mailboxes part other }
        ensures world { world_of self.new ≡ with_messages (world_of self.old) part other }
        ensures room { Leaves 0 self.old self.new }
    {
        write_parts(&mut self.mailboxes, part, other);
    }

    /// Removes a mailbox with its messages, if it is there.
    fn remove(&mut self, name: &NameRef<'_>)
        requires { has_below name.now (world_of self.old).mailboxes ≡ false }
        ensures world { world_of self.new ≡ without (world_of self.old) name.now }
        ensures room { Leaves 0 self.old self.new }
    {
        remove_from_index(&mut self.index, &self.mailboxes, name);
        self.mailboxes.remove(name);
    }

    /// Calls a mailbox and all below it by a new name. They keep their lists and their messages.
    fn move_run(&mut self, old: &NameRef<'_>, new: &NameRef<'_>, arrivals: Arrivals)
        requires room { length arrivals ≤ self.old.epochs.spare }
        requires may { MayMove old.now new.now arrivals (world_of self.old) }
        ensures world { world_of self.new ≡ with_moved (world_of self.old) old.now new.now arrivals }
        ensures room { Leaves (length arrivals) self.old self.new }
    {
        let (names, validities) = arrivals.into_parts();
        let run = self.mailboxes.run_entries(old);
        self.index.rename_run(run, validities.as_slice(), old, new);
        self.mailboxes.rename(old, new, names);
        set_validities(&mut self.mailboxes, new, &validities);
        self.epochs.insert_run(new, validities);
    }
}
