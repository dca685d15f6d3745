//! The values that are written for effects.

ghost use Rattle.std.specs.Prelude.{◌≡◌, ◌∷◌, [], IfOk, Ok};
ghost use Rattle.imap_world.specs.Changing.{Answers, AnswersOrMemory};
ghost use Rattle.imap_world.specs.Effects.{put_of, puts_of, writes_for, writes_of, writes_then};
ghost use Rattle.imap_world.specs.Stored.{world_of};
ghost use Rattle.imap_rights.specs.Acl.{owner_acl};
ghost use Rattle.imap_world.specs.Tree.{created_rows, inherited, new_row, rows_for};
ghost use Rattle.imap_world.specs.NewMailbox as made;
ghost use Rattle.imap_world.specs.World.{inbox};

use crate::change::{Change, Write};
use crate::effect::Effect;
use crate::error::WorldError;
use crate::new_mailbox::NewMailbox;
use crate::owner::owner_acl;
use crate::rights::changed_acl;
use crate::world::World;
use imap_names::{Name, NameRef, UserName, inbox, inbox_ref};
use imap_rights::{Acl, Identifier, RightsChange};
use std::alloc::{AllocError, Global};

impl World {
    /// Finds the values to be written for the effects, each by the world as it is. Returns the first fault.
    pub(crate) fn resolve_all(
        &self,
        alloc: Global,
        effects: &[Effect],
    ) -> Result<Change, WorldError>
        ensures change { AnswersOrMemory result (writes_of effects.now (world_of self.now)) }
        ensures alone { (effect : Effect) → effects.now ≡ effect ∷ []
            → Answers result (writes_for effect (world_of self.now)) }
    {
        match effects {
            [effect] => self.resolve(alloc, effect),
            _ => self.resolve_each(alloc, effects),
        }
    }

    /// The same, one effect after another.
    fn resolve_each(&self, alloc: Global, effects: &[Effect]) -> Result<Change, WorldError>
        ensures { AnswersOrMemory result (writes_of effects.now (world_of self.now)) }
    {
        let mut change = Change::none(alloc);
        for effect in effects {
            match self.resolve(alloc, effect) {
                Ok(writes) => change.append(writes)?,
                Err(error) => return Err(error),
            }
        }
        Ok(change)
    }

    /// Finds the values to be written for one effect.
    fn resolve(&self, alloc: Global, effect: &Effect) -> Result<Change, WorldError>
        ensures { Answers result (writes_for effect.now (world_of self.now)) }
    {
        match effect {
            Effect::CreateInbox(user) => self.resolve_inbox(alloc, user),
            Effect::Create(owner, name) => self.resolve_create(alloc, owner, name),
            Effect::Delete(name) => self.resolve_delete(alloc, name),
            Effect::Rename(owner, old, new) => self.resolve_rename(alloc, owner, old, new),
            Effect::SetRights(name, identifier, change) => {
                self.resolve_rights(alloc, name, identifier, *change)
            }
            Effect::Messages(part, other) => self.resolve_messages(alloc, part, other),
            Effect::Subscribe(user, name) => {
                let write = Write::Subscribe(user.try_copy()?, name.try_copy()?);
                Ok(Change::of(alloc, write)?)
            }
            Effect::Unsubscribe(user, name) => {
                let write = Write::Unsubscribe(user.try_copy()?, name.try_copy()?);
                Ok(Change::of(alloc, write)?)
            }
        }
    }

    /// Finds the mailbox to be written for a user's INBOX.
    fn resolve_inbox(&self, alloc: Global, user: &UserName) -> Result<Change, WorldError>
        ensures { Answers result (writes_for (Effect.CreateInbox user.now) (world_of self.now)) }
    {
        if self.mailbox(&inbox_ref(user)).is_some() {
            return Err(WorldError::Taken);
        }
        match self.next_validity(&inbox_ref(user)) {
            Some(validity) => Ok(inbox_change(alloc, user, validity)?),
            None => Err(WorldError::Limit),
        }
    }

    /// Finds the mailboxes to be written for a name, which lies in a tree of `owner`, and for its superiors.
    fn resolve_create(
        &self,
        alloc: Global,
        owner: &UserName,
        name: &Name,
    ) -> Result<Change, WorldError>
        ensures { let effect = Effect.Create owner.now name.now in
            Answers result (writes_for effect (world_of self.now)) }
    {
        if self.mailbox(&name.as_ref()).is_some() {
            return Err(WorldError::Taken);
        }
        if !self.can_make(&name.as_ref()) {
            return Err(WorldError::Limit);
        }
        self.resolve_rows(alloc, owner, &name.as_ref())
    }

    /// Finds the mailboxes to be written for a name, unless it is there, and for its superiors. Each has
    /// the list of the nearest superior that is there.
    pub(crate) fn resolve_rows(
        &self,
        alloc: Global,
        owner: &UserName,
        name: &NameRef<'_>,
    ) -> Result<Change, WorldError>
        ensures { AnswersOrMemory result (puts_of (created_rows (world_of self.now) owner.now name.now)) }
    {
        let acl = self.inherited_acl(alloc, owner, name)?;
        self.rows_for(alloc, &acl, name)
    }

    /// The access control list of the nearest superior that is there, or one that gives `owner` all rights.
    fn inherited_acl(
        &self,
        alloc: Global,
        owner: &UserName,
        name: &NameRef<'_>,
    ) -> Result<Acl, AllocError>
        ensures { IfOk result (λ acl. acl ≡ inherited (world_of self.now).mailboxes owner.now name.now) }
    {
        match name.superior() {
            Some(above) => match self.mailbox(&above) {
                Some(mailbox) => mailbox.acl.try_copy(alloc),
                None => self.inherited_acl(alloc, owner, &above),
            },
            None => owner_acl(alloc, owner),
        }
    }

    /// Finds the mailboxes to be written for a name, unless it is there: first its superiors, from the
    /// outermost on, and last itself. Each has the list `acl`.
    fn rows_for(&self, alloc: Global, acl: &Acl, name: &NameRef<'_>) -> Result<Change, WorldError>
        ensures { AnswersOrMemory result (puts_of (rows_for (world_of self.now) acl.now name.now)) }
    {
        if self.mailbox(name).is_some() {
            return Ok(Change::none(alloc));
        }
        let change = match name.superior() {
            Some(above) => self.rows_for(alloc, acl, &above)?,
            None => Change::none(alloc),
        };
        let own = name.to_name(alloc)?;
        self.with_last_row(alloc, change, own, acl.try_copy(alloc)?)
    }

    /// The change, and after it the mailbox that is made under `name`.
    fn with_last_row(
        &self,
        alloc: Global,
        mut change: Change,
        name: Name,
        acl: Acl,
    ) -> Result<Change, WorldError>
        ensures { let row = new_row (world_of self.now).epochs name acl in
            AnswersOrMemory result (writes_then (Ok change) (put_of row)) }
    {
        let row = self.next_row(alloc, name, acl)?;
        change.push(Write::Put(row))?;
        Ok(change)
    }

    /// Finds what is written for a mailbox that goes.
    fn resolve_delete(&self, alloc: Global, name: &Name) -> Result<Change, WorldError>
        ensures { Answers result (writes_for (Effect.Delete name.now) (world_of self.now)) }
    {
        if self.mailbox(&name.as_ref()).is_none() {
            return Err(WorldError::NoSuch);
        }
        if name.is_inbox() {
            return Err(WorldError::Cannot);
        }
        if self.has_below(&name.as_ref()) {
            return Err(WorldError::Below);
        }
        Ok(Change::of(alloc, Write::Remove(name.try_copy()?))?)
    }

    /// Finds the access control list to be written for a mailbox.
    fn resolve_rights(
        &self,
        alloc: Global,
        name: &Name,
        identifier: &Identifier,
        change: RightsChange,
    ) -> Result<Change, WorldError>
        ensures { let effect = Effect.SetRights name.now identifier.now change in
            Answers result (writes_for effect (world_of self.now)) }
    {
        match self.mailbox(&name.as_ref()) {
            Some(mailbox) => {
                let acl = changed_acl(alloc, &mailbox.acl, identifier, change)?;
                Ok(Change::of(alloc, Write::SetAcl(name.try_copy()?, acl))?)
            }
            None => Err(WorldError::NoSuch),
        }
    }
}

/// Writes a user's INBOX, with this UIDVALIDITY and all rights for the user alone.
fn inbox_change(alloc: Global, user: &UserName, validity: u32) -> Result<Change, AllocError>
    ensures { let acl = owner_acl user.now in
        let row : made.NewMailbox = record { name = inbox user.now; validity = validity; acl = acl } in
        IfOk result (λ change. change ≡ Write.Put row ∷ []) }
{
    let acl = owner_acl(alloc, user)?;
    let row = NewMailbox::new(alloc, inbox(alloc, user)?, validity, acl)?;
    Change::of(alloc, Write::Put(row))
}
