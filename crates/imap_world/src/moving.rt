//! Mailboxes that move to other names (RFC 9051, section 6.3.6).
//!
//! The names of a subtree move by rotation, each mailbox is found at its place beside the one before it,
//! and the UIDVALIDITYs go in as one run: it costs the names that move, a few look-ups, and one move of
//! what lies between.

ghost use Rattle.std.specs.Prelude.{◌≡◌, true, IfOk, Ok};
ghost use Rattle.std.specs.FinMap as map;
ghost use Rattle.imap_names.specs.Order.{is_within, moved};
ghost use Rattle.imap_names.specs.Valid.{fits};
ghost use Rattle.imap_world.specs.Changing.{Answers, AnswersOrMemory};
ghost use Rattle.imap_world.specs.declared.effect.Effect.TheVariants as effect;
ghost use Rattle.imap_world.specs.Effects.{move_after, puts_of, writes_for};
ghost use Rattle.imap_world.specs.Mailbox.{plain_all};
ghost use Rattle.imap_world.specs.Moving as specs;
ghost use Rattle.imap_world.specs.Stored.{world_of};

use crate::arrivals::Arrivals;
use crate::change::{Change, Write};
use crate::error::WorldError;
use crate::mailbox_entry::MailboxEntry;
use crate::world::World;
use imap_name_map::NameMap;
use imap_names::{Name, NameRef, UserName, is_above};
use std::alloc::Global;

impl World {
    /// Finds what is written for a mailbox that is called by a new name, with all below it. The tree has
    /// this owner.
    pub(crate) fn resolve_rename(
        &self,
        alloc: Global,
        owner: &UserName,
        old: &Name,
        new: &Name,
    ) -> Result<Change, WorldError>
        ensures { let asked = effect.Rename owner.now old.now new.now in
            Answers result (writes_for asked (world_of self.now)) }
    {
        if self.mailbox(&old.as_ref()).is_none() {
            return Err(WorldError::NoSuch);
        }
        if !can_move(old, new) {
            return Err(WorldError::Cannot);
        }
        if !self.is_free(&new.as_ref()) {
            return Err(WorldError::Taken);
        }
        if !self.is_within_limits(old, new) {
            return Err(WorldError::Limit);
        }
        self.resolve_move(alloc, owner, old, new)
    }

    /// The same, once the mailbox is there and can move to the name, which is free, within the limits.
    fn resolve_move(
        &self,
        alloc: Global,
        owner: &UserName,
        old: &Name,
        new: &Name,
    ) -> Result<Change, WorldError>
        ensures { let made = puts_of (specs.superior_rows (world_of self.now) owner.now new.now) in
            let arrivals = specs.arrivals (world_of self.now) old.now new.now in
            AnswersOrMemory result (move_after old.now new.now made arrivals) }
    {
        let change = self.resolve_superiors(alloc, owner, new)?;
        let arrivals = self.arrivals(alloc, old, new)?;
        with_move(change, old, new, arrivals)
    }

    /// Finds the superiors to be written for a name.
    fn resolve_superiors(
        &self,
        alloc: Global,
        owner: &UserName,
        name: &Name,
    ) -> Result<Change, WorldError>
        ensures { let rows = specs.superior_rows (world_of self.now) owner.now name.now in
            AnswersOrMemory result (puts_of rows) }
    {
        match name.as_ref().superior() {
            Some(above) => self.resolve_rows(alloc, owner, &above),
            None => Ok(Change::none(alloc)),
        }
    }

    /// The names that a mailbox and all below it get when they move from `old` to `new`.
    fn arrivals(&self, alloc: Global, old: &Name, new: &Name) -> Result<Arrivals, WorldError>
        ensures { AnswersOrMemory result (specs.arrivals (world_of self.now) old.now new.now) }
    {
        let run = self.mailboxes().run_entries(&old.as_ref());
        let mut arrivals = Arrivals::with_capacity(alloc, run.len())?;
        for entry in run {
            match self.arrival(alloc, &entry.0, old, new) {
                Ok((name, validity)) => arrivals.push(name, validity)?,
                Err(error) => return Err(error),
            }
        }
        Ok(arrivals)
    }

    /// The name that one mailbox gets, which is `old` or below it.
    fn arrival(
        &self,
        alloc: Global,
        name: &Name,
        old: &Name,
        new: &Name,
    ) -> Result<(Name, u32), WorldError>
        requires { is_within old.now name.now ≡ true }
        ensures { let meant = specs.arrival_at (world_of self.now).epochs (moved old.now new.now name.now) in
            AnswersOrMemory result meant }
    {
        match name.moved(alloc, old, new)? {
            Some(moved) => self.arrival_at(moved),
            None => Err(WorldError::Limit),
        }
    }

    /// The name with the next UIDVALIDITY that was never used there.
    fn arrival_at(&self, name: Name) -> Result<(Name, u32), WorldError>
        requires { fits name ≡ true }
        ensures { AnswersOrMemory result (specs.arrival_at (world_of self.now).epochs name) }
    {
        match self.next_validity(&name.as_ref()) {
            Some(validity) => Ok((name, validity)),
            None => Err(WorldError::Limit),
        }
    }
}

/// Whether a mailbox can move from one name to the other, whoever asks for it: no INBOX moves, and no
/// mailbox moves to another tree or below itself (RFC 9051, section 6.3.6).
pub fn can_move(old: &Name, new: &Name) -> bool
    ensures { result ≡ specs.can_move old.now new.now }
{
    if old.is_inbox() {
        return false;
    }
    old.tree().is_same(new.tree()) && !is_above(old, new)
}

/// The change, and after it the move.
fn with_move(
    mut change: Change,
    old: &Name,
    new: &Name,
    arrivals: Arrivals,
) -> Result<Change, WorldError>
    ensures { AnswersOrMemory result (move_after old.now new.now (Ok change) (Ok arrivals)) }
{
    let write = Write::Move(old.try_copy()?, new.try_copy()?, arrivals);
    change.push(write)?;
    Ok(change)
}

/// Gives each of these mailboxes its UIDVALIDITY. They are `top` and names below it, in their order.
pub(crate) fn set_validities(
    mailboxes: &mut NameMap<MailboxEntry>,
    top: &NameRef<'_>,
    validities: &[(Name, u32)],
)
    ensures mailboxes { let before = plain_all mailboxes.old.map in
        plain_all mailboxes.new.map ≡ specs.with_validities before validities.now }
    ensures spare { mailboxes.new.spare ≡ mailboxes.old.spare }
{
    let (mut place, _) = mailboxes.run(top);
    for entry in validities {
        set_validity(mailboxes, place, &entry.0.as_ref(), entry.1);
        place = place.wrapping_add(1);
    }
}

/// Gives a mailbox its UIDVALIDITY, if it is there. It is found at once if it is the one at `place`.
fn set_validity(
    mailboxes: &mut NameMap<MailboxEntry>,
    place: usize,
    name: &NameRef<'_>,
    validity: u32,
)
    ensures mailboxes { let before = plain_all mailboxes.old.map in
        plain_all mailboxes.new.map
        ≡ specs.with_validity before name.now validity (map.get before name.now) }
    ensures spare { mailboxes.new.spare ≡ mailboxes.old.spare }
{
    match mailboxes.get_mut_near(place, name) {
        Some(mailbox) => mailbox.validity = validity,
        None => {}
    }
}
