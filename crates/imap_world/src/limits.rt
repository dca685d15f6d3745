//! The limits of CREATE and RENAME, which are found before memory is taken.
//!
//! The UIDVALIDITY under a moved name is looked up by a path that is written on the stack, so that a limit
//! is found before memory is taken.

ghost use Rattle.std.specs.Prelude.{◌≡◌, ◌<◌, ◌&&◌, ℕ, List, true, length};
ghost use Rattle.std.specs.List.{list_all};
ghost use Rattle.std.specs.Result.{is_ok};
ghost use Rattle.imap_name_map.specs.Renaming.{moved_names};
ghost use Rattle.imap_names.specs.Order.{is_within, moved};
ghost use Rattle.imap_rights.specs.Acl.{AclMap};
ghost use Rattle.imap_world.specs.Moving as specs;
ghost use Rattle.imap_world.specs.Stored.{world_of};
ghost use Rattle.imap_world.specs.Tree.{rows_for};

use crate::world::World;
use imap_names::{MAX_PATH_OCTETS, Name, NameRef};

impl World {
    /// Whether a UIDVALIDITY is left for the mailbox, unless it is there, and for each of its superiors that
    /// isn't.
    pub(crate) fn can_make(&self, name: &NameRef<'_>) -> bool
        requires { 1 < length name.now }
        ensures { (acl : AclMap) → result ≡ is_ok (rows_for (world_of self.now) acl name.now) }
    {
        if self.mailbox(name).is_some() {
            return true;
        }
        if self.epoch(name) == u32::MAX {
            return false;
        }
        match name.superior() {
            Some(above) => self.can_make(&above),
            None => true,
        }
    }

    /// Whether a mailbox can move from `old` to `new` as far as limits go: each superior that is made can
    /// have a UIDVALIDITY, and so can each mailbox that moves, whose new name is neither too long nor too
    /// deep.
    pub(crate) fn is_within_limits(&self, old: &Name, new: &Name) -> bool
        ensures { (owner : List ℕ) → let world = world_of self.now in
            result ≡ (is_ok (specs.superior_rows world owner new.now)
            && is_ok (specs.arrivals world old.now new.now)) }
    {
        self.can_make_superiors(new) && self.can_all_arrive(old, new)
    }

    /// Whether a UIDVALIDITY is left for each superior that isn't there.
    fn can_make_superiors(&self, name: &Name) -> bool
        ensures { (owner : List ℕ) → result ≡ is_ok (specs.superior_rows (world_of self.now) owner name.now) }
    {
        match name.as_ref().superior() {
            Some(above) => self.can_make(&above),
            None => true,
        }
    }

    /// Whether each mailbox that moves can have its new name.
    fn can_all_arrive(&self, old: &Name, new: &Name) -> bool
        ensures { let names = moved_names old.now new.now (world_of self.now).mailboxes in
            result ≡ list_all (specs.can_arrive (world_of self.now).epochs) names }
    {
        let run = self.mailboxes().run_entries(&old.as_ref());
        for entry in run {
            if !self.can_arrive(&entry.0, old, new) {
                return false;
            }
        }
        true
    }

    /// Whether a mailbox, which is `old` or below it, can have its new name.
    fn can_arrive(&self, name: &Name, old: &Name, new: &Name) -> bool
        requires { is_within old.now name.now ≡ true }
        ensures { let epochs = (world_of self.now).epochs in
            result ≡ specs.can_arrive epochs (moved old.now new.now name.now) }
    {
        let mut room = [0u8; MAX_PATH_OCTETS];
        match name.moved_in(&mut room, old, new) {
            Some(moved) => self.epoch(&moved) < u32::MAX,
            None => false,
        }
    }
}
