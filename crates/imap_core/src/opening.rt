//! The state in which a host starts.

ghost use Rattle.std.specs.Prelude.{◌≡◌, IfOk, OnOk};
ghost use Rattle.std.specs.FinMap as map;
ghost use Rattle.imap_world.specs.Stored.{world_of};
ghost use Rattle.imap_sessions.specs.Accounts.{accounts_of};
ghost use Rattle.imap_core.specs.Opening.{admission, admission_of, needs_inbox, nobody, with_user, with_users};

use imap_names::{UserName, inbox_ref};
use imap_sessions::OwnSessions;
use imap_sessions::accounts::{add_account, is_known, no_accounts};
use imap_user_map::UserMap;
use imap_world::{Effect, World};
use std::alloc::{AllocError, Global};

/// The users who are known so far, and the INBOXes that are to be made for them.
#[derive(Drop)]
pub(crate) struct Opening {
    pub(crate) accounts: UserMap<OwnSessions>,
    pub(crate) effects: Vec<Effect>,
}

impl Opening {
    /// The administrator and the users are known, each once.
    pub(crate) fn of_users(
        alloc: Global,
        world: &World,
        administrator: &UserName,
        users: &[UserName],
    ) -> Result<Opening, AllocError>
        ensures { let found = admission (world_of world.now) administrator.now users.now in
            IfOk result (λ opening. admission_of opening ≡ found) }
    {
        let mut opening = Opening::new(alloc);
        opening.admit(alloc, world, administrator)?;
        opening.admit_all(alloc, world, users)?;
        Ok(opening)
    }

    fn new(alloc: Global) -> Opening
        ensures { admission_of result ≡ nobody }
    {
        Opening {
            accounts: no_accounts(alloc),
            effects: Vec::new(alloc),
        }
    }

    fn admit_all(
        &mut self,
        alloc: Global,
        world: &World,
        users: &[UserName],
    ) -> Result<(), AllocError>
        ensures { let so_far = admission_of self.old in
            OnOk result (admission_of self.new ≡ with_users (world_of world.now) users.now so_far) }
    {
        for user in users {
            self.admit(alloc, world, user)?;
        }
        Ok(())
    }

    /// Makes a user known who isn't yet, and asks for the user's INBOX, if it isn't there.
    fn admit(&mut self, alloc: Global, world: &World, user: &UserName) -> Result<(), AllocError>
        ensures { let so_far = admission_of self.old in
            OnOk result (admission_of self.new ≡ with_user (world_of world.now) user.now so_far) }
    {
        if is_known(&self.accounts, user) {
            return Ok(());
        }
        self.add_account(alloc, user)?;
        if needs_inbox(world, user) {
            self.effects.push(Effect::CreateInbox(user.try_copy()?))?;
        }
        Ok(())
    }

    /// Makes a user known, without sessions.
    fn add_account(&mut self, alloc: Global, user: &UserName) -> Result<(), AllocError>
        ensures accounts { let accounts = accounts_of self.old.accounts.map in
            OnOk result (accounts_of self.new.accounts.map ≡ map.insert accounts user.now map.empty) }
        ensures effects { self.new.effects ≡ self.old.effects }
    {
        add_account(alloc, &mut self.accounts, user)
    }
}

/// Whether the user has no INBOX, and a UIDVALIDITY is left for one.
fn needs_inbox(world: &World, user: &UserName) -> bool
    ensures { result ≡ needs_inbox (world_of world.now) user.now }
{
    let name = inbox_ref(user);
    world.mailbox(&name).is_none() && world.epoch(&name) < u32::MAX
}
