//! The machine.

ghost use Rattle.std.specs.Prelude.{◌≡◌, ℕ, Ok, IfOk, OnOk, OnErr, List, option_copied, option_map};
ghost use Rattle.std.specs.FinMap as map;
ghost use Rattle.std.specs.List.{AllByRecursion};
ghost use Rattle.imap_session.specs.State.{state_of};
ghost use Rattle.imap_world.specs.Effects.{after_writes, writes_of};
ghost use Rattle.imap_world.specs.Mailbox.{AreShared};
ghost use Rattle.imap_world.specs.Ready as world;
ghost use Rattle.imap_world.specs.Ready.{AreApart};
ghost use Rattle.imap_world.specs.Stored.{world_of};
ghost use Rattle.imap_sessions.specs.Accounts.{accounts_after, held_in, session_at};
ghost use Rattle.imap_sessions.specs.Held.{HasKnownRoom};
ghost use Rattle.imap_core.specs.InStep.{IsMachineKept};
ghost use Rattle.imap_core.specs.Machine as specs;
ghost use Rattle.imap_answer.specs.Alike.{effects_of};
ghost use Rattle.imap_core.specs.Machine.{IsOneStep, IsPartWay, after_steps, answer, answers, next};
ghost use Rattle.imap_core.specs.Opening.{admission, state_at_start};
ghost use Rattle.imap_core.specs.Pending.{IsCompletable, completed, effect_in};
ghost use Rattle.imap_core.specs.Planned.{ArePrintable, IsReady, change_of};
ghost use Rattle.imap_sessions.specs.Planned.{MayTell, room_needed};
ghost use Rattle.imap_core.specs.Planned.{replies_in, replies_of, session_of};
ghost use Rattle.imap_core.specs.Planned.{state_after, who_of};
ghost use Rattle.imap_core.specs.Trace.{AreIsolated, sent_to, transcript};
ghost use Rattle.imap_core.specs.Version.{version_in, version_of};
ghost use Rattle.imap_sessions.specs.Notices.{selected_mailbox};

use crate::commands::selected_mailbox;
use crate::effects::{resolve_effects, with_effects};
use crate::laws::isolation_of_replies;
use crate::mailbox_version::MailboxVersion;
use crate::notices::with_notices;
use crate::opening::Opening;
use crate::outcome::Outcome;
use crate::pending::Pending;
use crate::reply::step_pending;
use crate::step::Step;
use imap_names::{UserName, inbox_ref};
use imap_print::Response;
use imap_rights::{Groups, SharedGroups};
use imap_session::Session;
use imap_sessions::accounts::{change_session, open_session, own_sessions, reserve_known};
use imap_sessions::{OwnSessions, PlannedChange, SessionEffect, SessionId, room_needed};
use imap_user_map::UserMap;
use imap_values::beside;
use imap_view::View;
use imap_world::{Change, Effect, Limits, Site, World};
use std::alloc::{AllocError, Global};
use std::marker::Model;

/// The mailboxes and the open sessions of all users. Each session knows its mailbox up to the mod-sequence up to
/// which it was told of it. Contracts see the state of the machine, and its world and its accounts with the room
/// for more.
pub struct Core {
    site: Site,
    world: World,
    accounts: UserMap<OwnSessions>,
}

// Not derived: a derived one is proved anew in each crate that lets go of one.
impl Drop for Core {
    fn drop(self) {
        let Core {
            site: _,
            world: _,
            accounts: _,
        } = self;
    }
}

impl Model for Core {
    ghost use Rattle.imap_sessions.specs.Accounts.{accounts_of};
    ghost use Rattle.imap_core.specs.InStep.{IsMachineKept};
    ghost use Rattle.imap_core.specs.Machine.{Machine, machine_code};
    ghost use Rattle.imap_world.specs.Stored.{world_of};

    ghost Value = { Machine };

    ghost coded = { machine_code };

    ghost view = { λ c. record {
      state = record { site = c.site; world = world_of c.world; accounts = accounts_of c.accounts.map };
      stored = c.world;
      held = c.accounts.map;
    } };

    ghost invariant = { λ c. IsMachineKept (world_of c.world) (accounts_of c.accounts.map) };
}

/// A step that is ready to be made: from here on it takes no memory.
#[derive(Drop)]
pub struct Prepared {
    who: SessionId,
    replies: Vec<Response>,
    session: SessionEffect,
    change: Change,
}

impl Prepared {
    /// The replies to the step, for the session once the step is made.
    pub fn replies(&self) -> &[Response]
        ensures { result.now ≡ replies_of self.now }
    {
        self.replies.as_slice()
    }

    /// What the step changes in the mailboxes.
    pub fn change(&self) -> &Change
        ensures { result.now ≡ change_of self.now }
    {
        &self.change
    }
}

impl Core {
    /// Starts a host with these users, of whom the administrator is one, in these groups, and makes the INBOX of each who
    /// has none. The change holds those that were made. An INBOX that was gone and has no UIDVALIDITY
    /// left isn't made.
    pub fn open(
        alloc: Global,
        world: World,
        administrator: UserName,
        users: &[UserName],
        groups: Groups,
        limits: Limits,
    ) -> Result<(Core, Change), AllocError>
        ensures state { let start = state_at_start (world_of world) administrator users.now groups limits in
            IfOk result (λ made. made.0.state ≡ start) }
        ensures change { let asked = (admission (world_of world) administrator users.now).effects in
            IfOk result (λ made. writes_of asked (world_of world) ≡ Ok made.1) }
    {
        let found = Opening::of_users(alloc, &world, &administrator, users);
        let (opening, (world, administrator)) = beside(found, (world, administrator))?;
        let (groups, world) = beside(SharedGroups::new(alloc, groups), world)?;
        let Opening { accounts, effects } = opening;
        let (world, change) = with_effects(alloc, world, effects.as_slice())?;
        // The contract of a look-up hands on what the type of the world keeps.
        let _ = world.mailbox(&inbox_ref(&administrator));
        let site = Site {
            administrator,
            limits,
            groups,
        };
        let core = Core {
            site,
            world,
            accounts,
        };
        Ok((core, change))
    }

    /// Lets copies share the messages of all mailboxes until they change. If memory runs out, some are shared.
    pub fn share(&mut self, alloc: Global) -> Result<(), AllocError>
        ensures state { self.new.state ≡ self.old.state }
        ensures shared { OnOk result (AreShared self.new.stored.mailboxes.map) }
    {
        self.world.share(alloc)
    }

    /// Returns an equal copy. It shares the texts of names.
    pub fn try_copy(&self, alloc: Global) -> Result<Core, AllocError>
        ensures { IfOk result (λ copy. copy.state ≡ self.now.state) }
    {
        let groups = self.site.groups.try_copy()?;
        let (administrator, groups) = beside(self.site.administrator.try_copy(), groups)?;
        let site = Site {
            administrator,
            limits: self.site.limits,
            groups,
        };
        let (world, site) = beside(self.world.try_copy(alloc), site)?;
        let (accounts, (world, site)) = beside(self.accounts.try_copy(alloc), (world, site))?;
        Ok(Core {
            site,
            world,
            accounts,
        })
    }

    /// The mailboxes.
    pub fn world(&self) -> &World
        ensures { world_of result.now ≡ self.now.state.world }
    {
        &self.world
    }

    /// The session, if it is open.
    pub fn session(&self, who: &SessionId) -> Option<&Session>
        ensures { option_map state_of (option_copied result)
            ≡ session_at self.now.state.accounts who.now.user who.now.number }
    {
        open_session(&self.accounts, who)
    }

    /// Returns the version of the mailbox that the session has selected. Returns `None` if the session isn't open, has
    /// none selected, or its user may not read it.
    pub fn selected_version(&self, who: &SessionId) -> Option<MailboxVersion>
        ensures { result ≡ version_in self.now.state who.now.user who.now.number }
    {
        match self.session(who) {
            Some(session) => {
                let view = View::new(&self.world, &self.site, &who.user);
                version_of_selected(&view, session)
            }
            None => None,
        }
    }

    /// Does nothing: its contract says the invariant of the type.
    pub(crate) fn invariant_holds(&self)
        ensures { IsMachineKept self.now.state.world self.now.state.accounts }
    {
        let _ = &self.world;
    }

    /// Finds what the step is answered and what it changes, and changes nothing yet.
    pub fn prepare(&mut self, alloc: Global, step: &Step) -> Result<Prepared, AllocError>
        ensures unchanged { self.new.state ≡ self.old.state }
        ensures who { IfOk result (λ prepared. who_of prepared ≡ step.now.who) }
        ensures replies { IfOk result (λ prepared. replies_of prepared ≡ answer self.old.state step.now) }
        ensures session { let meant = (specs.outcome self.old.state step.now).session in
            IfOk result (λ prepared. session_of prepared ≡ meant) }
        ensures change { let asked = effects_of (specs.outcome self.old.state step.now).effect in
            IfOk result (λ prepared. writes_of asked self.old.state.world ≡ Ok (change_of prepared)) }
        ensures next { IfOk result
            (λ prepared. state_after prepared self.old.state ≡ next self.old.state step.now) }
        ensures ready { IfOk result (λ prepared. IsReady prepared self.new) }
        ensures printable { IfOk result (λ prepared. ArePrintable prepared.replies) }
    {
        let who = step.who.try_copy()?;
        let pending = self.pending(alloc, step)?;
        let found = self.resolve(alloc, pending.effects());
        let (change, pending) = beside(found, pending)?;
        let found = self.complete(alloc, step, pending, &change);
        let (outcome, change) = beside(found, change)?;
        let (replies, session) = outcome.into_parts();
        let prepared = Prepared {
            who,
            replies,
            session,
            change,
        };
        let room = self.make_room(&prepared.who, room_needed(&prepared.session));
        let ((), prepared) = beside(room, prepared)?;
        Ok(prepared)
    }

    /// Makes the steps in their order. After a refusal the steps before the refused one stand.
    pub fn run(&mut self, alloc: Global, steps: &[Step]) -> Result<Vec<Vec<Response>>, AllocError>
        ensures answers { IfOk result (λ said. replies_in said ≡ answers self.old.state steps.now) }
        ensures octets { IfOk result (λ said. (user : List ℕ)
            → sent_to user steps.now (replies_in said) ≡ transcript user self.old.state steps.now) }
        ensures isolated { IfOk result (λ said. AreIsolated self.old.state steps.now (replies_in said)) }
        ensures state { OnOk result (self.new.state ≡ after_steps self.old.state steps.now) }
        ensures printable { IfOk result (λ said. AllByRecursion ArePrintable said.items) }
        ensures err { OnErr result (IsPartWay self.old.state steps.now self.new.state) }
    {
        let mut said = Vec::with_capacity(alloc, steps.len())?;
        for step in steps {
            let prepared = self.prepare(alloc, step)?;
            said.push_reserved(self.commit(prepared));
        }
        isolation_of_replies();
        Ok(said)
    }

    /// Makes the step, and gives what its session is told. It must still be what a step finds in the machine as
    /// it is: since it was prepared nothing else may have been committed.
    pub fn commit(&mut self, prepared: Prepared) -> Vec<Response>
        requires { IsReady prepared self.old }
        ensures replies { result.items ≡ replies_of prepared }
        ensures state { self.new.state ≡ state_after prepared self.old.state }
        ensures step { IsOneStep (who_of prepared) self.old.state result.items self.new.state }
    {
        let Prepared {
            who,
            replies,
            session,
            change,
        } = prepared;
        change_session(&mut self.accounts, &who, session);
        self.world.commit(change);
        replies
    }

    /// Returns the outcome of the step before notices are added.
    fn pending(&self, alloc: Global, step: &Step) -> Result<Pending, AllocError>
        ensures outcome { let state = self.now.state in
            let active = session_at state.accounts step.now.who.user step.now.who.number in
            let view = specs.view_in state step.now.who.user in
            IfOk result (λ pending. completed view active pending ≡ specs.outcome state step.now) }
        ensures completable { let state = self.now.state in
            let active = session_at state.accounts step.now.who.user step.now.who.number in
            IfOk result (λ pending. IsCompletable (specs.view_in state step.now.who.user) active pending) }
    {
        let user = &step.who.user;
        match own_sessions(&self.accounts, user) {
            Some(own) => step_pending(alloc, &View::new(&self.world, &self.site, user), own, step),
            None => Ok(Pending::Whole(Outcome::silence(alloc))),
        }
    }

    /// Adds the notices to the outcome of the step, which makes the change `change`.
    fn complete(
        &self,
        alloc: Global,
        step: &Step,
        pending: Pending,
        change: &Change,
    ) -> Result<Outcome, AllocError>
        requires outcome { let state = self.now.state in
            let active = session_at state.accounts step.now.who.user step.now.who.number in
            completed (specs.view_in state step.now.who.user) active pending ≡ specs.outcome state step.now }
        requires completable { let state = self.now.state in
            let active = session_at state.accounts step.now.who.user step.now.who.number in
            IsCompletable (specs.view_in state step.now.who.user) active pending }
        requires change { writes_of (effects_of (effect_in pending)) self.now.state.world ≡ Ok change.now }
        ensures outcome { IfOk result (λ outcome. outcome ≡ specs.outcome self.now.state step.now) }
        ensures told { let state = self.now.state in
            let active = session_at state.accounts step.now.who.user step.now.who.number in
            IfOk result (λ outcome. MayTell active outcome.session) }
        ensures kept { let state = self.now.state in
            let session = (specs.outcome state step.now).session in
            let accounts = accounts_after state.accounts step.now.who session in
            IsMachineKept (after_writes change.now state.world) accounts }
    {
        let planned = PlannedChange {
            world: &self.world,
            site: &self.site,
            user: &step.who.user,
            change,
        };
        let session = open_session(&self.accounts, &step.who);
        with_notices(alloc, &planned, session, pending)
    }

    /// Makes the room `more` in the known list of a session, if it is open.
    fn make_room(&mut self, who: &SessionId, more: usize) -> Result<(), AllocError>
        ensures unchanged { self.new.state ≡ self.old.state }
        ensures stored { self.new.stored ≡ self.old.stored }
        ensures ok { OnOk result (HasKnownRoom more (held_in self.new.held who.now)) }
    {
        if more == 0 {
            return Ok(());
        }
        reserve_known(&mut self.accounts, who, more)
    }

    /// Finds the values to be written for what a step asks, and makes room for them.
    fn resolve(&mut self, alloc: Global, effects: &[Effect]) -> Result<Change, AllocError>
        requires { AreApart effects.now }
        ensures unchanged { self.new.state ≡ self.old.state }
        ensures change { let world = self.old.state.world in
            IfOk result (λ change. writes_of effects.now world ≡ Ok change) }
        ensures ready { IfOk result (λ change. world.IsReady change self.new.stored) }
    {
        resolve_effects(alloc, &mut self.world, effects)
    }
}

/// The version of the mailbox that a session has selected.
fn version_of_selected(view: &View<'_>, session: &Session) -> Option<MailboxVersion>
    ensures { result ≡ option_map version_of (selected_mailbox view.now (state_of session.now).selected) }
{
    let mailbox = selected_mailbox(view, session)?;
    Some(MailboxVersion::of(&mailbox))
}
