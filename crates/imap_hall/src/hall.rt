//! The machine with its keeper and its journal.

ghost use Rattle.std.specs.Prelude.{◌≡◌, ◌+◌, ◌↔◌, is_some, length, map};
ghost use Rattle.std.specs.Prelude.{IfErr, IfOk, IsErrOf, OnErr, OnOk};
ghost use Rattle.imap_saving.specs.Accounts.{session_at};
ghost use Rattle.imap_saving.specs.Opening.{state_at_start};
ghost use Rattle.imap_saving.specs.Version.{version_in};
ghost use Rattle.imap_world.specs.World.{World as Mailboxes};
ghost use Rattle.imap_hall.specs.declared.error.OpenError.TheVariants as error;
ghost use Rattle.imap_hall.specs.Hall.{HasStepped, IsFresh, IsKept, IsTurnedOver, IsUntouched};
ghost use Rattle.imap_hall.specs.Hall.{IsBaseOf, journal_entry};
ghost use Rattle.imap_hall.specs.Journal.{max_entries};
ghost use Rattle.imap_hall.specs.Receipts.{IsSameReceipt};
ghost use Rattle.imap_hall.specs.Saving.{IsAlone, IsOpened, IsOpenedAlone, IsSaved};
ghost use Rattle.imap_saving.specs.Performing.{HasRisen};

use crate::advancing::advance;
use crate::error::{HallError, OpenError};
use crate::journal::{Entry, OldBase, Receipt};
use crate::made_step::MadeStep;
use crate::opening::{Start, base_of, begin};
use crate::own_counts::OwnCounts;
use crate::room::Room;
use imap_keeper::Keeper;
use imap_names::UserName;
use imap_rights::Groups;
use imap_saving::{Core, MailboxVersion, SessionId, Step};
use imap_user_map::UserMap;
use imap_world::Limits;
use std::alloc::{AllocError, Global};
use std::marker::Model;
use std::mem;

/// The most entries that are ever made.
const MAX_ENTRIES: u64 = 1 << 63;

/// A machine with its keeper, and the journal since its base.
///
/// The entries of the journal, made one after another from the base, lead to where the machine is. The keeper
/// has the mailboxes of the machine, as long as the store gives back what was written.
pub struct Hall<K: Keeper> {
    core: Core,
    counts: UserMap<OwnCounts>,
    keeper: K,
    base: Core,
    base_counts: UserMap<OwnCounts>,
    before: u64,
    journal: Vec<Entry>,
}

// Not derived: a derived one is proved anew in each crate that lets go of one.
impl<K: Keeper + Drop> Drop for Hall<K> {
    fn drop(self) {
        let Hall {
            core: _,
            counts: _,
            keeper: _,
            base: _,
            base_counts: _,
            before: _,
            journal: _,
        } = self;
    }
}

impl<K: Keeper> Model for Hall<K> {
    ghost use Rattle.imap_saving.specs.StepType.{the_row as step_row};
    ghost use Rattle.imap_print.specs.contracts.response.Response.{the_row as response_row};
    ghost use Rattle.imap_hall.specs.Hall.{HallState, IsKept, hall_code, hall_state};

    ghost Value = { HallState K };

    ghost coded = { hall_code step_row.coded response_row.coded K.code };

    ghost view = { λ h.
        hall_state h.core h.counts.map h.base h.base_counts.map h.before h.journal.items h.keeper };

    ghost invariant = { λ h. IsKept K.content
        (hall_state h.core h.counts.map h.base h.base_counts.map h.before h.journal.items h.keeper) };
}

impl<K: Keeper> Hall<K> {
    /// Loads the mailboxes, and makes and saves an INBOX for each user who has none, the administrator among them. A
    /// refusal returns the keeper, which keeps what it kept.
    pub fn open(
        alloc: Global,
        keeper: K,
        administrator: UserName,
        users: &[UserName],
        groups: Groups,
        limits: Limits,
    ) -> Result<Hall<K>, (OpenError, K)>
        ensures fresh { IfOk result IsFresh }
        ensures state { IfOk result (λ h. (world : Mailboxes)
            × (h.now.state ≡ state_at_start world administrator users.now groups limits)) }
        ensures known { (world : Mailboxes) → K.content keeper world
            → IfOk result (λ h. K.is_honest h.keeper
            → h.now.state ≡ state_at_start world administrator users.now groups limits) }
        ensures stored { IfOk result (λ h. K.content h.keeper h.now.state.world) }
        ensures kept { (world : Mailboxes) → K.content keeper world
            → IfErr result (λ e. K.content e.1 world) }
        ensures store { IfErr result (λ e. e.0 ≡ error.Store → HasRisen (K.failed keeper) (K.failed e.1)) }
        ensures damaged { (world : Mailboxes) → K.content keeper world
            → IfErr result (λ e. K.is_honest e.1 → e.0 ≡ error.Damaged → ⊥) }
        ensures crash { (world : Mailboxes) → K.content keeper world
            → IfOk result (λ h. IsOpened K.is_honest K.leaves K.stands keeper h.now.state.world h.keeper) }
        ensures alone { (world : Mailboxes) → K.content keeper world
            → IfOk result (λ h. IsOpenedAlone K.is_honest K.leaves K.stands world
            h.now.state.world h.keeper) }
        ensures refused { (world : Mailboxes) → K.content keeper world
            → IfErr result (λ e. IsOpened K.is_honest K.leaves K.stands keeper
            (state_at_start world administrator users.now groups limits).world e.1) }
    {
        let mut keeper = keeper;
        match begin(&mut keeper, alloc, administrator, users, groups, limits) {
            Ok(Start { core, base }) => Ok(Hall {
                core,
                counts: UserMap::new(alloc),
                keeper,
                base,
                base_counts: UserMap::new(alloc),
                before: 0,
                journal: Vec::new(alloc),
            }),
            Err(error) => Err((error, keeper)),
        }
    }

    /// Makes a step, saves its change, and appends its entry to the journal. If the store refuses, the receipt
    /// says UNAVAILABLE (RFC 5530), and nothing else changed. Fails with `Memory`, and with `Exhausted` after
    /// 2^63 entries: no save is tried then.
    pub fn step(&mut self, alloc: Global, step: &Step) -> Result<Receipt, HallError>
        ensures ok { IfOk result (λ r. HasStepped K.failed self.old step.now r self.new) }
        ensures err { OnErr result (IsUntouched K.failed self.old self.new) }
        ensures exhausted { IsErrOf result HallError.Exhausted
            ↔ (self.old.before + length self.old.entries ≡ max_entries) }
        ensures ended { IfErr result (λ e. e ≡ HallError.Exhausted → self.new ≡ self.old) }
        ensures saved { IsSaved K.content K.is_honest K.leaves K.stands
            self.old.now.state self.old.keeper step.now self.new.now.state self.new.keeper }
        ensures alone { IfOk result (λ r. IsAlone K.failed K.is_honest K.leaves K.stands self.old.now.state
            self.old.keeper step.now r.replies self.new.now.state self.new.keeper) }
    {
        let (first, second) = self.receipts(alloc, step)?;
        drop(second);
        Ok(first)
    }

    /// As [`Hall::step`]. Returns the receipt twice, once with its step.
    pub fn step_pair(&mut self, alloc: Global, step: Step) -> Result<(Receipt, MadeStep), HallError>
        ensures ok { IfOk result (λ r. HasStepped K.failed self.old step r.0 self.new) }
        ensures step { IfOk result (λ r. r.1.step ≡ step) }
        ensures same { IfOk result (λ r. IsSameReceipt r.0 r.1.receipt) }
        ensures err { OnErr result (IsUntouched K.failed self.old self.new) }
        ensures exhausted { IsErrOf result HallError.Exhausted
            ↔ (self.old.before + length self.old.entries ≡ max_entries) }
        ensures ended { IfErr result (λ e. e ≡ HallError.Exhausted → self.new ≡ self.old) }
        ensures saved { IsSaved K.content K.is_honest K.leaves K.stands
            self.old.now.state self.old.keeper step self.new.now.state self.new.keeper }
        ensures alone { IfOk result (λ r. IsAlone K.failed K.is_honest K.leaves K.stands self.old.now.state
            self.old.keeper step r.0.replies self.new.now.state self.new.keeper) }
    {
        match self.receipts(alloc, &step) {
            Ok((first, second)) => Ok((first, MadeStep::new(step, second))),
            Err(error) => {
                drop(step);
                Err(error)
            }
        }
    }

    /// As [`Hall::step`]. Returns the receipt twice.
    fn receipts(&mut self, alloc: Global, step: &Step) -> Result<(Receipt, Receipt), HallError>
        ensures ok { IfOk result (λ r. HasStepped K.failed self.old step.now r.0 self.new) }
        ensures same { IfOk result (λ r. IsSameReceipt r.0 r.1) }
        ensures err { OnErr result (IsUntouched K.failed self.old self.new) }
        ensures exhausted { IsErrOf result HallError.Exhausted
            ↔ (self.old.before + length self.old.entries ≡ max_entries) }
        ensures ended { IfErr result (λ e. e ≡ HallError.Exhausted → self.new ≡ self.old) }
        ensures saved { IsSaved K.content K.is_honest K.leaves K.stands
            self.old.now.state self.old.keeper step.now self.new.now.state self.new.keeper }
        ensures alone { IfOk result (λ r. IsAlone K.failed K.is_honest K.leaves K.stands self.old.now.state
            self.old.keeper step.now r.0.replies self.new.now.state self.new.keeper) }
    {
        let count = self.before + self.journal.len() as u64;
        if count >= MAX_ENTRIES {
            return Err(HallError::Exhausted);
        }
        advance(
            &mut self.core,
            &mut self.counts,
            &mut self.keeper,
            &mut self.journal,
            count,
            alloc,
            step,
        )
    }

    /// Makes the state of the machine the journal's base, and empties the journal. Returns the old base. To drop it
    /// takes as long as to drop the mailboxes that have changed since.
    pub fn turn_over(&mut self, alloc: Global) -> Result<OldBase, AllocError>
        ensures ok { OnOk result (IsTurnedOver self.old self.new) }
        ensures old { IfOk result (IsBaseOf self.old) }
        ensures err { OnErr result (self.new ≡ self.old) }
    {
        let counts = self.counts.try_copy(alloc)?;
        let base = base_of(alloc, &mut self.core)?;
        self.before += self.journal.len() as u64;
        self.journal.clear();
        Ok(OldBase {
            base: mem::replace(&mut self.base, base),
            counts: mem::replace(&mut self.base_counts, counts),
        })
    }

    /// Returns how many entries were made, those before the base among them.
    pub fn count(&self) -> u64
        ensures count { result ≡ self.now.before + length self.now.entries }
        ensures kept { IsKept K.content self.now }
    {
        self.before + self.journal.len() as u64
    }

    /// Returns how many entries were made before the base.
    pub fn before(&self) -> u64
        ensures { result ≡ self.now.before }
    {
        self.before
    }

    /// The machine as it was when the journal began.
    pub fn base(&self) -> &Core
        ensures { result.now.state ≡ self.now.base.state }
    {
        &self.base
    }

    /// The entries since the base.
    pub fn entries(&self) -> &[Entry]
        ensures { map journal_entry result.now ≡ self.now.entries }
    {
        self.journal.as_slice()
    }

    /// Whether the session is open.
    pub fn is_open(&self, who: &SessionId) -> bool
        ensures { result ≡ is_some (session_at self.now.now.state.accounts who.now.user who.now.number) }
    {
        match self.core.session(who) {
            Some(_) => true,
            None => false,
        }
    }

    /// Returns the version of the mailbox that the session has selected, as [`Core::selected_version`] does.
    pub fn selected_version(&self, who: &SessionId) -> Option<MailboxVersion>
        ensures { result ≡ version_in self.now.now.state who.now.user who.now.number }
    {
        self.core.selected_version(who)
    }

    /// Ends the hall, and returns its keeper.
    pub fn into_keeper(self) -> K
        ensures keeper { result ≡ self.keeper }
        ensures stored { K.content result self.now.state.world }
    {
        let Hall {
            core,
            counts,
            keeper,
            base,
            base_counts,
            before: _,
            journal,
        } = self;
        drop((core, counts, base, base_counts, journal));
        keeper
    }
}

impl<K: Keeper> Room for Hall<K> {
    ghost use Rattle.std.specs.Prelude.{◌+◌, length, true};
    ghost use Rattle.imap_hall.specs.Hall.{HasRefused};

    ghost entries = { λ h. h.entries };

    ghost keeps_all = { true };

    ghost count = { λ h. h.before + length h.entries };

    ghost refuses = { λ old _ error new. HasRefused K.failed old error new };

    #[tactic(auto, using(crate::proofs::Stepped::newest, crate::proofs::Stepped::counted, crate::proofs::Stepped::uncounted, crate::proofs::Stepped::refused))]
    fn step(&mut self, alloc: Global, step: &Step) -> Result<Receipt, HallError> {
        self.step(alloc, step)
    }

    fn change_count(&self) -> u64 {
        self.count()
    }
}
