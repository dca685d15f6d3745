//! A keeper in a SQL database.

ghost use Rattle.std.specs.Prelude.{◌≡◌, Err, IfErr, IfOk, IsTrue, OnErr, OnOk};
ghost use Rattle.std.specs.FinMap as map;
ghost use Rattle.imap_keeper.specs.declared.error.KeepError.TheVariants.{Damaged};
ghost use Rattle.imap_keeper.specs.Keeping.{HasBase, LeavesOnly, LeavesOr, OfChanged, failures_after};
ghost use Rattle.imap_restore.specs.Holding.{HoldSplit};
ghost use Rattle.imap_sql_keeper.specs.Adopting.{FindsStore, IsAdopted, IsDamaged, IsNew, IsTakenOver};
ghost use Rattle.imap_sql_keeper.specs.Keeping.{Keeps};
ghost use Rattle.imap_tables.specs.Tables.{no_schema};
ghost use Rattle.imap_tables.specs.Texts.{first_schema};
ghost use Rattle.imap_world.specs.Stored.{world_of};
ghost use Rattle.imap_world.specs.World.{World as Mailboxes};
ghost use Rattle.sqlite.specs.Held.{state};
ghost use Rattle.sqlite.specs.State.{HasCleanDisk, Survives};
ghost use Rattle.sqlite.specs.Tree.{Trees};

use crate::adopting::find_store;
use crate::diagnosing::damage_of;
use crate::loading::load_world;
use crate::locating::{Finding, locate};
use crate::saving::save_change;
use imap_keeper::{Damage, KeepError, Keeper, count_after};
use imap_world::{Change, World};
use sqlite::{Alter, Connection};
use std::alloc::Global;
use std::marker::Model;

/// Keeps a world in the tables of a database.
pub struct SqlKeeper<S: Alter> {
    conn: Connection<S>,
    failures: u64,
}

// It is written out, as that of a connection.
impl<S: Alter + Drop> Drop for SqlKeeper<S> {
    fn drop(self) {
        let SqlKeeper {
            conn: _,
            failures: _,
        } = self;
    }
}

impl<S: Alter> Model for SqlKeeper<S> {
    ghost use Rattle.imap_sql_keeper.specs.Keeping.{IsAtRest, Keeping, keeping_code};
    ghost use Rattle.sqlite.specs.Held.{state};

    ghost Value = { Keeping S };

    ghost coded = { keeping_code S.code };

    ghost view = { λ k. record { conn = k.conn; failures = k.failures } };

    ghost invariant = { λ k. IsAtRest (state S.Store k.conn) };
}

impl<S: Alter> SqlKeeper<S> {
    /// Takes a database over. If nothing was made in it so far, the tables of a store are made in
    /// one transaction. Tables of the first version, which had each message in one row, become
    /// those of this version in one transaction, and hold the same world. Fails with `Damaged` if
    /// it has other tables, if these say that they are of another version, or if those of the first
    /// version hold no world. A refusal returns the connection, and has committed nothing.
    pub fn adopt(mut conn: Connection<S>) -> Result<SqlKeeper<S>, (Connection<S>, KeepError)>
        ensures finds { IfOk result (λ k. HasCleanDisk (state S.Store k.conn)
            → IsTrue (state S.Store k.conn).is_open
            → FindsStore (state S.Store conn) (state S.Store k.conn)) }
        ensures new { IfOk result (λ k. (state S.Store conn).now.schema ≡ no_schema
            → (world : Mailboxes) → world.mailboxes ≡ map.empty → world.epochs ≡ map.empty
            → world.subscriptions ≡ map.empty → Keeps (state S.Store k.conn) world) }
        ensures failures { IfOk result (λ k. k.failures ≡ 0) }
        ensures before { IfErr result (λ e. HasCleanDisk (state S.Store e.0)
            → IsTrue (state S.Store e.0).is_open
            → (state S.Store e.0).committed ≡ (state S.Store conn).committed) }
        ensures damaged { IfErr result (λ e. HasCleanDisk (state S.Store e.0) → e.1 ≡ Damaged
            → IsDamaged (state S.Store conn)) }
        ensures crash { IfOk result (λ k. Survives (state S.Store conn) (state S.Store k.conn)
            (IsAdopted (state S.Store conn))) }
        ensures refused_crash { IfErr result (λ e. Survives (state S.Store conn) (state S.Store e.0)
            (IsAdopted (state S.Store conn))) }
        ensures alone { IfOk result (λ k. HasCleanDisk (state S.Store k.conn)
            → (state S.Store conn).now.schema ≡ no_schema
            → (db : Trees) → (state S.Store k.conn).may_leave db → IsNew db) }
        ensures taken { IfOk result (λ k. HasCleanDisk (state S.Store k.conn)
            → (state S.Store conn).now.schema ≡ first_schema
            → LeavesOnly (state S.Store k.conn).may_leave (IsTakenOver (state S.Store conn).now.trees)) }
    {
        match find_store(&mut conn) {
            Ok(()) => Ok(SqlKeeper { conn, failures: 0 }),
            Err(error) => Err((conn, error)),
        }
    }

    /// Returns the connection.
    pub fn release(self) -> Connection<S>
        ensures { result ≡ self.conn }
    {
        let SqlKeeper { conn, failures: _ } = self;
        conn
    }
}

impl<S: Alter + Drop> SqlKeeper<S> {
    /// Ends a keeper that could not load, and names a damaged row of its tables. Returns
    /// `None` if none is found, or memory runs out.
    pub fn into_damage(self, alloc: Global) -> Option<Damage> {
        let SqlKeeper {
            mut conn,
            failures: _,
        } = self;
        damage_of(&mut conn, alloc)
    }

    /// Ends a keeper that could not load, and names a damaged row of its tables, and of
    /// what it is. Returns `None` if none is found, or memory runs out.
    pub fn into_finding(self, alloc: Global) -> Option<Finding> {
        let SqlKeeper {
            mut conn,
            failures: _,
        } = self;
        let damage = damage_of(&mut conn, alloc)?;
        Some(locate(&mut conn, damage))
    }
}

impl<S: Alter> Keeper for SqlKeeper<S> {
    ghost use Rattle.imap_restore.specs.Holding.{HoldSplit};
    ghost use Rattle.imap_sql_keeper.specs.Keeping.{Keeps};
    ghost use Rattle.sqlite.specs.Held.{state};
    ghost use Rattle.sqlite.specs.State.{HasCleanDisk};
    ghost use Rattle.sqlite.specs.Tree.{Trees};

    ghost content = { λ k world. Keeps (state S.Store k.conn) world };

    ghost failed = { λ k. k.failures };

    ghost is_honest = { λ k. HasCleanDisk (state S.Store k.conn) };

    ghost Image = { Trees };

    ghost leaves = { λ k. (state S.Store k.conn).may_leave };

    ghost stands = { HoldSplit };

    /// Fails if the connection is shut.
    fn save(&mut self, alloc: Global, change: &Change) -> Result<(), KeepError>
        requires { HasBase (Keeps (state S.Store self.old.conn)) change.now }
        ensures ok { OfChanged (Keeps (state S.Store self.old.conn)) change.now (λ after.
            OnOk result (Keeps (state S.Store self.new.conn) after)) }
        ensures err { (world : Mailboxes) → Keeps (state S.Store self.old.conn) world
            → OnErr result (Keeps (state S.Store self.new.conn) world) }
        ensures failures { self.new.failures ≡ failures_after result self.old.failures }
        ensures undamaged { result ≡ Err Damaged → ⊥ }
        ensures honest { HasCleanDisk (state S.Store self.new.conn)
            → HasCleanDisk (state S.Store self.old.conn) }
        ensures crash { HasCleanDisk (state S.Store self.new.conn)
            → OfChanged (Keeps (state S.Store self.old.conn)) change.now (λ after.
            LeavesOr (state S.Store self.old.conn).may_leave (state S.Store self.new.conn).may_leave
            (λ image. HoldSplit image after)) }
        ensures alone { HasCleanDisk (state S.Store self.new.conn)
            → OfChanged (Keeps (state S.Store self.old.conn)) change.now (λ after.
            OnOk result (LeavesOnly (state S.Store self.new.conn).may_leave
            (λ image. HoldSplit image after))) }
        ensures open { HasCleanDisk (state S.Store self.new.conn)
            → OnOk result (IsTrue (state S.Store self.old.conn).is_open) }
    {
        match save_change(&mut self.conn, alloc, change) {
            Ok(()) => Ok(()),
            Err(error) => {
                self.failures = count_after(self.failures, error);
                Err(error)
            }
        }
    }

    /// Fails if the connection is shut, and not with `Damaged`.
    fn load(&mut self, alloc: Global) -> Result<World, KeepError>
        ensures found { IfOk result (λ world. Keeps (state S.Store self.new.conn) (world_of world)) }
        ensures known { HasCleanDisk (state S.Store self.new.conn)
            → (world : Mailboxes) → Keeps (state S.Store self.old.conn) world
            → IfOk result (λ found. world_of found ≡ world) }
        ensures damaged { HasCleanDisk (state S.Store self.new.conn)
            → (world : Mailboxes) → Keeps (state S.Store self.old.conn) world → result ≡ Err Damaged → ⊥ }
        ensures unchanged { (world : Mailboxes) → Keeps (state S.Store self.old.conn) world
            → Keeps (state S.Store self.new.conn) world }
        ensures failures { self.new.failures ≡ failures_after result self.old.failures }
        ensures honest { HasCleanDisk (state S.Store self.new.conn)
            → HasCleanDisk (state S.Store self.old.conn) }
        ensures crash { HasCleanDisk (state S.Store self.new.conn)
            → LeavesOnly (state S.Store self.new.conn).may_leave (state S.Store self.old.conn).may_leave }
        ensures open { HasCleanDisk (state S.Store self.new.conn)
            → OnOk result (IsTrue (state S.Store self.old.conn).is_open) }
        ensures read { HasCleanDisk (state S.Store self.new.conn)
            → result ≡ Err Damaged → IsTrue (state S.Store self.old.conn).is_open }
    {
        match load_world(&mut self.conn, alloc) {
            Ok(world) => Ok(world),
            Err(error) => {
                self.failures = count_after(self.failures, error);
                Err(error)
            }
        }
    }

    fn failures(&self) -> u64 {
        self.failures
    }
}
