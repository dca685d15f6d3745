//! Rows that are inserted.

ghost use Rattle.std.specs.Prelude.{◌≡◌, pos, OnOk};
ghost use Rattle.imap_tables.specs.Edits.{Adds, AddsApart};
ghost use Rattle.imap_tables.specs.Rows.{acl_row, body_row, epoch_row, gone_row, keyword_row};
ghost use Rattle.imap_tables.specs.Rows.{mailbox_row, mark_row, message2_row, meta_row, sub_row};
ghost use Rattle.imap_tables.specs.Steps.{Calls, HasSchema, Turns};
ghost use Rattle.imap_tables.specs.Tables.{store_schema};
ghost use Rattle.sqlite.specs.Held.{state};

use sqlite::{Alter, Error, Transaction, params};

/// Inserts a mailbox without messages.
pub fn insert_mailbox<S: Alter>(
    tx: &mut Transaction<'_, S>,
    tree: &str,
    path: &str,
    validity: u32,
) -> Result<usize, Error>
    requires { HasSchema store_schema (state S.Store tx.old.conn.now) }
    ensures same_reference { tx.new.conn.ghost_name ≡ tx.old.conn.ghost_name }
    ensures call { Calls S.Store tx.old.conn.now tx.new.conn.now (λ old new. OnOk result
        (Turns (λ db after. Adds db after 0
        (λ id. mailbox_row id tree.now path.now validity 1 (pos 0))) old new)) }
{
    tx.execute(
        "INSERT INTO mailbox (tree, path, validity, uidnext, shared) VALUES (?1, ?2, ?3, 1, 0)",
        params![tree, path, validity],
    )
}

/// Inserts an entry of the access control list of a mailbox.
pub fn insert_acl<S: Alter>(
    tx: &mut Transaction<'_, S>,
    mailbox: &i64,
    identifier: &str,
    rights: u32,
) -> Result<usize, Error>
    requires { HasSchema store_schema (state S.Store tx.old.conn.now) }
    ensures same_reference { tx.new.conn.ghost_name ≡ tx.old.conn.ghost_name }
    ensures call { Calls S.Store tx.old.conn.now tx.new.conn.now (λ old new. OnOk result
        (Turns (λ db after. Adds db after 2 (acl_row mailbox.now identifier.now rights)) old new)) }
{
    tx.execute(
        "INSERT INTO acl (mailbox, identifier, rights) VALUES (?1, ?2, ?3)",
        params![mailbox, identifier, rights],
    )
}

/// Inserts a message, without its octets and keywords. No two rows agree in a key then.
pub fn insert_head<S: Alter>(
    tx: &mut Transaction<'_, S>,
    mailbox: &i64,
    uid: u32,
    date: &str,
    flags: u32,
    place: &i64,
) -> Result<usize, Error>
    requires { HasSchema store_schema (state S.Store tx.old.conn.now) }
    ensures same_reference { tx.new.conn.ghost_name ≡ tx.old.conn.ghost_name }
    ensures call { Calls S.Store tx.old.conn.now tx.new.conn.now (λ old new. OnOk result
        (Turns (λ db after. AddsApart db after 16
        (message2_row mailbox.now uid date.now flags place.now)) old new)) }
{
    tx.execute(
        "INSERT INTO message2 (mailbox, uid, date, flags, place) VALUES (?1, ?2, ?3, ?4, ?5)",
        params![mailbox, uid, date, flags, place],
    )
}

/// Inserts the octets of a message.
pub fn insert_body<S: Alter>(
    tx: &mut Transaction<'_, S>,
    mailbox: &i64,
    uid: u32,
    octets: &[u8],
) -> Result<usize, Error>
    requires { HasSchema store_schema (state S.Store tx.old.conn.now) }
    ensures same_reference { tx.new.conn.ghost_name ≡ tx.old.conn.ghost_name }
    ensures call { Calls S.Store tx.old.conn.now tx.new.conn.now (λ old new. OnOk result
        (Turns (λ db after. Adds db after 18 (body_row mailbox.now uid octets.now)) old new)) }
{
    tx.execute(
        "INSERT INTO body (mailbox, uid, octets) VALUES (?1, ?2, ?3)",
        params![mailbox, uid, octets],
    )
}

/// Inserts a keyword of a message.
pub fn insert_keyword<S: Alter>(
    tx: &mut Transaction<'_, S>,
    mailbox: &i64,
    uid: u32,
    word: &str,
) -> Result<usize, Error>
    requires { HasSchema store_schema (state S.Store tx.old.conn.now) }
    ensures same_reference { tx.new.conn.ghost_name ≡ tx.old.conn.ghost_name }
    ensures call { Calls S.Store tx.old.conn.now tx.new.conn.now (λ old new. OnOk result
        (Turns (λ db after. Adds db after 20 (keyword_row mailbox.now uid word.now)) old new)) }
{
    tx.execute(
        "INSERT INTO keyword (mailbox, uid, word) VALUES (?1, ?2, ?3)",
        params![mailbox, uid, word],
    )
}

/// Inserts a message that was expunged.
pub fn insert_gone<S: Alter>(
    tx: &mut Transaction<'_, S>,
    mailbox: &i64,
    uid: u32,
    place: &i64,
) -> Result<usize, Error>
    requires { HasSchema store_schema (state S.Store tx.old.conn.now) }
    ensures same_reference { tx.new.conn.ghost_name ≡ tx.old.conn.ghost_name }
    ensures call { Calls S.Store tx.old.conn.now tx.new.conn.now (λ old new. OnOk result
        (Turns (λ db after. Adds db after 6 (gone_row mailbox.now uid place.now)) old new)) }
{
    tx.execute(
        "INSERT INTO gone (mailbox, uid, place) VALUES (?1, ?2, ?3)",
        params![mailbox, uid, place],
    )
}

/// Inserts a user's change of his own `\Seen`.
pub fn insert_mark<S: Alter>(
    tx: &mut Transaction<'_, S>,
    mailbox: &i64,
    user: &str,
    own: &i64,
    before: &i64,
    uid: u32,
    seen: bool,
) -> Result<usize, Error>
    requires { HasSchema store_schema (state S.Store tx.old.conn.now) }
    ensures same_reference { tx.new.conn.ghost_name ≡ tx.old.conn.ghost_name }
    ensures call { Calls S.Store tx.old.conn.now tx.new.conn.now (λ old new. OnOk result
        (Turns (λ db after. Adds db after 8
        (mark_row mailbox.now user.now own.now before.now uid seen)) old new)) }
{
    tx.execute(
        "INSERT INTO mark (mailbox, user, own, before, uid, seen) VALUES (?1, ?2, ?3, ?4, ?5, ?6)",
        params![mailbox, user, own, before, uid, seen],
    )
}

/// Inserts the greatest UIDVALIDITY that was used under a name.
pub fn insert_epoch<S: Alter>(
    tx: &mut Transaction<'_, S>,
    tree: &str,
    path: &str,
    greatest: u32,
) -> Result<usize, Error>
    requires { HasSchema store_schema (state S.Store tx.old.conn.now) }
    ensures same_reference { tx.new.conn.ghost_name ≡ tx.old.conn.ghost_name }
    ensures call { Calls S.Store tx.old.conn.now tx.new.conn.now (λ old new. OnOk result
        (Turns (λ db after. Adds db after 10 (epoch_row tree.now path.now greatest)) old new)) }
{
    tx.execute(
        "INSERT INTO epoch (tree, path, greatest) VALUES (?1, ?2, ?3)",
        params![tree, path, greatest],
    )
}

/// Inserts a user's subscription to a name.
pub fn insert_subscription<S: Alter>(
    tx: &mut Transaction<'_, S>,
    user: &str,
    tree: &str,
    path: &str,
) -> Result<usize, Error>
    requires { HasSchema store_schema (state S.Store tx.old.conn.now) }
    ensures same_reference { tx.new.conn.ghost_name ≡ tx.old.conn.ghost_name }
    ensures call { Calls S.Store tx.old.conn.now tx.new.conn.now (λ old new. OnOk result
        (Turns (λ db after. Adds db after 12 (sub_row user.now tree.now path.now)) old new)) }
{
    tx.execute(
        "INSERT INTO sub (user, tree, path) VALUES (?1, ?2, ?3)",
        params![user, tree, path],
    )
}

/// Inserts a number that is said of the store as a whole.
pub fn insert_meta<S: Alter>(
    tx: &mut Transaction<'_, S>,
    key: &str,
    value: u32,
) -> Result<usize, Error>
    requires { HasSchema store_schema (state S.Store tx.old.conn.now) }
    ensures same_reference { tx.new.conn.ghost_name ≡ tx.old.conn.ghost_name }
    ensures call { Calls S.Store tx.old.conn.now tx.new.conn.now (λ old new. OnOk result
        (Turns (λ db after. Adds db after 14 (meta_row key.now value)) old new)) }
{
    tx.execute(
        "INSERT INTO meta (key, value) VALUES (?1, ?2)",
        params![key, value],
    )
}
