//! Whether a database has the tables of a store.

ghost use Rattle.std.specs.Prelude.{◌≡◌, ◌∷◌, [], ◌↔◌, false, None, IsTrue, codes};
ghost use Rattle.imap_tables.specs.Described.{described_table};
ghost use Rattle.imap_tables.specs.Tables.{index_of, mailbox_table, no_schema, references_of};
ghost use Rattle.imap_tables.specs.Tables.{store_indexes, store_schema, store_tables, table_of, to_mailbox};
ghost use Rattle.imap_tables.specs.Texts.{first_schema};
ghost use Rattle.sqlite_schema.specs.declared.schema.Action.TheVariants.{Cascade, NoAction};

use crate::columns::{
    ACL_COLUMNS, BODY_COLUMNS, ColumnRow, EPOCH_COLUMNS, GONE_COLUMNS, KEYWORD_COLUMNS,
    MARK_COLUMNS, MESSAGE_COLUMNS, MESSAGE2_COLUMNS, META_COLUMNS, SUB_COLUMNS,
    has_mailbox_columns,
};
use crate::description::{Description, describe_all};
use sqlite_schema::code::Terms;
use sqlite_schema::schema::{Action, Index, Reference, Schema, Stamps, Table};
use sqlite_value::value::Bytes;

/// A table whose rows have no column for their rowid.
struct TableRow {
    name: &'static str,
    tree: u32,
    /// Whether its rows go with their mailbox.
    is_below: bool,
    /// The places of the columns in which no two rows agree.
    key: &'static [usize],
    columns: &'static [ColumnRow],
}

/// An index of the columns in which no two rows of a table agree.
struct IndexRow {
    name: &'static str,
    tree: u32,
    /// The tree of the table.
    table: u32,
    columns: &'static [usize],
}

/// The tables of the first version after that of the mailboxes.
const FIRST_TABLES: &[TableRow] = &[
    TableRow {
        name: "acl",
        tree: 2,
        is_below: true,
        key: &[1, 2],
        columns: ACL_COLUMNS,
    },
    TableRow {
        name: "message",
        tree: 4,
        is_below: true,
        key: &[1, 2],
        columns: MESSAGE_COLUMNS,
    },
    TableRow {
        name: "gone",
        tree: 6,
        is_below: true,
        key: &[1, 2],
        columns: GONE_COLUMNS,
    },
    TableRow {
        name: "mark",
        tree: 8,
        is_below: true,
        key: &[1, 2, 3],
        columns: MARK_COLUMNS,
    },
    TableRow {
        name: "epoch",
        tree: 10,
        is_below: false,
        key: &[1, 2],
        columns: EPOCH_COLUMNS,
    },
    TableRow {
        name: "sub",
        tree: 12,
        is_below: false,
        key: &[1, 2, 3],
        columns: SUB_COLUMNS,
    },
    TableRow {
        name: "meta",
        tree: 14,
        is_below: false,
        key: &[1],
        columns: META_COLUMNS,
    },
];

/// The three tables of messages, which the second version added.
const ADDED_TABLES: &[TableRow] = &[
    TableRow {
        name: "message2",
        tree: 16,
        is_below: true,
        key: &[1, 2],
        columns: MESSAGE2_COLUMNS,
    },
    TableRow {
        name: "body",
        tree: 18,
        is_below: true,
        key: &[1, 2],
        columns: BODY_COLUMNS,
    },
    TableRow {
        name: "keyword",
        tree: 20,
        is_below: true,
        key: &[1, 2, 3],
        columns: KEYWORD_COLUMNS,
    },
];

/// The indexes of the first version.
const FIRST_INDEXES: &[IndexRow] = &[
    IndexRow {
        name: "sqlite_autoindex_mailbox_1",
        tree: 1,
        table: 0,
        columns: &[2, 3],
    },
    IndexRow {
        name: "sqlite_autoindex_acl_1",
        tree: 3,
        table: 2,
        columns: &[1, 2],
    },
    IndexRow {
        name: "sqlite_autoindex_message_1",
        tree: 5,
        table: 4,
        columns: &[1, 2],
    },
    IndexRow {
        name: "sqlite_autoindex_gone_1",
        tree: 7,
        table: 6,
        columns: &[1, 2],
    },
    IndexRow {
        name: "sqlite_autoindex_mark_1",
        tree: 9,
        table: 8,
        columns: &[1, 2, 3],
    },
    IndexRow {
        name: "sqlite_autoindex_epoch_1",
        tree: 11,
        table: 10,
        columns: &[1, 2],
    },
    IndexRow {
        name: "sqlite_autoindex_sub_1",
        tree: 13,
        table: 12,
        columns: &[1, 2, 3],
    },
    IndexRow {
        name: "sqlite_autoindex_meta_1",
        tree: 15,
        table: 14,
        columns: &[1],
    },
];

/// The indexes of the three tables of messages.
const ADDED_INDEXES: &[IndexRow] = &[
    IndexRow {
        name: "sqlite_autoindex_message2_1",
        tree: 17,
        table: 16,
        columns: &[1, 2],
    },
    IndexRow {
        name: "sqlite_autoindex_body_1",
        tree: 19,
        table: 18,
        columns: &[1, 2],
    },
    IndexRow {
        name: "sqlite_autoindex_keyword_1",
        tree: 21,
        table: 20,
        columns: &[1, 2, 3],
    },
];

/// Whether nothing was made so far.
pub fn is_blank(schema: &Schema) -> bool
    ensures { IsTrue result ↔ (schema.now ≡ no_schema) }
{
    schema.tables.is_empty() && schema.indexes.is_empty() && schema.views.is_empty()
}

/// Whether rows go with those to which they refer, and nothing else is done.
fn is_cascade(reference: &Reference) -> bool
    ensures on_delete { IsTrue result → (reference.now).on_delete ≡ Cascade }
    ensures on_update { IsTrue result → (reference.now).on_update ≡ NoAction }
    ensures at_once { IsTrue result → (reference.now).is_deferred ≡ false }
    ensures all { (reference.now).on_delete ≡ Cascade → (reference.now).on_update ≡ NoAction
        → (reference.now).is_deferred ≡ false → IsTrue result }
{
    match (reference.on_delete, reference.on_update) {
        (Action::Cascade, Action::NoAction) => !reference.is_deferred,
        _ => false,
    }
}

fn is_text(octets: &Bytes, text: &str) -> bool
    ensures { IsTrue result ↔ (octets.now ≡ text.now) }
{
    octets.as_slice() == text.as_bytes()
}

/// Whether the only name is `id`.
fn is_id(names: &[Bytes]) -> bool
    ensures { IsTrue result ↔ (names.now ≡ codes "id" ∷ []) }
{
    let [name] = names else {
        return false;
    };
    is_text(name, "id")
}

/// Whether what is below a mailbox goes with it.
fn is_to_mailbox(reference: &Reference) -> bool
    ensures { IsTrue result ↔ (reference.now ≡ to_mailbox) }
{
    if !is_cascade(reference) {
        return false;
    }
    if reference.columns.as_slice() != [1usize].as_slice() {
        return false;
    }
    if !is_id(reference.parent_columns.as_slice()) {
        return false;
    }
    reference.parent.as_slice() == b"mailbox".as_slice()
}

fn is_none(terms: &Terms) -> bool
    ensures { IsTrue result ↔ (terms.now ≡ []) }
{
    terms.roots.is_empty()
}

/// Whether no default reads the time.
fn has_no_stamps(stamps: &Stamps) -> bool
    ensures { IsTrue result ↔ (stamps.now ≡ record { places = []; terms = []; formats = [] }) }
{
    if !stamps.places.is_empty() {
        return false;
    }
    if !is_none(&stamps.terms) {
        return false;
    }
    stamps.formats.is_empty()
}

/// Whether there are no tests, no defaults that are computed, and no count of rowids.
fn is_plain(table: &Table) -> bool
    ensures checks { IsTrue result → (table.now).checks ≡ [] }
    ensures computed { IsTrue result → (table.now).computed ≡ [] }
    ensures stamps { IsTrue result → (table.now).stamps ≡ record { places = []; terms = []; formats = [] } }
    ensures counted { IsTrue result → (table.now).is_counted ≡ false }
    ensures all { (table.now).checks ≡ [] → (table.now).computed ≡ []
        → (table.now).stamps ≡ record { places = []; terms = []; formats = [] }
        → (table.now).is_counted ≡ false → IsTrue result }
{
    if table.is_counted {
        return false;
    }
    if !is_none(&table.checks) {
        return false;
    }
    if !has_no_stamps(&table.stamps) {
        return false;
    }
    table.computed.is_empty()
}

/// Whether no two rows agree in these columns, and nothing else is asked of several rows.
fn is_unique(table: &Table, unique: &[usize]) -> bool
    ensures uniques { IsTrue result → (table.now).uniques ≡ unique.now ∷ [] }
    ensures orders { IsTrue result → (table.now).orders ≡ record { digits = 0 } ∷ [] }
    ensures all { (table.now).uniques ≡ unique.now ∷ [] → (table.now).orders ≡ record { digits = 0 } ∷ []
        → IsTrue result }
{
    let [columns] = table.uniques.as_slice() else {
        return false;
    };
    if columns.as_slice() != unique {
        return false;
    }
    let [order] = table.orders.as_slice() else {
        return false;
    };
    order.digits == 0
}

/// Whether the table has this name, tree and key, and one set of columns in which no two rows agree.
fn is_table(table: &Table, name: &str, tree: u32, primary: &[usize], unique: &[usize]) -> bool
    ensures { IsTrue result ↔ (table.now
        ≡ record (table_of name.now tree (table.now).columns primary.now (table.now).references) {
          key = (table.now).key;
          uniques = unique.now ∷ [];
        }) }
{
    if !is_plain(table) {
        return false;
    }
    if table.tree != tree {
        return false;
    }
    if table.primary.as_slice() != primary {
        return false;
    }
    if !is_unique(table, unique) {
        return false;
    }
    table.name.as_slice() == name.as_bytes()
}

/// Whether no column is the rowid, and rows go with their mailbox.
fn is_below(table: &Table) -> bool
    ensures key { IsTrue result → (table.now).key ≡ None }
    ensures references { IsTrue result → (table.now).references ≡ to_mailbox ∷ [] }
    ensures all { (table.now).key ≡ None → (table.now).references ≡ to_mailbox ∷ [] → IsTrue result }
{
    if table.key.is_some() {
        return false;
    }
    let [reference] = table.references.as_slice() else {
        return false;
    };
    is_to_mailbox(reference)
}

/// Whether no column is the rowid, and no rows are referred to.
fn is_alone(table: &Table) -> bool
    ensures key { IsTrue result → (table.now).key ≡ None }
    ensures references { IsTrue result → (table.now).references ≡ [] }
    ensures all { (table.now).key ≡ None → (table.now).references ≡ [] → IsTrue result }
{
    if table.key.is_some() {
        return false;
    }
    table.references.is_empty()
}

fn is_mailbox(table: &Table) -> bool
    ensures { IsTrue result ↔ (table.now ≡ mailbox_table) }
{
    if !is_table(table, "mailbox", 0, &[0], &[2, 3]) {
        return false;
    }
    if table.key != Some(0) {
        return false;
    }
    if !table.references.is_empty() {
        return false;
    }
    has_mailbox_columns(table.columns.as_slice())
}

/// Whether the rows have no column for their rowid, and go with their mailbox or refer to no rows.
fn has_place(table: &Table, is_below_mailbox: bool) -> bool
    ensures key { IsTrue result → (table.now).key ≡ None }
    ensures references { IsTrue result → (table.now).references ≡ references_of is_below_mailbox }
    ensures all { (table.now).key ≡ None → (table.now).references ≡ references_of is_below_mailbox
        → IsTrue result }
{
    if is_below_mailbox {
        return is_below(table);
    }
    is_alone(table)
}

impl Description for TableRow {
    type Part = Table;

    ghost described = { described_table };

    fn describes(&self, table: &Table) -> bool {
        if !is_table(table, self.name, self.tree, self.key, self.key) {
            return false;
        }
        if !has_place(table, self.is_below) {
            return false;
        }
        describe_all(self.columns, table.columns.as_slice())
    }
}

fn is_index(index: &Index, name: &str, tree: u32, table: u32, columns: &[usize]) -> bool
    ensures { IsTrue result ↔ (index.now ≡ index_of name.now tree table columns.now) }
{
    if index.tree != tree {
        return false;
    }
    if index.table != table {
        return false;
    }
    if index.order.digits != 0 {
        return false;
    }
    if !index.is_unique {
        return false;
    }
    if index.columns.as_slice() != columns {
        return false;
    }
    index.name.as_slice() == name.as_bytes()
}

impl Description for IndexRow {
    type Part = Index;

    ghost described = { λ row. index_of row.name.now row.tree row.table row.columns.now };

    fn describes(&self, index: &Index) -> bool {
        is_index(index, self.name, self.tree, self.table, self.columns)
    }
}

/// Whether the tables are those of the first version.
fn are_first_tables(tables: &[Table]) -> bool
    ensures { IsTrue result ↔ (tables.now ≡ first_schema.tables) }
{
    let [mailbox, others @ ..] = tables else {
        return false;
    };
    if !is_mailbox(mailbox) {
        return false;
    }
    describe_all(FIRST_TABLES, others)
}

fn are_tables(tables: &[Table]) -> bool
    ensures { IsTrue result ↔ (tables.now ≡ store_tables) }
{
    let Some((first, added)) = tables.split_at_checked(8) else {
        return false;
    };
    are_first_tables(first) && describe_all(ADDED_TABLES, added)
}

fn are_indexes(indexes: &[Index]) -> bool
    ensures { IsTrue result ↔ (indexes.now ≡ store_indexes) }
{
    let Some((first, added)) = indexes.split_at_checked(8) else {
        return false;
    };
    describe_all(FIRST_INDEXES, first) && describe_all(ADDED_INDEXES, added)
}

/// Whether the tables are those of a store of the first version.
pub fn is_first_store(schema: &Schema) -> bool
    ensures { IsTrue result ↔ (schema.now ≡ first_schema) }
{
    if !schema.views.is_empty() {
        return false;
    }
    if !are_first_tables(schema.tables.as_slice()) {
        return false;
    }
    describe_all(FIRST_INDEXES, schema.indexes.as_slice())
}

/// Whether the tables are those of a store.
pub fn is_store(schema: &Schema) -> bool
    ensures { IsTrue result ↔ (schema.now ≡ store_schema) }
{
    if !schema.views.is_empty() {
        return false;
    }
    if !are_tables(schema.tables.as_slice()) {
        return false;
    }
    are_indexes(schema.indexes.as_slice())
}
