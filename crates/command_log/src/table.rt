//! The table of the log, and the test for it.
ghost use Rattle.std.specs.Prelude.{◌≡◌, ◌↔◌, true, [], ◌∷◌, IsTrue, OnOk, Some};
ghost use Rattle.sqlite.specs.Held.{state};
ghost use Rattle.sqlite.specs.State.{HasCleanDisk, Survives};
ghost use Rattle.command_log.specs.Table.{log_schema, no_schema, command_table, command_columns};
ghost use Rattle.command_log.specs.Table.{plain_column};
ghost use Rattle.command_log.specs.Lines.{IsOpen, IsIdle, IsLog, Makes, KeepsLines, lines_of};

use sqlite::{Connection, Error, Transaction};
use sqlite_schema::code::Terms;
use sqlite_schema::schema::{Column, Kind, Schema, Stamps, Table};
use sqlite_trees::store::Alter;
use sqlite_value::keys::Collation;
use sqlite_value::value::Value;

const CREATE: &str =
    "CREATE TABLE command (number INTEGER PRIMARY KEY, line TEXT NOT NULL, digest BLOB NOT NULL) STRICT";

/// What the objects of a database are to a log.
#[derive(Clone, Copy)]
pub(crate) enum Holds {
    Nothing,
    Log,
    Other,
}

fn is_plain(column: &Column, name: &[u8], kind: Kind, not_null: bool) -> bool
    ensures { IsTrue result ↔ column.now ≡ plain_column name.now kind not_null }
{
    if column.name.as_slice() != name {
        return false;
    }
    if column.kind != kind {
        return false;
    }
    if !column.is_strict {
        return false;
    }
    if column.not_null != not_null {
        return false;
    }
    if column.collation != Collation::Binary {
        return false;
    }
    matches!(column.default, Value::Null)
}

fn are_columns(columns: &[Column]) -> bool
    ensures { IsTrue result ↔ columns.now ≡ command_columns }
{
    match columns {
        [number, line, digest] => {
            if !is_plain(number, b"number", Kind::Integer, false) {
                return false;
            }
            if !is_plain(line, b"line", Kind::Text, true) {
                return false;
            }
            is_plain(digest, b"digest", Kind::Blob, true)
        }
        _ => false,
    }
}

fn are_none(terms: &Terms) -> bool
    ensures { IsTrue result ↔ terms.now ≡ [] }
{
    terms.roots.is_empty()
}

fn are_unstamped(stamps: &Stamps) -> bool
    ensures { IsTrue result ↔ stamps.now ≡ record { places = []; terms = []; formats = [] } }
{
    if !stamps.places.is_empty() {
        return false;
    }
    if !are_none(&stamps.terms) {
        return false;
    }
    stamps.formats.is_empty()
}

/// Returns whether the table has the name, the tree and the key of a log's, and the columns.
fn is_named(table: &Table) -> bool
    ensures name { IsTrue result → table.now.name ≡ command_table.name }
    ensures tree { IsTrue result → table.now.tree ≡ 0 }
    ensures key { IsTrue result → table.now.key ≡ Some 0 }
    ensures primary { IsTrue result → table.now.primary ≡ 0 ∷ [] }
    ensures columns { IsTrue result → table.now.columns ≡ command_columns }
    ensures back { table.now ≡ command_table → IsTrue result }
{
    if table.name.as_slice() != b"command".as_slice() {
        return false;
    }
    if table.tree != 0 {
        return false;
    }
    if table.key != Some(0) {
        return false;
    }
    if table.primary.as_slice() != [0].as_slice() {
        return false;
    }
    are_columns(table.columns.as_slice())
}

/// Returns whether the table has no rule beside those of its columns.
fn is_bare(table: &Table) -> bool
    ensures uniques { IsTrue result → table.now.uniques ≡ [] }
    ensures orders { IsTrue result → table.now.orders ≡ [] }
    ensures checks { IsTrue result → table.now.checks ≡ [] }
    ensures references { IsTrue result → table.now.references ≡ [] }
    ensures computed { IsTrue result → table.now.computed ≡ [] }
    ensures back { table.now ≡ command_table → IsTrue result }
{
    if !table.uniques.is_empty() {
        return false;
    }
    if !table.orders.is_empty() {
        return false;
    }
    if !are_none(&table.checks) {
        return false;
    }
    if !table.references.is_empty() {
        return false;
    }
    table.computed.is_empty()
}

fn is_command(table: &Table) -> bool
    ensures { IsTrue result ↔ table.now ≡ command_table }
{
    if table.is_counted {
        return false;
    }
    if !is_named(table) {
        return false;
    }
    if !is_bare(table) {
        return false;
    }
    are_unstamped(&table.stamps)
}

/// Returns whether the schema is empty, that of a log, or another.
pub(crate) fn held_by(schema: &Schema) -> Holds
    ensures log { result ≡ Holds.Log ↔ schema.now ≡ log_schema }
    ensures nothing { result ≡ Holds.Nothing ↔ schema.now ≡ no_schema }
{
    if !schema.indexes.is_empty() {
        return Holds::Other;
    }
    if !schema.views.is_empty() {
        return Holds::Other;
    }
    match schema.tables.as_slice() {
        [] => Holds::Nothing,
        [table] => if is_command(table) {
            Holds::Log
        } else {
            Holds::Other
        },
        _ => Holds::Other,
    }
}

/// Makes the table within a transaction.
fn create<S: Alter>(tx: &mut Transaction<'_, S>) -> Result<usize, Error>
    requires inside { HasCleanDisk (state S.Store tx.old.conn.now)
        → tx.old.conn.now.in_transaction ≡ true }
    requires bare { IsOpen S.Store tx.old.conn.now
        → (state S.Store tx.old.conn.now).now.schema ≡ no_schema }
    ensures same_reference { tx.new.conn.ghost_name ≡ tx.old.conn.ghost_name }
    ensures survives { Survives (state S.Store tx.old.conn.now) (state S.Store tx.new.conn.now)
        (λ _. ⊥) }
    ensures made { HasCleanDisk (state S.Store tx.new.conn.now)
        → OnOk result (Makes S.Store tx.old.conn.now tx.new.conn.now) }
{
    tx.execute(CREATE, &[])
}

/// Makes a log in a database that holds nothing.
pub(crate) fn make<S: Alter>(conn: &mut Connection<S>) -> Result<(), Error>
    requires idle { IsIdle S.Store conn.old }
    requires bare { IsOpen S.Store conn.old → (state S.Store conn.old).now.schema ≡ no_schema }
    ensures log { OnOk result (IsLog S.Store conn.new) }
    ensures empty { IsOpen S.Store conn.new → OnOk result (lines_of S.Store conn.new ≡ []) }
    ensures stays { HasCleanDisk (state S.Store conn.new) → OnOk result (IsOpen S.Store conn.new) }
    ensures survives { Survives (state S.Store conn.old) (state S.Store conn.new)
        (KeepsLines []) }
{
    let mut tx = conn.transaction();
    create(&mut tx)?;
    tx.commit()
}
