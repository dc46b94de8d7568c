//! The statements on options, templates and active names.
ghost use Rattle.std.specs.Prelude.{◌≡◌, map, All, IfOk, IfErr};
ghost use Rattle.std.specs.FinMap.{insert, remove, entries, keys};
ghost use Rattle.post_tables.specs.Reading.{
  pair_from,
  name_from,
  IsStopped,
  IsPairRow,
  IsNameRow,
};
ghost use Rattle.post_tables.specs.Stored.{IsSite, IsOpen, Makes, MakesInside, Reads, rows_of};

use sqlite::{Connection, Error, MemStore, Row, Transaction, params};

// A row that is there is updated in place. OR REPLACE would remove it first, and a removal from a
// table in memory goes over all of the table's rows.
const PUT_OPTION: &str = "INSERT INTO option (name, value) VALUES (?1, ?2) \
     ON CONFLICT (name) DO UPDATE SET value = excluded.value";

const PUT_TEMPLATE: &str = "INSERT INTO template (name, body) VALUES (?1, ?2) \
     ON CONFLICT (name) DO UPDATE SET body = excluded.body";

const PUT_ACTIVE: &str = "INSERT OR REPLACE INTO active (name) VALUES (?1)";

pub(crate) fn put_option(
    conn: &mut Connection<MemStore>,
    name: &str,
    value: &str,
) -> Result<usize, Error>
    requires { IsSite conn.old }
    ensures { Makes (λ s. record s { options = insert s.options name.now value.now })
        conn.old conn.new result }
{
    conn.execute(PUT_OPTION, params![name, value])
}

pub(crate) fn put_template(
    conn: &mut Connection<MemStore>,
    name: &str,
    text: &str,
) -> Result<usize, Error>
    requires { IsSite conn.old }
    ensures { Makes (λ s. record s { templates = insert s.templates name.now text.now })
        conn.old conn.new result }
{
    conn.execute(PUT_TEMPLATE, params![name, text])
}

pub(crate) fn put_active(conn: &mut Connection<MemStore>, name: &str) -> Result<usize, Error>
    requires { IsSite conn.old }
    ensures { Makes (λ s. record s { active = insert s.active name.now tt })
        conn.old conn.new result }
{
    conn.execute(PUT_ACTIVE, params![name])
}

pub(crate) fn delete_template(conn: &mut Connection<MemStore>, name: &str) -> Result<usize, Error>
    requires { IsSite conn.old }
    ensures { Makes (λ s. record s { templates = remove s.templates name.now })
        conn.old conn.new result }
{
    conn.execute("DELETE FROM template WHERE name = ?1", params![name])
}

pub(crate) fn delete_active(conn: &mut Connection<MemStore>, name: &str) -> Result<usize, Error>
    requires { IsSite conn.old }
    ensures { Makes (λ s. record s { active = remove s.active name.now })
        conn.old conn.new result }
{
    conn.execute("DELETE FROM active WHERE name = ?1", params![name])
}

pub(crate) fn option_rows(conn: &mut Connection<MemStore>) -> Result<Vec<Row>, Error>
    requires { IsSite conn.old }
    ensures reads { Reads conn.old conn.new }
    ensures rows { IfOk result (λ rows. map pair_from rows.items
        ≡ entries (rows_of conn.old).options) }
    ensures readable { IfOk result (λ rows. All IsPairRow rows.items) }
    ensures stopped { IfErr result (IsStopped (rows_of conn.old).step_limit) }
{
    conn.query_all("SELECT name, value FROM option ORDER BY name", &[])
}

pub(crate) fn template_rows(conn: &mut Connection<MemStore>) -> Result<Vec<Row>, Error>
    requires { IsSite conn.old }
    ensures reads { Reads conn.old conn.new }
    ensures rows { IfOk result (λ rows. map pair_from rows.items
        ≡ entries (rows_of conn.old).templates) }
    ensures readable { IfOk result (λ rows. All IsPairRow rows.items) }
    ensures stopped { IfErr result (IsStopped (rows_of conn.old).step_limit) }
{
    conn.query_all("SELECT name, body FROM template ORDER BY name", &[])
}

pub(crate) fn active_rows(conn: &mut Connection<MemStore>) -> Result<Vec<Row>, Error>
    requires { IsSite conn.old }
    ensures reads { Reads conn.old conn.new }
    ensures rows { IfOk result (λ rows. map name_from rows.items
        ≡ keys (rows_of conn.old).active) }
    ensures readable { IfOk result (λ rows. All IsNameRow rows.items) }
    ensures stopped { IfErr result (IsStopped (rows_of conn.old).step_limit) }
{
    conn.query_all("SELECT name FROM active ORDER BY name", &[])
}

pub(crate) fn put_option_in(
    tx: &mut Transaction<'_, MemStore>,
    name: &str,
    value: &str,
) -> Result<usize, Error>
    requires { IsOpen tx.old }
    ensures { MakesInside (λ s. record s { options = insert s.options name.now value.now })
        tx.old tx.new result }
{
    tx.execute(PUT_OPTION, params![name, value])
}

pub(crate) fn put_template_in(
    tx: &mut Transaction<'_, MemStore>,
    name: &str,
    text: &str,
) -> Result<usize, Error>
    requires { IsOpen tx.old }
    ensures { MakesInside (λ s. record s { templates = insert s.templates name.now text.now })
        tx.old tx.new result }
{
    tx.execute(PUT_TEMPLATE, params![name, text])
}

pub(crate) fn put_active_in(tx: &mut Transaction<'_, MemStore>, name: &str) -> Result<usize, Error>
    requires { IsOpen tx.old }
    ensures { MakesInside (λ s. record s { active = insert s.active name.now tt })
        tx.old tx.new result }
{
    tx.execute(PUT_ACTIVE, params![name])
}
