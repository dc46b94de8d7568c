//! The statements that make the tables, each run once, in this order.
ghost use Rattle.std.specs.Prelude.{◌≡◌, OnOk};
ghost use Rattle.post_tables.specs.Rows.{no_rows};
ghost use Rattle.post_tables.specs.Schema.{
  no_schema,
  post_schema,
  option_schema,
  template_schema,
  table_schema,
};
ghost use Rattle.post_tables.specs.Stored.{IsBare, IsSite, rows_of};

use sqlite::{Connection, Error, MemStore};

/// Makes all tables in a new database.
pub(crate) fn create(conn: &mut Connection<MemStore>) -> Result<(), Error>
    requires { IsBare no_schema conn.old }
    ensures site { OnOk result (IsSite conn.new) }
    ensures empty { OnOk result (rows_of conn.new ≡ no_rows) }
{
    create_post(conn)?;
    create_option(conn)?;
    create_template(conn)?;
    create_active(conn)?;
    create_index(conn)?;
    Ok(())
}

/// Makes the table of posts. An ID is at most `MAX_ID`, which the statement writes out.
fn create_post(conn: &mut Connection<MemStore>) -> Result<usize, Error>
    requires { IsBare no_schema conn.old }
    ensures { OnOk result (IsBare post_schema conn.new) }
{
    conn.execute(
        "CREATE TABLE post (\
         id INTEGER PRIMARY KEY AUTOINCREMENT CHECK (id BETWEEN 1 AND 2147483647), \
         kind TEXT NOT NULL CHECK (kind IN ('post', 'page')), \
         status TEXT NOT NULL CHECK (status IN ('publish', 'draft')), \
         title TEXT NOT NULL, content TEXT NOT NULL, \
         date TEXT NOT NULL CHECK (length(date) = 19)) STRICT",
        &[],
    )
}

fn create_option(conn: &mut Connection<MemStore>) -> Result<usize, Error>
    requires { IsBare post_schema conn.old }
    ensures { OnOk result (IsBare option_schema conn.new) }
{
    conn.execute(
        "CREATE TABLE option (name TEXT PRIMARY KEY NOT NULL, value TEXT NOT NULL) STRICT",
        &[],
    )
}

fn create_template(conn: &mut Connection<MemStore>) -> Result<usize, Error>
    requires { IsBare option_schema conn.old }
    ensures { OnOk result (IsBare template_schema conn.new) }
{
    conn.execute(
        "CREATE TABLE template (name TEXT PRIMARY KEY NOT NULL, body TEXT NOT NULL) STRICT",
        &[],
    )
}

fn create_active(conn: &mut Connection<MemStore>) -> Result<usize, Error>
    requires { IsBare template_schema conn.old }
    ensures { OnOk result (IsBare table_schema conn.new) }
{
    conn.execute(
        "CREATE TABLE active (name TEXT PRIMARY KEY NOT NULL) STRICT",
        &[],
    )
}

// Makes the index of dates. Without it each post would be looked at to find a page of posts.
fn create_index(conn: &mut Connection<MemStore>) -> Result<usize, Error>
    requires { IsBare table_schema conn.old }
    ensures site { OnOk result (IsSite conn.new) }
    ensures empty { OnOk result (rows_of conn.new ≡ no_rows) }
{
    conn.execute(
        "CREATE INDEX post_by_date ON post (kind, status, date)",
        &[],
    )
}
