//! A whole site's records, added in one transaction.
ghost use Rattle.std.specs.Prelude.{◌≡◌, ◌⊎◌, true, false, not, IfOk, IfErr, OnOk, OnErr};
ghost use Rattle.std.specs.Ordering.{nat_cmp};
ghost use Rattle.std.specs.BTreeSet.{insert_key};
ghost use Rattle.post_tables.specs.Stored.{is_met};
ghost use Rattle.post_tables.specs.Rows.{
  IsOfStore,
  IsReadFault,
  IsRefusedAs,
  are_new,
  with_new,
  with_all,
  with_options,
  with_templates,
  with_active,
  with_records,
};
ghost use Rattle.post_tables.specs.Stored.{IsSite, IsOpen, MakesInside, Reads, rows_of};

use crate::fault::TablesFault;
use crate::named::{put_active_in, put_option_in, put_template_in};
use crate::posts::{NewPost, has_post, insert_post_in};
use plain_data::Text;
use site_records::{Post, SiteRecords};
use sqlite::{Connection, Error, MemStore, Transaction};
use std::alloc::{AllocError, Global};
use std::collections::BTreeSet;

/// Returns whether no stored post has one of the IDs, and no two of the posts have the same one.
fn are_new(
    conn: &mut Connection<MemStore>,
    alloc: Global,
    posts: &[Post],
) -> Result<bool, TablesFault>
    requires { IsSite conn.old }
    ensures reads { Reads conn.old conn.new }
    ensures value { IfOk result (λ new. new ≡ are_new posts.now (rows_of conn.old).posts) }
    ensures stopped { IfErr result (IsReadFault (rows_of conn.old).step_limit) }
{
    let mut met = BTreeSet::new(alloc);
    for post in posts {
        if !meet(&mut met, post.id)? || has_post(conn, post.id)? {
            return Ok(false);
        }
    }
    Ok(true)
}

/// Remembers an ID, and returns whether it is met for the first time.
fn meet(met: &mut BTreeSet<u32>, id: u32) -> Result<bool, AllocError>
    ensures first { IfOk result (λ first. first ≡ not (is_met met.old.keys id)) }
    ensures keys { OnOk result (met.new.keys ≡ insert_key nat_cmp met.old.keys id) }
{
    Ok(met.insert(id)?)
}

// Adds one more post, whose ID is new.
fn add_post(tx: &mut Transaction<'_, MemStore>, post: &Post) -> Result<(), Error>
    requires { IsOpen tx.old }
    ensures { MakesInside (with_new post.now) tx.old tx.new result }
{
    let new = NewPost {
        id: post.id,
        kind: post.kind,
        status: post.status,
        title: post.title.as_str(),
        content: post.content.as_str(),
        date: &post.date,
    };
    insert_post_in(tx, &new)?;
    Ok(())
}

fn add_posts(tx: &mut Transaction<'_, MemStore>, posts: &[Post]) -> Result<(), TablesFault>
    requires { IsOpen tx.old }
    ensures made { MakesInside (with_all posts.now) tx.old tx.new result }
    ensures fault { IfErr result IsOfStore }
{
    for post in posts {
        add_post(tx, post)?;
    }
    Ok(())
}

fn add_options(
    tx: &mut Transaction<'_, MemStore>,
    pairs: &[(Text, Text)],
) -> Result<(), TablesFault>
    requires { IsOpen tx.old }
    ensures made { MakesInside (with_options pairs.now) tx.old tx.new result }
    ensures fault { IfErr result IsOfStore }
{
    for pair in pairs {
        put_option_in(tx, pair.0.as_str(), pair.1.as_str())?;
    }
    Ok(())
}

fn add_templates(
    tx: &mut Transaction<'_, MemStore>,
    pairs: &[(Text, Text)],
) -> Result<(), TablesFault>
    requires { IsOpen tx.old }
    ensures made { MakesInside (with_templates pairs.now) tx.old tx.new result }
    ensures fault { IfErr result IsOfStore }
{
    for pair in pairs {
        put_template_in(tx, pair.0.as_str(), pair.1.as_str())?;
    }
    Ok(())
}

fn add_active(tx: &mut Transaction<'_, MemStore>, names: &[Text]) -> Result<(), TablesFault>
    requires { IsOpen tx.old }
    ensures made { MakesInside (with_active names.now) tx.old tx.new result }
    ensures fault { IfErr result IsOfStore }
{
    for name in names {
        put_active_in(tx, name.as_str())?;
    }
    Ok(())
}

fn add_records(tx: &mut Transaction<'_, MemStore>, records: &SiteRecords) -> Result<(), TablesFault>
    requires { IsOpen tx.old }
    ensures made { MakesInside (with_records records.now) tx.old tx.new result }
    ensures fault { IfErr result IsOfStore }
{
    add_posts(tx, records.posts.as_slice())?;
    add_options(tx, records.options.as_slice())?;
    add_templates(tx, records.templates.as_slice())?;
    add_active(tx, records.active.as_slice())?;
    Ok(())
}

/// Adds all of the records, whose IDs are new, or none. A transaction that is dropped before its
/// commit changes nothing.
fn add_all(conn: &mut Connection<MemStore>, records: &SiteRecords) -> Result<(), TablesFault>
    requires { IsSite conn.old }
    ensures site { IsSite conn.new }
    ensures ok { OnOk result (rows_of conn.new ≡ with_records records.now (rows_of conn.old)) }
    ensures err { OnErr result (rows_of conn.new ≡ rows_of conn.old) }
    ensures fault { IfErr result IsOfStore }
{
    let mut tx = conn.transaction();
    add_records(&mut tx, records)?;
    tx.commit()?;
    Ok(())
}

/// Adds all of the records, or none. The IDs are checked first, so nothing is written if one is
/// taken.
pub(crate) fn import(
    conn: &mut Connection<MemStore>,
    alloc: Global,
    records: &SiteRecords,
) -> Result<(), TablesFault>
    requires { IsSite conn.old }
    ensures site { IsSite conn.new }
    ensures ok { OnOk result (rows_of conn.new ≡ with_records records.now (rows_of conn.old)) }
    ensures err { OnErr result (rows_of conn.new ≡ rows_of conn.old) }
    ensures fresh { OnOk result (are_new records.now.posts (rows_of conn.old).posts ≡ true) }
    ensures duplicate { IfErr result (λ e. e ≡ TablesFault.DuplicateId
        → are_new records.now.posts (rows_of conn.old).posts ≡ false) }
    ensures not_new { are_new records.now.posts (rows_of conn.old).posts ≡ false
        → IsRefusedAs (rows_of conn.old).step_limit TablesFault.DuplicateId result }
    ensures fault { IfErr result (λ e. (e ≡ TablesFault.DuplicateId) ⊎ IsOfStore e) }
{
    if !are_new(conn, alloc, records.posts.as_slice())? {
        return Err(TablesFault::DuplicateId);
    }
    add_all(conn, records)
}
