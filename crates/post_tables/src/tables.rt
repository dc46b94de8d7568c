//! The tables of a site.
ghost use Rattle.std.specs.Prelude.{
  ◌≡◌,
  ◌⊎◌,
  ◌+◌,
  ◌<◌,
  ◌≤◌,
  true,
  false,
  IfOk,
  IfErr,
  OnOk,
  OnErr,
  All,
  Some,
  map,
};
ghost use Rattle.std.specs.FinMap.{insert, entries, keys};
ghost use Rattle.std.specs.List.{list_all};
ghost use Rattle.std.specs.List.Sorted.{IsStrictlySortedBy};
ghost use Rattle.std.specs.Ordering.{nat_cmp};
ghost use Rattle.std.specs.Option.{option_copied};
ghost use Rattle.post_tables.specs.Rows.{
  no_rows,
  with_new,
  without_post,
  has_post,
  post_with,
  posts_after,
  edit_by,
  edited_posts,
  set_text,
  set_name,
  are_new,
  with_records,
  IsOfStore,
  IsReadFault,
  IsRefusedAs,
};
ghost use Rattle.post_tables.specs.Page.{newest, is_listed, page_of};
ghost use Rattle.site_records.specs.Dates.{is_post_date};
ghost use Rattle.site_records.specs.Ids.{max_id};
ghost use Rattle.post_tables.specs.Stored.{IsSite, Reads, rows_of};

use crate::fault::TablesFault;
use crate::import::import;
use crate::kept::KeptPosts;
use crate::kept_parts::KeptParts;
use crate::listing::{part, post_at};
use crate::named::{
    active_rows, delete_active, delete_template, option_rows, put_active, put_option, put_template,
    template_rows,
};
use crate::posts::{
    NewPost, delete_post, edit_post, has_post, insert_post, largest_id, later_rows,
};
use crate::read::{read_names, read_pairs, read_posts};
use crate::schema::create;
use plain_data::{Listed, Text};
use site_records::{MAX_ID, Post, PostDate, PostKind, PostStatus, SiteRecords};
use sqlite::{Connection, Error, MemStore};
use std::alloc::Global;
use std::marker::Model;

/// What a site stores: posts and pages, options, templates, and the names of the active plugins,
/// in a database in memory. Contracts see its rows as a record of lists and maps. A call that is
/// refused leaves each of them as it was.
///
/// As far as there is room, posts that were read are kept as edits leave them, and the IDs of a part
/// until a post is added or deleted, or the status or the date of one is set. A page whose posts are
/// found anew reads the rows of the others alone. Contracts don't see what is kept.
#[derive(Drop)]
pub struct Tables {
    conn: Connection<MemStore>,
    kept: KeptPosts,
    parts: KeptParts,
    alloc: Global,
}

impl Model for Tables {
    ghost use Rattle.post_tables.specs.Rows.{Rows, rows_code};
    ghost use Rattle.post_tables.specs.Stored.{IsSite, rows_of};
    ghost use Rattle.post_tables.specs.Kept.{AreListed, AreStored};

    ghost Value = { Rows };

    ghost coded = { rows_code };

    ghost view = { λ t. rows_of t.conn };

    ghost invariant = { λ t. IsSite t.conn × AreStored t.kept (rows_of t.conn).posts
        × AreListed t.parts (rows_of t.conn).posts };
}

/// Returns the ID after the largest that was ever given, or `IdsUsedUp` if there is none left.
fn next_id(conn: &mut Connection<MemStore>) -> Result<u32, TablesFault>
    requires { IsSite conn.old }
    ensures reads { Reads conn.old conn.new }
    ensures id { IfOk result (λ id. id ≡ (rows_of conn.old).largest + 1) }
    ensures left { OnOk result ((rows_of conn.old).largest < max_id) }
    ensures used_up { result ≡ Err TablesFault.IdsUsedUp
        → max_id ≤ (rows_of conn.old).largest }
    ensures fault { IfErr result (λ e. (e ≡ TablesFault.IdsUsedUp)
        ⊎ IsReadFault (rows_of conn.old).step_limit e) }
{
    let largest = largest_id(conn)?;
    if largest >= MAX_ID {
        return Err(TablesFault::IdsUsedUp);
    }
    Ok(largest + 1)
}

/// Returns why a statement that changes a post was refused: that no post has the ID comes first.
fn refusal(conn: &mut Connection<MemStore>, id: u32, error: Error) -> TablesFault
    requires { IsSite conn.old }
    ensures reads { Reads conn.old conn.new }
    ensures missing { result ≡ TablesFault.NoSuchPost
        → has_post id (rows_of conn.old).posts ≡ false }
    ensures absent { has_post id (rows_of conn.old).posts ≡ false
        → (result ≡ TablesFault.NoSuchPost) ⊎ IsReadFault (rows_of conn.old).step_limit result }
    ensures fault { (result ≡ TablesFault.NoSuchPost) ⊎ IsOfStore result }
{
    match has_post(conn, id) {
        Ok(true) => TablesFault::from(error),
        Ok(false) => TablesFault::NoSuchPost,
        Err(error) => TablesFault::from(error),
    }
}

impl Tables {
    /// A law: whatever calls were made, the IDs of posts ascend, so that no two posts have the same
    /// one, and none is above the largest that was ever given. The call changes nothing: it carries
    /// these facts.
    pub fn ids_occur_once(&self)
        ensures once { IsStrictlySortedBy nat_cmp (map (λ p. p.id) self.now.posts) }
        ensures given { All (λ p. p.id ≤ self.now.largest) self.now.posts }
    {
        // The invariant of the type is known once a field is borrowed.
        let _conn = &self.conn;
    }

    /// Makes new tables with no rows.
    pub fn open_in_memory(alloc: Global) -> Result<Tables, TablesFault>
        ensures ok { IfOk result (λ tables. tables ≡ no_rows) }
        ensures fault { IfErr result IsOfStore }
    {
        let mut conn = Connection::open_in_memory(alloc)?;
        create(&mut conn)?;
        Ok(Tables {
            conn,
            kept: KeptPosts::new(alloc),
            parts: KeptParts::new(alloc),
            alloc,
        })
    }

    /// Limits how many rows each later statement may visit, from the next call on; with `None`
    /// there is no limit. A statement that would visit more may be refused as `Store`, and then
    /// leaves every row as it was.
    pub fn limit_steps(&mut self, limit: Option<u32>)
        ensures { self.new ≡ record self.old { step_limit = limit } }
    {
        let steps = limit.map(u64::from);
        self.conn.set_step_limit(steps);
    }

    /// Stores a new post or page, and returns its ID: the one after the largest that was ever given
    /// (wp_insert_post; SQLite, AUTOINCREMENT). It is refused as `IdsUsedUp` if that largest is
    /// [`MAX_ID`].
    pub fn put_post(
        &mut self,
        kind: PostKind,
        status: PostStatus,
        title: &str,
        content: &str,
        date: &PostDate,
    ) -> Result<u32, TablesFault>
        ensures id { IfOk result (λ id. id ≡ self.old.largest + 1) }
        ensures ok { IfOk result (λ id. self.new ≡ with_new
            (record {
              id = id;
              kind = kind;
              status = status;
              title = title.now;
              content = content.now;
              date = date.now;
            })
            self.old) }
        ensures fresh { IfOk result (λ id. has_post id self.old.posts ≡ false) }
        ensures err { OnErr result (self.new ≡ self.old) }

        // There is no ID left exactly if the largest was given.
        ensures left { OnOk result (self.old.largest < max_id) }
        ensures used_up { result ≡ Err TablesFault.IdsUsedUp → max_id ≤ self.old.largest }
        ensures none_left { max_id ≤ self.old.largest
            → IsRefusedAs self.old.step_limit TablesFault.IdsUsedUp result }
        ensures fault { IfErr result (λ e. (e ≡ TablesFault.IdsUsedUp) ⊎ IsOfStore e) }
    {
        let id = next_id(&mut self.conn)?;
        let post = NewPost {
            id,
            kind,
            status,
            title,
            content,
            date,
        };
        self.parts.clear();
        insert_post(&mut self.conn, &post)?;
        Ok(id)
    }

    /// Edits the post with the ID. It keeps what is not given, its kind and its ID.
    pub fn edit_post(
        &mut self,
        id: u32,
        status: Option<PostStatus>,
        title: Option<&str>,
        content: Option<&str>,
        date: Option<&PostDate>,
    ) -> Result<(), TablesFault>
        ensures ok { OnOk result (self.new ≡ record self.old {
          posts = edited_posts id (edit_by status title.entry content.entry date.entry)
              self.old.posts;
        }) }
        ensures err { OnErr result (self.new ≡ self.old) }
        ensures there { OnOk result (has_post id self.old.posts ≡ true) }
        ensures missing { result ≡ Err TablesFault.NoSuchPost → has_post id self.old.posts ≡ false }
        ensures absent { has_post id self.old.posts ≡ false
            → IsRefusedAs self.old.step_limit TablesFault.NoSuchPost result }
        ensures fault { IfErr result (λ e. (e ≡ TablesFault.NoSuchPost) ⊎ IsOfStore e) }
    {
        self.parts.before_edit(status, date);
        match edit_post(&mut self.conn, id, status, title, content, date) {
            Ok(0) => Err(TablesFault::NoSuchPost),
            Ok(_) => {
                self.kept.edit(self.alloc, id, status, title, content, date);
                Ok(())
            }
            Err(error) => Err(refusal(&mut self.conn, id, error)),
        }
    }

    /// Deletes the post with the ID. The ID is never given again.
    pub fn delete_post(&mut self, id: u32) -> Result<(), TablesFault>
        ensures ok { OnOk result (self.new ≡ record self.old {
          posts = without_post id self.old.posts;
        }) }
        ensures err { OnErr result (self.new ≡ self.old) }
        ensures there { OnOk result (has_post id self.old.posts ≡ true) }
        ensures missing { result ≡ Err TablesFault.NoSuchPost → has_post id self.old.posts ≡ false }
        ensures absent { has_post id self.old.posts ≡ false
            → IsRefusedAs self.old.step_limit TablesFault.NoSuchPost result }
        ensures fault { IfErr result (λ e. (e ≡ TablesFault.NoSuchPost) ⊎ IsOfStore e) }
    {
        self.kept.forget(id);
        self.parts.clear();
        match delete_post(&mut self.conn, id) {
            Ok(0) => Err(TablesFault::NoSuchPost),
            Ok(_) => Ok(()),
            Err(error) => Err(refusal(&mut self.conn, id, error)),
        }
    }

    /// Returns the post or page with the ID, published or not, if there is one.
    pub fn post(&mut self, id: u32) -> Result<Option<Post>, TablesFault>
        ensures ok { IfOk result (λ post. post ≡ post_with id self.old.posts) }
        ensures same { self.new ≡ self.old }
        ensures fault { IfErr result (IsReadFault self.old.step_limit) }
    {
        Ok(post_at(&mut self.conn, &mut self.kept, id)?)
    }

    /// Returns the posts and pages with an ID above `id`, published or not, by ascending ID: at
    /// most `limit` of them.
    pub fn posts_after(&mut self, id: u32, limit: u32) -> Result<Listed<Post>, TablesFault>
        ensures ok { IfOk result (λ posts. posts ≡ posts_after id limit self.old.posts) }
        ensures same { self.new ≡ self.old }
        ensures fault { IfErr result (IsReadFault self.old.step_limit) }
    {
        let rows = later_rows(&mut self.conn, id, limit)?;
        Ok(Listed::new(read_posts(self.alloc, &rows)?))
    }

    /// Returns the largest ID that was ever given or imported, also if its post is gone; 0 before
    /// the first.
    pub fn largest(&mut self) -> Result<u32, TablesFault>
        ensures ok { IfOk result (λ id. id ≡ self.old.largest) }
        ensures same { self.new ≡ self.old }
        ensures fault { IfErr result (IsReadFault self.old.step_limit) }
    {
        Ok(largest_id(&mut self.conn)?)
    }

    /// Returns the published entries of a kind, dated `from` one moment `to` another, both
    /// included: newest first, and of two with one date the larger ID first (WP_Query, `orderby`).
    /// The first `offset` of them are left out, and of the others at most `limit` are returned.
    pub fn posts_of(
        &mut self,
        kind: PostKind,
        from: &PostDate,
        to: &PostDate,
        limit: u32,
        offset: u64,
    ) -> Result<Listed<Post>, TablesFault>
        ensures ok { IfOk result (λ posts. posts
            ≡ page_of kind from.now to.now limit offset self.old.posts) }
        ensures same { self.new ≡ self.old }
        ensures fault { IfErr result (IsReadFault self.old.step_limit) }

        // Each is newer than all after it. All of them are listed, and are the posts that have
        // their IDs.
        ensures in_order { IfOk result (λ posts. IsStrictlySortedBy newest posts) }
        ensures stored { IfOk result (λ posts. All (λ p. (is_listed kind from.now to.now p ≡ true)
            × (post_with p.id self.old.posts ≡ Some p)) posts) }

        // Whatever calls were made, the date of each post is a day and a time.
        ensures dated { list_all (λ p. is_post_date p.date) self.old.posts ≡ true }
    {
        let posts = part(
            &mut self.conn,
            &mut self.kept,
            &mut self.parts,
            self.alloc,
            kind,
            from,
            to,
            limit,
            offset,
        )?;
        Ok(Listed::new(posts))
    }

    /// Sets the value of an option.
    pub fn set_option(&mut self, name: &str, value: &str) -> Result<(), TablesFault>
        ensures ok { OnOk result (self.new ≡ record self.old {
          options = insert self.old.options name.now value.now;
        }) }
        ensures err { OnErr result (self.new ≡ self.old) }
        ensures fault { IfErr result IsOfStore }
    {
        put_option(&mut self.conn, name, value)?;
        Ok(())
    }

    /// Returns all options with their values, in the order of their names' bytes.
    pub fn options(&mut self) -> Result<Listed<(Text, Text)>, TablesFault>
        ensures ok { IfOk result (λ options. options ≡ entries self.old.options) }
        ensures same { self.new ≡ self.old }
        ensures fault { IfErr result (IsReadFault self.old.step_limit) }
    {
        let rows = option_rows(&mut self.conn)?;
        Ok(Listed::new(read_pairs(self.alloc, &rows)?))
    }

    /// Makes a name active or inactive. It may have been so before.
    pub fn set_active(&mut self, name: &str, active: bool) -> Result<(), TablesFault>
        ensures ok { OnOk result (self.new ≡ record self.old {
          active = set_name name.now active self.old.active;
        }) }
        ensures err { OnErr result (self.new ≡ self.old) }
        ensures fault { IfErr result IsOfStore }
    {
        if active {
            put_active(&mut self.conn, name)?;
        } else {
            delete_active(&mut self.conn, name)?;
        }
        Ok(())
    }

    /// Returns the active names, in the order of their bytes.
    pub fn active(&mut self) -> Result<Listed<Text>, TablesFault>
        ensures ok { IfOk result (λ names. names ≡ keys self.old.active) }
        ensures same { self.new ≡ self.old }
        ensures fault { IfErr result (IsReadFault self.old.step_limit) }
    {
        let rows = active_rows(&mut self.conn)?;
        Ok(Listed::new(read_names(self.alloc, &rows)?))
    }

    /// Sets the text of a template, or with `None` removes the template, if it is there.
    pub fn set_template(&mut self, name: &str, text: Option<&str>) -> Result<(), TablesFault>
        ensures ok { OnOk result (self.new ≡ record self.old {
          templates = set_text name.now (option_copied text.entry) self.old.templates;
        }) }
        ensures err { OnErr result (self.new ≡ self.old) }
        ensures fault { IfErr result IsOfStore }
    {
        match text {
            Some(text) => put_template(&mut self.conn, name, text)?,
            None => delete_template(&mut self.conn, name)?,
        };
        Ok(())
    }

    /// Returns all templates with their texts, in the order of their names' bytes.
    pub fn templates(&mut self) -> Result<Listed<(Text, Text)>, TablesFault>
        ensures ok { IfOk result (λ templates. templates ≡ entries self.old.templates) }
        ensures same { self.new ≡ self.old }
        ensures fault { IfErr result (IsReadFault self.old.step_limit) }
    {
        let rows = template_rows(&mut self.conn)?;
        Ok(Listed::new(read_pairs(self.alloc, &rows)?))
    }

    /// Adds all records of a site file, or none: the posts first, and then the options, the
    /// templates and the active names in the order of their lists. It is refused as `DuplicateId`
    /// if two of the posts have the same ID, or a stored post has it already.
    pub fn import(&mut self, records: &SiteRecords) -> Result<(), TablesFault>
        requires { All (λ p. (1 ≤ p.id) × (p.id ≤ max_id)) records.now.posts }
        ensures ok { OnOk result (self.new ≡ with_records records.now self.old) }
        ensures err { OnErr result (self.new ≡ self.old) }
        ensures fresh { OnOk result (are_new records.now.posts self.old.posts ≡ true) }
        ensures twice { result ≡ Err TablesFault.DuplicateId
            → are_new records.now.posts self.old.posts ≡ false }
        ensures not_new { are_new records.now.posts self.old.posts ≡ false
            → IsRefusedAs self.old.step_limit TablesFault.DuplicateId result }
        ensures fault { IfErr result (λ e. (e ≡ TablesFault.DuplicateId) ⊎ IsOfStore e) }
    {
        self.kept.clear();
        self.parts.clear();
        import(&mut self.conn, self.alloc, records)
    }
}
