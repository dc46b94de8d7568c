//! The commands that change what a site has stored. Each first forgets what it may change of what
//! is kept.
ghost use Rattle.std.specs.Prelude.{◌≡◌};
ghost use Rattle.callback_store.specs.Shape.{shapes_of};
ghost use Rattle.serde_json.specs.View.{view};
ghost use Rattle.post_tables.specs.Rows.{edit_by};
ghost use Rattle.site_edits.specs.Edits.{put, edit, delete, set_option, set_active};
ghost use Rattle.site_edits.specs.Templates.{set_template};
ghost use Rattle.site_edits.specs.Imports.{import};
ghost use Rattle.site_edits.specs.Carried.{CarriesOut};
ghost use Rattle.site_store.specs.Kept.{decides_what_is_found};

use crate::kept_finds::KeptFinds;
use crate::kept_options::with_option;
use crate::stored::SiteStore;
use callback_store::{Plugins, Stated};
use serde_json::Value;
use site_edits::{StoreFault, delete, edit, import, put, set_active, set_option, set_template};
use site_records::{PostKind, PostStatus};
use site_replies::SiteReply;
use std::alloc::Global;

impl SiteStore {
    /// Stores one more post.
    pub fn put(
        &mut self,
        alloc: Global,
        kind: PostKind,
        status: PostStatus,
        title: &str,
        content: &str,
        date: &str,
    ) -> Result<SiteReply, StoreFault>
        ensures { CarriesOut self.old (put self.old kind status title.now content.now date.now)
            result self.new }
    {
        self.found = KeptFinds::none(alloc);
        put(&mut self.tables, kind, status, title, content, date)
    }

    /// Replaces the given fields of a post, and keeps the others.
    pub fn edit(
        &mut self,
        alloc: Global,
        id: u32,
        status: Option<PostStatus>,
        title: Option<&str>,
        content: Option<&str>,
        date: Option<&str>,
    ) -> Result<SiteReply, StoreFault>
        ensures { CarriesOut self.old
            (edit self.old id (edit_by status title.entry content.entry date.entry))
            result self.new }
    {
        self.found = KeptFinds::none(alloc);
        edit(&mut self.tables, id, status, title, content, date)
    }

    /// Deletes the post.
    pub fn delete(&mut self, alloc: Global, id: u32) -> Result<SiteReply, StoreFault>
        ensures { CarriesOut self.old (delete self.old id) result self.new }
    {
        self.found = KeptFinds::none(alloc);
        delete(&mut self.tables, id)
    }

    /// Sets the option to the value.
    pub fn set_option(
        &mut self,
        alloc: Global,
        name: &str,
        value: &str,
    ) -> Result<SiteReply, StoreFault>
        ensures { CarriesOut self.old (set_option self.old name.now value.now) result self.new }
    {
        let before = self.options.take();
        if decides_what_is_found(name) {
            self.found = KeptFinds::none(alloc);
        }
        let done = set_option(&mut self.tables, name, value);
        if let (Some(options), Ok(SiteReply::Ok)) = (&before, &done) {
            // If memory runs out here, or the options are too many or were copied too often, they are
            // read again for the next page.
            if let Ok(options) = with_option(alloc, options.as_slice(), self.copies, name, value) {
                self.options = Some(options);
                self.copies = self.copies.saturating_add(1);
            }
        }
        done
    }

    /// Activates or deactivates a plugin.
    pub fn set_active<S: Stated>(
        &mut self,
        plugins: &Plugins<S>,
        plugin: &str,
        active: bool,
    ) -> Result<SiteReply, StoreFault>
        ensures { CarriesOut self.old
            (set_active (shapes_of S.number plugins.now) self.old plugin.now active)
            result self.new }
    {
        self.active = None;
        set_active(plugins, &mut self.tables, plugin, active)
    }

    /// Stores a template under its name, in place of any before, or removes it.
    pub fn set_template(
        &mut self,
        alloc: Global,
        name: &str,
        body: &Value,
    ) -> Result<SiteReply, StoreFault>
        ensures { CarriesOut self.old (set_template self.old name.now (view body.now)) result
            self.new }
    {
        self.templates = None;
        set_template(alloc, &mut self.tables, name, body)
    }

    /// Adds what a site file holds.
    pub fn import<S: Stated>(
        &mut self,
        alloc: Global,
        plugins: &Plugins<S>,
        site: &Value,
    ) -> Result<SiteReply, StoreFault>
        ensures { CarriesOut self.old (import (shapes_of S.number plugins.now) self.old
            (view site.now))
            result self.new }
    {
        let SiteStore {
            tables,
            options,
            copies: _,
            templates,
            active,
            found,
        } = self;
        *options = None;
        *templates = None;
        *active = None;
        *found = KeptFinds::none(alloc);
        import(alloc, plugins, tables, site)
    }
}

/// Returns whether this option affects what paths find. No other option does.
fn decides_what_is_found(name: &str) -> bool
    ensures { result ≡ decides_what_is_found name.now }
{
    name == "posts_per_page" || name == "show_on_front" || name == "page_on_front"
}
