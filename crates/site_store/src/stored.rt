//! What a site has stored, with what its pages read of it kept from one request to the next.
ghost use Rattle.std.specs.Prelude.{◌≡◌, All, IfOk, IfErr, IfSome, map, string_bytes};
ghost use Rattle.permalink_query.specs.Paths.{query_of};
ghost use Rattle.permalink_query.specs.Found.{query_result};
ghost use Rattle.post_tables.specs.Faults.{IsStoreReadFault};
ghost use Rattle.site_export.specs.Lines.{IsHistory, IsShort, FitsLines};
ghost use Rattle.site_store.specs.Stored.{options_of, templates_of, active_of, found_by};
ghost use Rattle.site_records.specs.Sorted.{AreSorted};

use crate::kept_finds::KeptFinds;
use crate::templates::Templates;
use permalink_query::{Found, find, read};
use plain_data::{Shared, SharedList, Text};
use post_tables::Tables;
use site_edits::StoreFault;
use site_export::history_of;
use std::alloc::{AllocError, Global};
use std::marker::Model;

/// The tables of a site, and what was read from them since it last changed: the options, the
/// templates, the active names, and what paths found.
///
/// Contracts see the rows of the tables, and not what is kept: that is always what the tables hold.
pub struct SiteStore {
    pub(crate) tables: Tables,
    pub(crate) options: Option<SharedList<(Text, Text)>>,
    // How often the kept options were copied to set one of them, since they were last asked for.
    pub(crate) copies: u8,
    pub(crate) templates: Option<Templates>,
    pub(crate) active: Option<SharedList<Text>>,
    pub(crate) found: KeptFinds,
}

impl Model for SiteStore {
    ghost use Rattle.post_tables.specs.Rows.{Rows, rows_code};
    ghost use Rattle.site_store.specs.Kept.{KeepsUp};

    ghost Value = { Rows };

    ghost coded = { rows_code };

    ghost view = { λ s. s.tables };

    ghost invariant = { λ s. KeepsUp s.tables s.options s.templates s.active s.found };
}

// Written out, so that a crate that owns a store proves no drop of its tables.
impl Drop for SiteStore {
    fn drop(self) {
        let SiteStore {
            tables: _,
            options: _,
            copies: _,
            templates: _,
            active: _,
            found: _,
        } = self;
    }
}

impl SiteStore {
    /// Takes over the tables. Nothing is kept of them yet.
    pub fn new(alloc: Global, tables: Tables) -> Self
        ensures { result ≡ tables }
    {
        SiteStore {
            tables,
            options: None,
            copies: 0,
            templates: None,
            active: None,
            found: KeptFinds::none(alloc),
        }
    }

    /// Limits how many rows each later statement may visit. What is kept needs no statement.
    pub fn limit_steps(&mut self, limit: Option<u32>)
        ensures { self.new ≡ record self.old { step_limit = limit } }
    {
        self.tables.limit_steps(limit);
    }

    /// Returns the short lines of the rows. What is kept of the rows stays, since none changes.
    pub fn history(&mut self, alloc: Global) -> Result<Vec<String>, StoreFault>
        ensures lines { IfOk result (λ lines. IsHistory self.old (map string_bytes lines.items)) }
        ensures short { FitsLines self.old
            → IfOk result (λ lines. All IsShort (map string_bytes lines.items)) }
        ensures same { self.new ≡ self.old }
        ensures fault { IfErr result (IsStoreReadFault self.old.step_limit) }
    {
        Ok(history_of(alloc, &mut self.tables)?)
    }

    /// Returns the options, read from the tables if they are not kept.
    pub fn options(&mut self) -> Result<SharedList<(Text, Text)>, StoreFault>
        ensures ok { IfOk result (λ options. options ≡ options_of self.old) }
        ensures same { self.new ≡ self.old }
        ensures fault { IfErr result (IsStoreReadFault self.old.step_limit) }
    {
        self.copies = 0;
        if let Some(options) = &self.options {
            return Ok(options.share()?);
        }
        let options = SharedList::new(self.tables.options()?.into_vec())?;
        self.options = Some(options.share()?);
        Ok(options)
    }

    /// Returns the names of the active plugins, read from the tables if they are not kept.
    pub fn active(&mut self) -> Result<SharedList<Text>, StoreFault>
        ensures ok { IfOk result (λ names. names ≡ active_of self.old) }
        ensures same { self.new ≡ self.old }
        ensures fault { IfErr result (IsStoreReadFault self.old.step_limit) }
    {
        if let Some(active) = &self.active {
            return Ok(active.share()?);
        }
        let active = SharedList::new(self.tables.active()?.into_vec())?;
        self.active = Some(active.share()?);
        Ok(active)
    }

    /// Takes the templates, read from the tables if they are not kept. The caller owns them until
    /// it hands them to `keep_templates`.
    pub fn take_templates(&mut self, alloc: Global) -> Result<Templates, StoreFault>
        ensures ok { IfOk result (λ templates. templates ≡ templates_of self.old) }
        ensures same { self.new ≡ self.old }
        ensures fault { IfErr result (IsStoreReadFault self.old.step_limit) }
    {
        if let Some(templates) = self.templates.take() {
            return Ok(templates);
        }
        Ok(Templates::new(alloc, self.tables.templates()?)?)
    }

    /// Keeps the templates for the next request.
    pub fn keep_templates(&mut self, templates: Templates)
        requires { templates ≡ templates_of self.old }
        ensures { self.new ≡ self.old }
    {
        self.templates = Some(templates);
    }

    /// Finds what a path asks for in the site, whose options these are. The tables are read only if
    /// it is not kept.
    pub fn found(
        &mut self,
        alloc: Global,
        path: &str,
        options: &[(Text, Text)],
    ) -> Result<Shared<Found>, StoreFault>
        requires { options.now ≡ options_of self.old }
        ensures found { IfOk result (λ found. found ≡ found_by self.old path.now) }
        ensures same { self.new ≡ self.old }
        ensures stopped { IfErr result (IsStoreReadFault self.old.step_limit) }
    {
        if let Some(found) = self.known(path)? {
            return Ok(found);
        }
        let found = found_by(alloc, &mut self.tables, path, options)?;
        let found = Shared::new(alloc, found)?;
        // If memory runs out here, the page is printed all the same, and the path is read again
        // next time.
        let _ = self.found.keep(path, &found);
        Ok(found)
    }

    /// Returns what the path finds, if it is kept.
    fn known(&mut self, path: &str) -> Result<Option<Shared<Found>>, AllocError>
        ensures found { IfOk result
            (λ known. IfSome known (λ found. found ≡ found_by self.old path.now)) }
        ensures same { self.new ≡ self.old }
    {
        self.found.at(path)
    }
}

/// Finds what a path asks for, in a site with these options.
fn found_by(
    alloc: Global,
    tables: &mut Tables,
    path: &str,
    options: &[(Text, Text)],
) -> Result<Found, StoreFault>
    requires { AreSorted options.now }
    ensures found { IfOk result (λ f.
        f ≡ query_result tables.old.posts options.now (query_of path.now)) }
    ensures same { tables.new ≡ tables.old }
    ensures stopped { IfErr result (IsStoreReadFault tables.old.step_limit) }
{
    let query = read(alloc, path)?;
    find(alloc, tables, &query, options)
}
