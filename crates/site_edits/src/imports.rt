//! The command that adds what a site file holds.
ghost use Rattle.std.specs.Prelude.{◌≡◌, ◌≢◌, ◌≤◌, Ok, IfOk, IfErr, OnOk, All};
ghost use Rattle.callback_store.specs.Shape.{shapes_of};
ghost use Rattle.serde_json.specs.View.{view};
ghost use Rattle.site_replies.specs.Reply.{reply_data};
ghost use Rattle.site_edits.specs.Imports.{import, rows_after_import, import_refusal};
ghost use Rattle.site_edits.specs.Imports.{rows_with_records, are_known};
ghost use Rattle.site_edits.specs.Carried.{CarriesOut};

use callback_store::{Plugins, Stated};
use plain_data::Text;
use post_tables::{StoreFault, Tables, TablesFault};
use serde_json::Value;
use site_import::{ImportFault, read_site_value};
use site_records::SiteRecords;
use site_replies::{Refusal, SiteReply};
use std::alloc::Global;

/// Adds all records of a site file, or none. Refused as `BadImport`, `BadDate`, `BadTemplate`,
/// `TooLarge`, `UnknownPlugin` or `DuplicateId`.
#[tactic(auto, unfolding(crate::specs::Imports::import))]
pub fn import<S: Stated>(
    alloc: Global,
    plugins: &Plugins<S>,
    tables: &mut Tables,
    site: &Value,
) -> Result<SiteReply, StoreFault>
    ensures { CarriesOut tables.old (import (shapes_of S.number plugins.now) tables.old
        (view site.now))
        result tables.new }
{
    match read_site_value(alloc, site) {
        Ok(file) => add_known(plugins, tables, &file.records),
        Err(fault) => refused_import(fault),
    }
}

/// Adds the records of a site file, if each plugin that is active in it exists.
fn add_known<S: Stated>(
    plugins: &Plugins<S>,
    tables: &mut Tables,
    records: &SiteRecords,
) -> Result<SiteReply, StoreFault>
    requires { All (λ p. (1 ≤ p.id) × (p.id ≤ 2147483647)) records.now.posts }
    ensures { CarriesOut tables.old (rows_after_import (shapes_of S.number plugins.now) tables.old
        (Ok records.now))
        result tables.new }
{
    if !are_known(plugins, records.active.as_slice()) {
        return Ok(SiteReply::Refused(Refusal::UnknownPlugin));
    }
    add_records(tables, records)
}

fn are_known<S: Stated>(plugins: &Plugins<S>, names: &[Text]) -> bool
    ensures { result ≡ are_known (shapes_of S.number plugins.now) names.now }
{
    names
        .iter()
        .all(|name| plugins.load_of(name.as_str()).is_some())
}

/// Returns the reply to a site file that is refused.
fn refused_import(fault: ImportFault) -> Result<SiteReply, StoreFault>
    ensures ok { IfOk result (λ reply. reply_data reply ≡ import_refusal fault) }
    ensures err { IfErr result (λ e. (e ≡ StoreFault.OutOfMemory)
        × (fault ≡ ImportFault.OutOfMemory)) }
    ensures other { OnOk result (fault ≢ ImportFault.OutOfMemory) }
{
    match fault {
        ImportFault::BadImport(_) => Ok(SiteReply::Refused(Refusal::BadImport)),
        ImportFault::BadDate(_) => Ok(SiteReply::Refused(Refusal::BadDate)),
        ImportFault::BadTemplate(_) => Ok(SiteReply::Refused(Refusal::BadTemplate)),
        ImportFault::TooLarge(_) => Ok(SiteReply::Refused(Refusal::TooLarge)),
        ImportFault::OutOfMemory => Err(StoreFault::OutOfMemory),
    }
}

fn add_records(tables: &mut Tables, records: &SiteRecords) -> Result<SiteReply, StoreFault>
    requires { All (λ p. (1 ≤ p.id) × (p.id ≤ 2147483647)) records.now.posts }
    ensures { CarriesOut tables.old (rows_with_records tables.old records.now) result tables.new }
{
    match tables.import(records) {
        Ok(()) => Ok(SiteReply::Ok),
        Err(TablesFault::DuplicateId) => Ok(SiteReply::Refused(Refusal::DuplicateId)),
        Err(fault) => Err(StoreFault::from(fault)),
    }
}
