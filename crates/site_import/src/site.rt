//! A whole site file.
ghost use Rattle.std.specs.Prelude.{◌≡◌, ◌≢◌, ◌≤◌, ◌++◌, Ok, Err, IfOk, IfErr, All, option_map};
ghost use Rattle.serde_json.specs.View.{view};
ghost use Rattle.site_records.specs.Ids.{max_id};
ghost use Rattle.site_import.specs.Walks.{Reads};
ghost use Rattle.site_import.specs.Site.{version_of, front_in, options_in, records_in};
ghost use Rattle.site_import.specs.Site.{site_file_of, site_file_in};

use crate::active::read_active;
use crate::fault::{ImportFault, Place, Section};
use crate::front::read_front;
use crate::options::read_options;
use crate::posts::read_posts;
use crate::templates::read_templates;
use plain_data::{Listed, Text};
use serde_json::Value;
use site_records::SiteRecords;
use std::alloc::{AllocError, Global};

/// What a site file adds to a site.
#[derive(Drop)]
pub struct SiteFile {
    pub records: SiteRecords,
}

fn version_of(value: &Value) -> Option<u64>
    ensures { result ≡ version_of (view value.now) }
{
    let version = value.get("version")?.as_u64()?;
    if (1..=2).contains(&version) {
        Some(version)
    } else {
        None
    }
}

/// Returns the value of `front`, which is a section from version 2 on.
fn front_in(value: &Value, version: u64) -> Option<&Value>
    ensures { option_map (λ v. view v.now) result ≡ front_in version (view value.now) }
{
    if version < 2 {
        return None;
    }
    value.get("front")
}

/// Reads all options of a site file. If a name is repeated the later value counts, so `front` wins.
fn read_all_options(
    alloc: Global,
    value: &Value,
    version: u64,
) -> Result<Listed<(Text, Text)>, ImportFault>
    ensures { Reads (options_in version (view value.now)) result }
{
    let options = read_options(alloc, value.get("options"))?;
    let front = read_front(alloc, front_in(value, version))?;
    Ok(joined(options, front)?)
}

fn joined(
    options: Listed<(Text, Text)>,
    front: Listed<(Text, Text)>,
) -> Result<Listed<(Text, Text)>, AllocError>
    ensures { IfOk result (λ all. all ≡ options ++ front) }
{
    let mut all = options.into_vec();
    all.append(&mut front.into_vec())?;
    Ok(Listed::new(all))
}

#[tactic(auto, unfolding(crate::specs::Site::records_in))]
fn read_sections(alloc: Global, value: &Value, version: u64) -> Result<SiteRecords, ImportFault>
    ensures { Reads (records_in version (view value.now)) result }
{
    Ok(SiteRecords {
        posts: read_posts(alloc, value.get("posts"))?,
        options: read_all_options(alloc, value, version)?,
        templates: read_templates(alloc, value.get("templates"))?,
        active: read_active(alloc, value.get("active"))?,
    })
}

#[tactic(auto, unfolding(crate::specs::Site::site_file_of))]
fn read_records(alloc: Global, value: &Value) -> Result<SiteRecords, ImportFault>
    ensures { Reads (site_file_of (view value.now)) result }
{
    if !value.is_object() {
        return Err(ImportFault::BadImport(Place::whole(Section::Root)));
    }
    let Some(version) = version_of(value) else {
        return Err(ImportFault::BadImport(Place::whole(Section::Version)));
    };
    read_sections(alloc, value, version)
}

/// Reads the records of a tree of version 1 or 2. Keys other than `version`, `posts`, `options`,
/// `templates`, `active` and, in version 2, `front` are ignored. What `front` says becomes options
/// after the others. Whether the IDs are new and the plugins exist isn't checked.
pub fn read_site_value(alloc: Global, value: &Value) -> Result<SiteFile, ImportFault>
    ensures ok { IfOk result (λ file. site_file_of (view value.now) ≡ Ok file.records) }
    ensures err { IfErr result (λ fault. fault ≢ ImportFault.OutOfMemory
        → site_file_of (view value.now) ≡ Err fault) }
    ensures ids { IfOk result (λ file. All (λ post. (1 ≤ post.id) × (post.id ≤ max_id))
        file.records.posts) }
{
    let records = read_records(alloc, value)?;
    Ok(SiteFile { records })
}

fn read_tree(alloc: Global, bytes: &[u8]) -> Result<Value, ImportFault>
    ensures ok { IfOk result (λ value. site_file_in bytes.now ≡ site_file_of (view value)) }
    ensures err { IfErr result (λ fault. fault ≢ ImportFault.OutOfMemory
        → site_file_in bytes.now ≡ Err fault) }
{
    match Value::from_slice(alloc, bytes) {
        Ok(value) => Ok(value),
        Err(e) if e.is_memory() => Err(ImportFault::OutOfMemory),
        Err(_) => Err(ImportFault::BadImport(Place::whole(Section::Text))),
    }
}

/// Reads the records of a site file, given as its bytes.
pub fn read_site(alloc: Global, bytes: &[u8]) -> Result<SiteFile, ImportFault>
    ensures ok { IfOk result (λ file. site_file_in bytes.now ≡ Ok file.records) }
    ensures err { IfErr result (λ fault. fault ≢ ImportFault.OutOfMemory
        → site_file_in bytes.now ≡ Err fault) }
    ensures ids { IfOk result (λ file. All (λ post. (1 ≤ post.id) × (post.id ≤ max_id))
        file.records.posts) }
{
    let value = read_tree(alloc, bytes)?;
    read_site_value(alloc, &value)
}
