//! The paths of open pages.
ghost use Rattle.std.specs.Prelude.{◌≡◌, ℕ, option_map, OnOk, OnErr, None, Some};
ghost use Rattle.page_trace.specs.Log.{path_at, Sets};

use hook_changes::Text;
use std::alloc::{AllocError, Global};
use std::collections::BTreeMap;

/// The paths of open pages, by the numbers of their pages.
#[derive(Drop)]
pub(crate) struct OpenPaths {
    paths: BTreeMap<u32, Text>,
}

impl OpenPaths {
    /// Knows no path. Does not allocate.
    pub(crate) fn new(alloc: Global) -> Self
        ensures { (number : ℕ) → path_at result number ≡ None }
    {
        OpenPaths {
            paths: BTreeMap::new(alloc),
        }
    }

    /// Returns the path of a page, if it is known.
    pub(crate) fn get(&self, number: u32) -> Option<&str>
        ensures { option_map (λ path. path.now) result ≡ path_at self.now number }
    {
        match self.paths.get(&number) {
            Some(path) => Some(path.as_str()),
            None => None,
        }
    }

    /// Forgets the path of a page.
    pub(crate) fn forget(&mut self, number: u32)
        ensures { Sets self.old self.new number None }
    {
        drop(self.paths.remove(&number));
    }

    /// Keeps the path of a page. On allocation failure no path of it is known.
    pub(crate) fn keep(&mut self, alloc: Global, number: u32, path: &str) -> Result<(), AllocError>
        ensures ok { OnOk result (Sets self.old self.new number (Some path.now)) }
        ensures err { OnErr result (Sets self.old self.new number None) }
    {
        self.forget(number);
        let path = Text::copied(alloc, path)?;
        self.paths.insert(number, path)?;
        Ok(())
    }
}
