//! What paths found, as far as a site keeps it.
ghost use Rattle.std.specs.Prelude.{◌≡◌, ◌+◌, ◌-◌, ◌≤◌, ℕ, [], IfOk, bytes_eq, take};
ghost use Rattle.std.specs.List.{sum_by};
ghost use Rattle.std.specs.Map.{lookup};
ghost use Rattle.lru.specs.LruCache.{promoted};
ghost use Rattle.site_store.specs.Kept.{IsKeptFrom, bytes_of};

use crate::small_find::SmallFind;
use lru::LruCache;
use plain_data::Shared;
use site_records::Found;
use std::alloc::{AllocError, Global};
use std::marker::Model;
use std::num::NonZeroUsize;

/// The maximum number of paths that are kept with what they found.
const MOST_PATHS: usize = 1_024;

/// The maximum number of bytes of all paths that are kept, and of the titles and contents that they
/// found.
const MOST_BYTES: usize = 4_194_304;

/// The maximum number of bytes of a path that is kept.
const MOST_PATH: usize = 8_192;

/// Paths, each with what it found, the most recently used first: at most 1,024, which have at most
/// 4 MiB together with the titles and contents that they found. If there are too many, the least
/// recently used one is dropped first.
pub struct KeptFinds {
    alloc: Global,
    // Made for the first path that is kept, so that `none` doesn't allocate.
    recent: Option<RecentFinds>,
}

impl Model for KeptFinds {
    ghost use Rattle.std.specs.Prelude.{List, [], unwrap_or};
    ghost use Rattle.plain_data.specs.Texts.{Text};
    ghost use Rattle.site_records.specs.declared.found.Found.{Found};

    ghost Value = { List (Text × Found) };

    ghost view = { λ k. unwrap_or k.recent [] };
}

// Written out, so that a command that forgets finds is proved without a case for each state.
impl Drop for KeptFinds {
    fn drop(self) {
        let KeptFinds {
            alloc: _,
            recent: _,
        } = self;
    }
}

impl KeptFinds {
    /// Keeps nothing. Does not allocate.
    pub(crate) fn none(alloc: Global) -> Self
        ensures { result ≡ [] }
    {
        KeptFinds {
            alloc,
            recent: None,
        }
    }

    /// Returns what is kept for a path, if anything is. The path is then the most recently used.
    pub(crate) fn at(&mut self, path: &str) -> Result<Option<Shared<Found>>, AllocError>
        ensures found { IfOk result (λ found. found ≡ lookup (bytes_eq path.now) self.old) }
        ensures order { self.new ≡ promoted (bytes_eq path.now) self.old }
    {
        match &mut self.recent {
            Some(recent) => recent.at(path),
            None => Ok(None),
        }
    }

    /// Keeps what a path found, unless it found no posts or large ones, or the path is long.
    pub(crate) fn keep(&mut self, path: &str, found: &Shared<Found>) -> Result<(), AllocError>
        ensures { IsKeptFrom self.old (path.now, found.now) self.new }
    {
        let Some(find) = SmallFind::of(found) else {
            return Ok(());
        };
        let mut recent = match self.recent.take() {
            Some(recent) => recent,
            None => RecentFinds::new(self.alloc)?,
        };
        let kept = recent.keep(self.alloc, path, find);
        self.recent = Some(recent);
        kept
    }
}

/// The finds that are kept, once there is one.
#[derive(Drop)]
struct RecentFinds {
    finds: LruCache<String, SmallFind>,
    // How many bytes their paths, titles and contents have.
    bytes: usize,
}

impl Model for RecentFinds {
    ghost use Rattle.std.specs.Prelude.{List};
    ghost use Rattle.plain_data.specs.Texts.{Text};
    ghost use Rattle.site_records.specs.declared.found.Found.{Found};
    ghost use Rattle.site_store.specs.Kept.{IsCounted, finds_of};

    ghost Value = { List (Text × Found) };

    ghost view = { λ r. finds_of r.finds.entries };

    ghost invariant = { λ r. IsCounted r.finds r.bytes };
}

impl RecentFinds {
    /// Keeps nothing yet, and reserves no room.
    fn new(alloc: Global) -> Result<Self, AllocError>
        ensures { IfOk result (λ finds. finds ≡ []) }
    {
        match NonZeroUsize::new(MOST_PATHS) {
            Some(most) => Ok(RecentFinds {
                finds: LruCache::sparse(alloc, most)?,
                bytes: 0,
            }),
            None => unreachable!(),
        }
    }

    /// Returns what is kept for a path, if anything is. The path is then the most recently used.
    fn at(&mut self, path: &str) -> Result<Option<Shared<Found>>, AllocError>
        ensures found { IfOk result (λ found. found ≡ lookup (bytes_eq path.now) self.old) }
        ensures order { self.new ≡ promoted (bytes_eq path.now) self.old }
    {
        match self.finds.get(path) {
            Some(find) => Ok(Some(find.shared()?)),
            None => Ok(None),
        }
    }

    /// Keeps what a path found, unless the path is long.
    fn keep(&mut self, alloc: Global, path: &str, find: SmallFind) -> Result<(), AllocError>
        ensures { IsKeptFrom self.old (path.now, find) self.new }
    {
        if path.len() > MOST_PATH {
            return Ok(());
        }
        let bytes = find.bytes_under(path);
        self.make_room(bytes);
        let path = String::from_str(alloc, path)?;
        let displaced = self.finds.push(path, find)?;
        self.bytes += bytes;
        if let Some((path, find)) = displaced {
            self.bytes -= find.bytes_under(path.as_str());
        }
        Ok(())
    }

    /// Drops the least recently used finds, until there is room for this many bytes.
    fn make_room(&mut self, bytes: usize)
        ensures kept { (n : ℕ) × (self.new ≡ take n self.old) }
        ensures room { sum_by bytes_of self.new ≤ 4194304 - bytes }
    {
        while self.bytes > MOST_BYTES.saturating_sub(bytes) {
            match self.finds.pop_lru() {
                Some((path, find)) => self.bytes -= find.bytes_under(path.as_str()),
                None => unreachable!(),
            }
        }
    }
}
