//! What is left of a log in files that was given up.
ghost use Rattle.std.specs.Prelude.{◌≡◌, IfErr, OnOk, IsTrue};
ghost use Rattle.sqlite.specs.FileStore.{view};
ghost use Rattle.sqlite.specs.View.{IsClean};
ghost use Rattle.sqlite.specs.Tree.{Trees};
ghost use Rattle.sqlite_store.specs.FileStore.{HasSpilled, log_frames, recovers};
ghost use Rattle.command_log.specs.Faults.{IsStoreFault};
ghost use Rattle.command_log.specs.Found.{store_of};

use crate::fault::LogFault;
use sqlite::FileStore;
use sqlite_disk::Disk;

/// The files of a log that was given up, as a store in which nothing is under way. Contracts see the
/// store, by `store_of`.
pub struct LogFiles<D: Disk> {
    store: FileStore<D>,
}

// It is written out, so that no crate above proves again how each part of a store is dropped.
impl<D: Disk + Drop> Drop for LogFiles<D> {
    fn drop(self) {
        let LogFiles { store: _ } = self;
    }
}

impl<D: Disk> LogFiles<D> {
    pub(crate) fn new(store: FileStore<D>) -> Self
        ensures { store_of result ≡ store }
    {
        LogFiles { store }
    }

    /// Copies what was committed into the database file, which has the lines by itself from then on.
    /// If that fails, both files have them together, as before.
    pub fn checkpoint(&mut self) -> Result<(), LogFault>
        // SQLite's log has nothing left that is not in the database file.
        ensures moved { OnOk result (¬ HasSpilled (store_of self.old)
            → log_frames (store_of self.new) ≡ 0) }

        // A crash leaves what it could leave before.
        ensures keeps { (db : Trees) → recovers (store_of self.new) db
            → recovers (store_of self.old) db }
        ensures same { IsTrue (view (store_of self.new)).is_open
            → view (store_of self.new) ≡ view (store_of self.old) }

        // A full disk is told as that, and so is a page that isn't what was written.
        ensures named { IsClean (view (store_of self.new))
            → IfErr result (IsStoreFault (store_of self.old) (store_of self.new)) }
    {
        self.store.checkpoint()?;
        Ok(())
    }
}
