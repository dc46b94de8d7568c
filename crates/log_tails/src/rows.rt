//! The last row that a database file has.
ghost use Rattle.std.specs.Prelude.{◌≡◌, ◌<◌, ◌≤◌, drop, length, IfOk, IfSome, IsFalse, IsTrue, MatchOption};
ghost use Rattle.sqlite_wal.specs.PageSize.{size_in_file};
ghost use Rattle.sqlite_wal.specs.Reads.{IsClean, OnlyReads};
ghost use Rattle.log_tails.specs.Rows.{
  is_page_size,
  IsNumber,
  has_page,
  page_of,
  number_in,
  last_in,
  last_under,
  last_row_in,
};

use sqlite_disk::Disk;
use sqlite_format::bytes::{get_u16, get_u32};
use sqlite_format::varint;
use sqlite_wal::Error;
use std::alloc::Global;
use std::io;

/// The length of a database file's header.
const HEADER: usize = 100;

/// Where it has the size of a page, 1 for 65536, which two bytes can't hold.
const PAGE_SIZE: usize = 16;

/// The root of the first table that is made in a database.
const ROOT: u32 = 2;

/// How many pages a cursor of sqlite3 goes down.
const DEEPEST: usize = 20;

/// The first byte of an interior page of a table.
const INTERIOR: u8 = 5;

/// The first byte of a leaf of a table.
const LEAF: u8 = 13;

/// Where a page has the number of its cells.
const CELL_COUNT: usize = 3;

/// Where a leaf's cell pointers begin, two bytes for each.
const POINTERS: usize = 8;

/// Where an interior page has the number of its right-most child.
const RIGHT_CHILD: usize = 8;

/// Returns the number of the last row of the table whose root is page 2, as the database file alone
/// has it, without its log. Nothing is written.
///
/// `None` if the file has no page 2, page 2 isn't a table's, a page on the way down isn't all in the
/// file, the table has no row, or the number isn't above 0. An error comes if a call of the disk
/// fails, or if memory runs out.
pub fn last_row<D: Disk>(alloc: Global, db: &mut D) -> Result<Option<u64>, Error>
    requires { IsTrue (D.Disk.is_usable db.old) }
    ensures last { IfOk result (λ number. IsClean D.Disk db.new
        → number ≡ last_row_in (D.Disk.seen db.old)) }
    ensures number { IfOk result (λ number. IfSome number IsNumber) }
    ensures same { OnlyReads D.Disk db.old db.new }
{
    let len = db.len()?;
    if len < HEADER {
        return Ok(None);
    }
    let mut head = [0; HEADER];
    db.read_at(0, &mut head)?;
    let Some(size) = stated_size(&head) else {
        return Ok(None);
    };
    let mut page = vec![in alloc; 0; size]?;
    Ok(last_below_root(db, len, &mut page)?)
}

/// Returns the size of a page that a file's header states, if a page can have it.
fn stated_size(head: &[u8]) -> Option<usize>
    requires { 18 ≤ length head.now }
    ensures size { MatchOption result (IsFalse (is_page_size (size_in_file head.now)))
        (λ size. (size ≡ size_in_file head.now) × IsTrue (is_page_size size)) }
    ensures fits { IfSome result (λ size. (512 ≤ size) × (size ≤ 65536)) }
{
    let stated = get_u16(head, PAGE_SIZE);
    let size = if stated == 1 { 65536 } else { stated };
    if size < 512 || size & (size - 1) != 0 {
        return None;
    }
    Some(size)
}

/// Returns the number of the last row of the table, from its root down the right-most children. Each
/// page is read into `page`, whose length is the size of a page.
fn last_below_root<D: Disk>(db: &mut D, len: usize, page: &mut [u8]) -> io::Result<Option<u64>>
    requires usable { IsTrue (D.Disk.is_usable db.old) }
    requires len { IsClean D.Disk db.old → len ≡ length (D.Disk.seen db.old) }
    requires size { (512 ≤ length page.old) × (length page.old ≤ 65536) }
    ensures last { IfOk result (λ number. IsClean D.Disk db.new
        → number ≡ last_under 20 (length page.old) (D.Disk.seen db.old) 2) }
    ensures number { IfOk result (λ number. IfSome number IsNumber) }
    ensures same { OnlyReads D.Disk db.old db.new }
{
    let mut number = ROOT;
    for _ in 0..DEEPEST {
        if !read_page(db, len, number, page)? {
            return Ok(None);
        }
        if page[0] != INTERIOR {
            return Ok(last_of(page));
        }
        number = get_u32(page, RIGHT_CHILD);
    }
    Ok(None)
}

/// Reads a page, and returns whether all of it is in the file.
fn read_page<D: Disk>(db: &mut D, len: usize, number: u32, page: &mut [u8]) -> io::Result<bool>
    requires usable { IsTrue (D.Disk.is_usable db.old) }
    requires len { IsClean D.Disk db.old → len ≡ length (D.Disk.seen db.old) }
    requires size { (0 < length page.old) × (length page.old ≤ 65536) }
    ensures found { IfOk result (λ found. IsClean D.Disk db.new
        → found ≡ has_page (length page.old) (D.Disk.seen db.old) number) }
    ensures read { IfOk result (λ found. IsClean D.Disk db.new → IsTrue found
        → page.new ≡ page_of (length page.old) (D.Disk.seen db.old) number) }
    ensures same { OnlyReads D.Disk db.old db.new }
{
    let (number, size) = (number as usize, page.len());
    if number == 0 || number * size > len {
        return Ok(false);
    }
    db.read_at((number - 1) * size, page)?;
    Ok(true)
}

/// Returns the number of the last row in a page, if that is a leaf of a table and has rows.
fn last_of(page: &[u8]) -> Option<u64>
    requires { 8 ≤ length page.now }
    ensures last { result ≡ last_in page.now }
    ensures number { IfSome result IsNumber }
{
    let count = get_u16(page, CELL_COUNT);
    if page[0] != LEAF || count == 0 || page.len() < POINTERS + 2 * count {
        return None;
    }
    number_at(page, get_u16(page, POINTERS + 2 * (count - 1)))
}

/// Returns the number of the row that begins there: after the varint of its length comes its own.
fn number_at(page: &[u8], at: usize) -> Option<u64>
    ensures row { result ≡ number_in (drop at page.now) }
    ensures number { IfSome result IsNumber }
{
    let (_, len) = varint::get_at(page, at)?;
    let (number, _) = varint::get_at(page, at + len)?;
    if number == 0 || number >= 1 << 63 {
        return None;
    }
    Some(number)
}
