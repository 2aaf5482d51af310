// The calls of sfs, which the exports for C pass on, as steps of a run: that each call's own contract says so is what ties demand 3 to the code. See specs/Runs.antt.

#![tactic(auto)]

ghost use Rattle.rules.specs.Lists.{All};
ghost use Rattle.rules.specs.Writing.{new_file, new_directory};
ghost use Rattle.rules.specs.History.{History, Holds, format, open_volume, find, list, list_all, read, create, delete, delete_keep, restore, reclaim};
ghost use Rattle.contracts.specs.Promises.{WritesListing};
ghost use Rattle.demand3.specs.Runs.{Answered, passed_as, BytesBack, ListingCounts};

use contracts::{Content, Entry, Listed, Records, Volume};

pub fn serve_format(
    image: &mut [u8],
    version: u64,
    bytes_per_block: u64,
    reserved: u64,
    name: &[u8],
    stamp: i64,
) -> u32
    ensures { Answered image.old (format version bytes_per_block reserved name.now stamp) (passed_as result image.new) }
{
    sfs::sfs_format(image, version, bytes_per_block, reserved, name, stamp)
}

pub fn serve_open(image: &[u8], out: &mut [u8]) -> Volume
    ensures { Answered image.now (open_volume out.old) (passed_as result.refusal image.now) }
{
    sfs::sfs_open(image, out)
}

pub fn serve_find(image: &[u8], path: &[u8]) -> Entry
    ensures { Answered image.now (find path.now) (passed_as result.refusal image.now) }
{
    sfs::sfs_find(image, path)
}

pub fn serve_list(image: &[u8], slot: u64, out: &mut [u8]) -> Listed
    ensures { Answered image.now (list slot out.old) (passed_as result.refusal image.now) }
{
    sfs::sfs_list(image, slot, out)
}

pub fn serve_list_all(image: &[u8], slot: u64, out: &mut [u8]) -> Records
    ensures { Answered image.now (list_all slot out.old) (passed_as result.refusal image.now) }
{
    sfs::sfs_list_all(image, slot, out)
}

// A step, and a live file of the image's history comes back.
pub fn serve_read(image: &[u8], path: &[u8], out: &mut [u8]) -> Content
    ensures answered { Answered image.now (read path.now out.old) (passed_as result.refusal image.now) }
    ensures back { (h : History) → Holds image.now h → All (λ k. BytesBack k path.now out.old result out.new) h.kept }
{
    sfs::sfs_read(image, path, out)
}

pub fn serve_create_file(image: &mut [u8], path: &[u8], bytes: &[u8], stamp: i64) -> u32
    ensures { Answered image.old (create (new_file bytes.now) path.now stamp) (passed_as result image.new) }
{
    sfs::sfs_create_file(image, path, bytes, stamp)
}

pub fn serve_create_directory(image: &mut [u8], path: &[u8], stamp: i64) -> u32
    ensures { Answered image.old (create new_directory path.now stamp) (passed_as result image.new) }
{
    sfs::sfs_create_directory(image, path, stamp)
}

pub fn serve_delete(image: &mut [u8], path: &[u8], stamp: i64) -> u32
    ensures { Answered image.old (delete path.now stamp) (passed_as result image.new) }
{
    sfs::sfs_delete(image, path, stamp)
}

pub fn serve_delete_keep(image: &mut [u8], path: &[u8], stamp: i64) -> u32
    ensures { Answered image.old (delete_keep path.now stamp) (passed_as result image.new) }
{
    sfs::sfs_delete_keep(image, path, stamp)
}

pub fn serve_restore(image: &mut [u8], path: &[u8], stamp: i64) -> u32
    ensures { Answered image.old (restore path.now stamp) (passed_as result image.new) }
{
    sfs::sfs_restore(image, path, stamp)
}

pub fn serve_reclaim(image: &mut [u8], stamp: i64) -> u32
    ensures { Answered image.old (reclaim stamp) (passed_as result image.new) }
{
    sfs::sfs_reclaim(image, stamp)
}

// The listing is no call of the history, but its counts are the history's.
pub fn serve_listing(image: &[u8], out: &mut [u8]) -> Content
    ensures writes_listing { WritesListing image.now out.old result out.new }
    ensures counts { (h : History) → Holds image.now h → ListingCounts h image.now out.old result out.new }
{
    sfs::sfs_listing(image, out)
}
