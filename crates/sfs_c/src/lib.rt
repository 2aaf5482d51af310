// The library's calls for C, as include/sfs.h declares them: each calls the function of that name in crates/sfs, and states its clause again.

#![tactic(auto)]

ghost use Rattle.contracts.specs.Promises.{TellsApi, Formats, OpensVolume, Finds, Lists, ListsAll, Reads, CreatesFile, CreatesDirectory, Deletes, DeletesKeeping, Restores, Reclaims, WritesListing, CountsImage, WritesReport};

use contracts::{Content, Entry, Listed, Records, Volume};

#[unsafe(no_mangle)]
pub extern "C" fn sfs_api() -> u32
    ensures { TellsApi result }
{
    sfs::sfs_api()
}

#[unsafe(no_mangle)]
pub extern "C" fn sfs_format(
    image: &mut [u8],
    version: u64,
    bytes_per_block: u64,
    reserved: u64,
    name: &[u8],
    stamp: i64,
) -> u32
    ensures { Formats image.old version bytes_per_block reserved name.now stamp result image.new }
{
    sfs::sfs_format(image, version, bytes_per_block, reserved, name, stamp)
}

#[unsafe(no_mangle)]
pub extern "C" fn sfs_open(image: &[u8], out: &mut [u8]) -> Volume
    ensures { OpensVolume image.now out.old result out.new }
{
    sfs::sfs_open(image, out)
}

#[unsafe(no_mangle)]
pub extern "C" fn sfs_find(image: &[u8], path: &[u8]) -> Entry
    ensures { Finds image.now path.now result }
{
    sfs::sfs_find(image, path)
}

#[unsafe(no_mangle)]
pub extern "C" fn sfs_list(image: &[u8], slot: u64, out: &mut [u8]) -> Listed
    ensures { Lists image.now slot out.old result out.new }
{
    sfs::sfs_list(image, slot, out)
}

#[unsafe(no_mangle)]
pub extern "C" fn sfs_list_all(image: &[u8], slot: u64, out: &mut [u8]) -> Records
    ensures { ListsAll image.now slot out.old result out.new }
{
    sfs::sfs_list_all(image, slot, out)
}

#[unsafe(no_mangle)]
pub extern "C" fn sfs_read(image: &[u8], path: &[u8], out: &mut [u8]) -> Content
    ensures { Reads image.now path.now out.old result out.new }
{
    sfs::sfs_read(image, path, out)
}

#[unsafe(no_mangle)]
pub extern "C" fn sfs_create_file(image: &mut [u8], path: &[u8], bytes: &[u8], stamp: i64) -> u32
    ensures { CreatesFile image.old path.now bytes.now stamp result image.new }
{
    sfs::sfs_create_file(image, path, bytes, stamp)
}

#[unsafe(no_mangle)]
pub extern "C" fn sfs_create_directory(image: &mut [u8], path: &[u8], stamp: i64) -> u32
    ensures { CreatesDirectory image.old path.now stamp result image.new }
{
    sfs::sfs_create_directory(image, path, stamp)
}

#[unsafe(no_mangle)]
pub extern "C" fn sfs_delete(image: &mut [u8], path: &[u8], stamp: i64) -> u32
    ensures { Deletes image.old path.now stamp result image.new }
{
    sfs::sfs_delete(image, path, stamp)
}

#[unsafe(no_mangle)]
pub extern "C" fn sfs_delete_keep(image: &mut [u8], path: &[u8], stamp: i64) -> u32
    ensures { DeletesKeeping image.old path.now stamp result image.new }
{
    sfs::sfs_delete_keep(image, path, stamp)
}

#[unsafe(no_mangle)]
pub extern "C" fn sfs_restore(image: &mut [u8], path: &[u8], stamp: i64) -> u32
    ensures { Restores image.old path.now stamp result image.new }
{
    sfs::sfs_restore(image, path, stamp)
}

#[unsafe(no_mangle)]
pub extern "C" fn sfs_reclaim(image: &mut [u8], stamp: i64) -> u32
    ensures { Reclaims image.old stamp result image.new }
{
    sfs::sfs_reclaim(image, stamp)
}

#[unsafe(no_mangle)]
pub extern "C" fn sfs_listing(image: &[u8], out: &mut [u8]) -> Content
    ensures { WritesListing image.now out.old result out.new }
{
    sfs::sfs_listing(image, out)
}

#[unsafe(no_mangle)]
pub extern "C" fn sfs_report_add(image: &[u8], report: &mut [u64]) -> u32
    ensures { CountsImage image.now report.old result report.new }
{
    sfs::sfs_report_add(image, report)
}

#[unsafe(no_mangle)]
pub extern "C" fn sfs_report_text(report: &[u64], out: &mut [u8]) -> Content
    ensures { WritesReport report.now out.old result out.new }
{
    sfs::sfs_report_text(report, out)
}
