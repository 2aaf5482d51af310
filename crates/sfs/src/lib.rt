// The calls, thin: include/sfs.h documents them, crates/sfs_c exports them to C, and what each promises is named in crates/contracts/specs/Promises.antt.

#![tactic(auto)]

ghost use Rattle.std.specs.Prelude.{◌≡◌};
ghost use Rattle.contracts.specs.Promises.{TellsApi, Formats, OpensVolume, Finds, Lists, ListsAll, Reads, CreatesFile, CreatesDirectory, Deletes, DeletesKeeping, Restores, Reclaims, WritesListing, CountsImage, WritesReport};

use contracts::{Content, Entry, Listed, Records, Volume};
use placing::{Made, New};
use refusals::Refusal;

// The number of the interface, raised whenever a struct, an argument or what a call does changes.
const API: u32 = 2;

pub fn sfs_api() -> u32
    ensures { TellsApi result }
{
    API
}

pub fn sfs_format(
    image: &mut [u8],
    version: u64,
    bytes_per_block: u64,
    reserved: u64,
    name: &[u8],
    stamp: i64,
) -> u32
    ensures { Formats image.old version bytes_per_block reserved name.now stamp result image.new }
{
    refusals::answer(formatting::format(
        image,
        version,
        bytes_per_block,
        reserved,
        name,
        stamps::to_bits(stamp),
    ))
}

pub fn sfs_open(image: &[u8], out: &mut [u8]) -> Volume
    ensures { OpensVolume image.now out.old result out.new }
{
    reading::open(image, out)
}

pub fn sfs_find(image: &[u8], path: &[u8]) -> Entry
    ensures { Finds image.now path.now result }
{
    reading::find(image, path)
}

pub fn sfs_list(image: &[u8], slot: u64, out: &mut [u8]) -> Listed
    ensures { Lists image.now slot out.old result out.new }
{
    reading::list(image, slot, out)
}

pub fn sfs_list_all(image: &[u8], slot: u64, out: &mut [u8]) -> Records
    ensures { ListsAll image.now slot out.old result out.new }
{
    records::list_all(image, slot, out)
}

pub fn sfs_read(image: &[u8], path: &[u8], out: &mut [u8]) -> Content
    ensures { Reads image.now path.now out.old result out.new }
{
    reading::read(image, path, out)
}

pub fn sfs_create_file(image: &mut [u8], path: &[u8], bytes: &[u8], stamp: i64) -> u32
    ensures { CreatesFile image.old path.now bytes.now stamp result image.new }
{
    let new = New {
        made: Made::File(bytes),
        path,
        stamp: stamps::to_bits(stamp),
    };
    refusals::answer(creating::create(image, new))
}

pub fn sfs_create_directory(image: &mut [u8], path: &[u8], stamp: i64) -> u32
    ensures { CreatesDirectory image.old path.now stamp result image.new }
{
    let new = New {
        made: Made::Directory,
        path,
        stamp: stamps::to_bits(stamp),
    };
    refusals::answer(creating::create(image, new))
}

pub fn sfs_delete(image: &mut [u8], path: &[u8], stamp: i64) -> u32
    ensures { Deletes image.old path.now stamp result image.new }
{
    refusals::answer(erasing::delete(image, path, stamps::to_bits(stamp)))
}

pub fn sfs_delete_keep(image: &mut [u8], path: &[u8], stamp: i64) -> u32
    ensures { DeletesKeeping image.old path.now stamp result image.new }
{
    refusals::answer(erasing::delete_keep(image, path, stamps::to_bits(stamp)))
}

pub fn sfs_restore(image: &mut [u8], path: &[u8], stamp: i64) -> u32
    ensures { Restores image.old path.now stamp result image.new }
{
    refusals::answer(restoring::restore(image, path, stamps::to_bits(stamp)))
}

pub fn sfs_reclaim(image: &mut [u8], stamp: i64) -> u32
    ensures { Reclaims image.old stamp result image.new }
{
    refusals::answer(erasing::reclaim(image, stamps::to_bits(stamp)))
}

// ---- texts

fn too_short() -> Content
    ensures { (result.refusal ≡ 18) × (result.length ≡ 0) }
{
    Content {
        refusal: u32::from(Refusal::TooShort),
        ..Content::default()
    }
}

fn written(n: usize) -> Content
    ensures { (result.refusal ≡ 0) × (result.length ≡ n) }
{
    Content {
        length: n as u64,
        ..Content::default()
    }
}

// The listing program's text, in an output that any text fits.
pub fn sfs_listing(image: &[u8], out: &mut [u8]) -> Content
    ensures { WritesListing image.now out.old result out.new }
{
    if out.len() < listing::ROOM {
        return too_short();
    }
    let n = listing::listing(image, out);
    written(n)
}

// Counts an image in a report.
pub fn sfs_report_add(image: &[u8], report: &mut [u64]) -> u32
    ensures { CountsImage image.now report.old result report.new }
{
    report::count_image(image, report)
}

// The text of a report, in an output that any text fits.
pub fn sfs_report_text(report: &[u64], out: &mut [u8]) -> Content
    ensures { WritesReport report.now out.old result out.new }
{
    if report.len() < report::NUMBERS || out.len() < report::ROOM {
        return too_short();
    }
    let n = report::put_numbers(report, out);
    written(n)
}
