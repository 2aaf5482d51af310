// The reading calls: open, find, list and read. Each takes any image and any arguments.

#![tactic(auto)]

ghost use Rattle.std.specs.Prelude.{◌≡◌, true, List, [], ℕ, ◌≤◌, length};
ghost use Rattle.rules.specs.Paths.{lookup};
ghost use Rattle.rules.specs.Comparing.{find_looked};
ghost use Rattle.rules.specs.Refusals.{entries};
ghost use Rattle.rules.specs.Outcome.{no_volume, no_entry, none_listed, numbers_of};
ghost use Rattle.rules.specs.Outcome.Laws.{denied};
ghost use Rattle.rules.specs.Reading.{volume_numbers, open_of, find_of, list_of, read_of};
ghost use Rattle.refusals.specs.View.{number_of};
ghost use Rattle.reading.specs.Told.{told_as};
ghost use Rattle.rules.specs.Index.{volume_name, run_type};
ghost use Rattle.rules.specs.Reading.Laws.{list_entry};
ghost use Rattle.contracts.specs.Promises.{OpensVolume, Finds, Lists, Reads, volume_view, volume_answer, entry_view, entry_answer, content_view, listed_view, listed_answer};
ghost use Rattle.editions.specs.View.{edition_view};
ghost use Rattle.geometry.specs.View.{geometry_view};
ghost use Rattle.slots.specs.View.{head_view, HeadIn};
ghost use Rattle.paths.specs.View.{Searched, FoundOf};
ghost use Rattle.judging.specs.View.{Opened, volume_of};
ghost use Rattle.reading.specs.Found.{FileIn, read_entry};
ghost use Rattle.reading.specs.Looked.{LooksUp, PutFront};

use contracts::{Content, Entry, Listed, Volume};
use geometry::Geometry;
use paths::Found;
use refusals::Refusal;
use slots::Head;
use units::Slot;

// All of src at the start of out, if it fits: how many bytes that are.
fn put_front(out: &mut [u8], src: &[u8]) -> Option<usize>
    ensures { PutFront out.old src.now out.new result }
{
    if out.len() < src.len() {
        return None;
    }
    copying::copy_into(out, src);
    Some(src.len())
}

// ---- open

fn no_volume(r: Refusal) -> Volume
    ensures { (s out : List ℕ) → volume_view s out result ≡ denied no_volume s out (number_of r) }
{
    Volume {
        refusal: u32::from(r),
        ..Volume::default()
    }
}

// The numbers of a volume whose name has n bytes.
fn volume_numbers(img: &[u8], g: Geometry, n: usize) -> Volume
    requires { (64 ≤ length img.now) × (g.block_field ≤ 5) × (n ≡ length (volume_name img.now)) }
    ensures { (result.refusal ≡ 0) × (volume_answer result ≡ volume_numbers img.now (geometry_view g)) }
{
    let ed = g.edition;
    Volume {
        refusal: 0,
        version: g.version as u32,
        edition: ed.version() as u32,
        total: g.total,
        reserved: g.reserved as u64,
        block_length: g.block_length(),
        data_blocks: g.data_blocks,
        index_bytes: g.index_bytes,
        stamp: stamps::from_bits(g.stamp),
        volume_stamp: stamps::from_bits(ends::volume_stamp(img)),
        name_length: n as u64,
    }
}

fn open_volume(img: &[u8], out: &mut [u8]) -> Result<Volume, Refusal>
    ensures { told_as volume_view no_volume img.now out.new result ≡ open_of img.now out.old }
{
    let g = judging::judge(img)?;
    let name = ends::volume_name(img);
    let n = put_front(out, name).ok_or(Refusal::TooShort)?;
    Ok(volume_numbers(img, g, n))
}

pub fn open(img: &[u8], out: &mut [u8]) -> Volume
    ensures { OpensVolume img.now out.old result out.new }
{
    // Kept: a match. By unwrap_or_else the clause of the function that it calls is out of the proof's reach.
    match open_volume(img, out) {
        Ok(volume) => volume,
        Err(e) => no_volume(e),
    }
}

// ---- find

// The live entry of the path, and how many bytes of names the search for it looked at.
fn search(img: &[u8], g: Geometry, path: &[u8]) -> Found
    requires { Opened img.now g }
    ensures searched { Searched img.now (lookup path.now (entries (volume_of img.now (geometry_view g)))) result.entry }
    ensures counted { result.looked ≡ find_looked img.now (volume_of img.now (geometry_view g)) path.now }
    ensures edition { FoundOf g.edition result.entry }
{
    let mut sums = [0u8; sums::ROOM];
    let from = super_block::first_slot(img, g, &mut sums);
    paths::find(img, &sums, from, path)
}

// The live entry of a path that is allowed.
fn look_up(img: &[u8], g: Geometry, path: &[u8]) -> Result<Head, Refusal>
    requires { Opened img.now g }
    ensures { LooksUp img.now g path.now result }
{
    if !names::path_good(path) {
        return Err(Refusal::Name);
    }
    search(img, g, path).entry.ok_or(Refusal::Absent)
}

fn no_entry(r: Refusal) -> Entry
    ensures { (s : List ℕ) → entry_view s result ≡ denied no_entry s [] (number_of r) }
{
    Entry {
        refusal: u32::from(r),
        ..Entry::default()
    }
}

// The numbers of an entry that was found, its end as it is stored.
fn entry_numbers(h: Head) -> Entry
    ensures { (result.refusal ≡ 0) × ((s : List ℕ) → entry_answer result ≡ numbers_of (edition_view h.edition) (head_view s h)) }
{
    Entry {
        refusal: 0,
        kind: h.kind as u32,
        slot: h.slot.number(),
        start: h.start.number(),
        end: h.end.number(),
        length: h.length,
        stamp: stamps::from_bits(h.stamp),
    }
}

fn find_entry(img: &[u8], path: &[u8]) -> Result<Entry, Refusal>
    ensures { told_as (λ s _. entry_view s) no_entry img.now [] result ≡ find_of img.now path.now }
{
    let g = judging::judge(img)?;
    let h = look_up(img, g, path)?;
    Ok(entry_numbers(h))
}

pub fn find(img: &[u8], path: &[u8]) -> Entry
    ensures { Finds img.now path.now result }
{
    // Kept: a match. By unwrap_or_else the clause of the function that it calls is out of the proof's reach.
    match find_entry(img, path) {
        Ok(entry) => entry,
        Err(e) => no_entry(e),
    }
}

// ---- read

fn no_content(r: Refusal) -> Content
    ensures { (s out : List ℕ) → content_view s out result ≡ denied 0 s out (number_of r) }
{
    Content {
        refusal: u32::from(r),
        length: 0,
    }
}

// The bytes of a file, at the start of out.
fn read_file(img: &[u8], g: Geometry, h: Head, out: &mut [u8]) -> Result<Content, Refusal>
    requires { Opened img.now g × FileIn img.now g h }
    ensures { told_as content_view 0 img.now out.new result ≡ read_entry img.now (geometry_view g) (head_view img.now h) out.old }
{
    if h.kind != slots::FILE {
        return Err(Refusal::NotAFile);
    }
    let n = h.length;
    if (out.len() as u64) < n {
        return Err(Refusal::TooShort);
    }
    let at = h.start.offset(g.block_length());
    copying::copy_out(out, img, at, n as usize);
    Ok(Content {
        refusal: 0,
        length: n,
    })
}

fn read_entry(img: &[u8], path: &[u8], out: &mut [u8]) -> Result<Content, Refusal>
    ensures { told_as content_view 0 img.now out.new result ≡ read_of img.now path.now out.old }
{
    let g = judging::judge(img)?;
    let h = look_up(img, g, path)?;
    read_file(img, g, h, out)
}

pub fn read(img: &[u8], path: &[u8], out: &mut [u8]) -> Content
    ensures { Reads img.now path.now out.old result out.new }
{
    // Kept: a match. By unwrap_or_else the clause of the function that it calls is out of the proof's reach.
    match read_entry(img, path, out) {
        Ok(content) => content,
        Err(e) => no_content(e),
    }
}

// ---- list

fn none_listed(r: Refusal) -> Listed
    ensures { (s out : List ℕ) → listed_view s out result ≡ denied none_listed s out (number_of r) }
{
    Listed {
        refusal: u32::from(r),
        ..Listed::default()
    }
}

fn listed_numbers(h: Head, n: usize) -> Listed
    ensures { (result.refusal ≡ 0) × ((s : List ℕ) → listed_answer result ≡ record { found = numbers_of (edition_view h.edition) (head_view s h); path_length = n }) }
{
    let e = entry_numbers(h);
    Listed {
        refusal: e.refusal,
        kind: e.kind,
        slot: e.slot,
        start: e.start,
        end: e.end,
        length: e.length,
        stamp: e.stamp,
        path_length: n as u64,
    }
}

// The entry's numbers, and its path at the start of out.
fn list_entry(img: &[u8], h: Head, out: &mut [u8]) -> Result<Listed, Refusal>
    requires { HeadIn img.now h × (run_type h.kind ≡ true) }
    ensures { told_as listed_view none_listed img.now out.new result ≡ list_entry (edition_view h.edition) img.now (head_view img.now h) out.old }
{
    let path = slots::path_of(img, h);
    let n = put_front(out, path).ok_or(Refusal::TooShort)?;
    Ok(listed_numbers(h, n))
}

// Where no entry is left, all numbers are 0, and that is no refusal.
fn list_from(img: &[u8], slot: Slot, out: &mut [u8]) -> Result<Listed, Refusal>
    ensures { told_as listed_view none_listed img.now out.new result ≡ list_of img.now slot.0 out.old }
{
    let g = judging::judge(img)?;
    let mut sums = [0u8; sums::ROOM];
    let from = super_block::first_slot(img, g, &mut sums);
    let Some((h, _)) = paths::next_live(img, &sums, from, slot) else {
        return Ok(Listed::default());
    };
    list_entry(img, h, out)
}

pub fn list(img: &[u8], slot: u64, out: &mut [u8]) -> Listed
    ensures { Lists img.now slot out.old result out.new }
{
    // Kept: a match. By unwrap_or_else the clause of the function that it calls is out of the proof's reach.
    match list_from(img, Slot::at(slot), out) {
        Ok(listed) => listed,
        Err(e) => none_listed(e),
    }
}
