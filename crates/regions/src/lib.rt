// Regions: whether each is good, and whether no two share a block.

#![tactic(auto)]

ghost use Rattle.std.specs.Prelude.{◌≡◌, ◌&&◌, List, length, drop, eqb, ℕ, ◌+◌, ◌≤◌, ◌<◌};
ghost use Rattle.rules.specs.Lists.{all, every_two, keep_if};
ghost use Rattle.rules.specs.Editions.{past_end};
ghost use Rattle.rules.specs.Regions.{within_data, file_region_good, region_good, apart, regions_sound};
ghost use Rattle.editions.specs.View.{edition_view};
ghost use Rattle.geometry.specs.View.{geometry_view};
ghost use Rattle.slots.specs.View.{head_view};
ghost use Rattle.index.specs.View.{SumsFrom};
ghost use Rattle.index.specs.Steps.{Walks, entries_from};
ghost use Rattle.ordering.specs.Regions.{extent_key, region_key, has_region, key_start, key_end, in_turn};
ghost use Rattle.ordering.specs.Tables.{SmallExtent};
ghost use Rattle.regions.specs.Bounds.{Bounded};
ghost use Rattle.regions.specs.Gathering.{Gathers, InTheirOrder, Ordered, JudgesRegions};

use editions::Edition;
use geometry::Geometry;
use index::Cursor;
use slots::Head;
use sorting::{PLACES, put_before};
use units::{Block, Offset};

// One block or more, in the data area.
fn within_data(g: Geometry, h: Head) -> bool
    requires { Bounded g }
    ensures { (s : List ℕ) → result ≡ within_data (geometry_view g) (head_view s h) }
{
    g.data_start() <= h.start && !slots::ends_by(h, h.start) && slots::ends_by(h, g.data_end())
}

// An empty file has no region: an end is 0 exactly if it is stored as 0.
fn is_empty(h: Head) -> bool
    ensures { result ≡ (eqb h.start.0 0 && eqb h.end.0 0 && eqb h.length 0) }
{
    h.start.number() == 0 && h.end.number() == 0 && h.length == 0
}

// A file has no region, or its length fits the one that it has. The product is taken once the region is known to lie in the data area.
fn file_region_good(g: Geometry, h: Head) -> bool
    requires { Bounded g }
    ensures { (s : List ℕ) → result ≡ file_region_good (geometry_view g) (head_view s h) }
{
    if is_empty(h) {
        return true;
    }
    if !within_data(g, h) {
        return false;
    }
    let blocks = h.start.blocks_to(slots::past_end(h));
    h.length <= blocks * g.block_length()
}

// Whether the region of an entry is good, at any 64-bit numbers; a directory has none.
fn region_good(g: Geometry, h: Head) -> bool
    requires { Bounded g }
    ensures { (s : List ℕ) → result ≡ region_good (geometry_view g) (head_view s h) }
{
    if slots::is_file(h.kind) {
        return file_region_good(g, h);
    }
    if h.kind == slots::UNUSABLE {
        return within_data(g, h);
    }
    true
}

// Whether two regions share no block.
fn regions_apart(a: Head, b: Head) -> bool
    ensures { (s : List ℕ) → result ≡ apart (head_view s a) (head_view s b) }
{
    slots::ends_by(a, b.start) || slots::ends_by(b, a.start)
}

// ---- regions in order

// Above the end of a region, which is less, a key has its start.
const ENDS: u64 = 131_072;

// The start and the end of a region as one number, with no place below it.
pub fn key_at(start: Block, end: Block) -> u64
    requires { SmallExtent (record { start = start.0; end = end.0 }) }
    ensures { result ≡ extent_key (record { start = start.0; end = end.0 }) }
{
    (start.number() * ENDS + end.number()) * PLACES
}

// The key of an entry's region.
fn key_of(h: Head) -> u64
    requires { (past_end (edition_view h.edition) h.end.0 ≤ 65_536) × (h.start.0 < past_end (edition_view h.edition) h.end.0) }
    ensures { (s : List ℕ) → result ≡ region_key (head_view s h) }
{
    key_at(h.start, slots::past_end(h))
}

// The region of an entry, if it has one, put before place i.
fn put_region(keys: &mut [u64], i: usize, h: Head) -> usize
    requires { (0 < i) × (i ≤ length keys.old) × (past_end (edition_view h.edition) h.end.0 ≤ 65_536) }
    ensures by_index { (s : List ℕ) → drop result keys.new ≡ keep_if (has_region (head_view s h)) (region_key (head_view s h)) (drop i keys.old) }
    ensures place { (result ≤ i) × (i ≤ result + 1) }
{
    if slots::ends_by(h, h.start) {
        return i;
    }
    let key = key_of(h);
    put_before(keys, i, key)
}

// The regions of all entries from the cursor on, gathered from the end of the lent slice on, the last one first: those of an index that creates made
// are in order then. Where they begin, unless one is not good.
pub fn gather(img: &[u8], sums: &[u8], g: Geometry, from: Cursor, keys: &mut [u64]) -> Option<usize>
    requires { Bounded g × Walks img.now from × (from.left ≤ length keys.old) × SumsFrom img.now sums.now from }
    ensures { Gathers img.now g from keys.new result }
{
    let mut c = from;
    let mut i = keys.len();
    while let Some((e, rest)) = index::next_entry(img, sums, c) {
        if !region_good(g, e) {
            return None;
        }
        i = put_region(keys, i, e);
        c = rest;
    }
    Some(i)
}

// The block where the region of a key starts, and the block past it.
pub fn key_start(key: u64) -> Block
    ensures { result.0 ≡ key_start key }
{
    Block::at(key / PLACES / ENDS)
}

pub fn key_end(key: u64) -> Block
    ensures { result.0 ≡ key_end key }
{
    Block::at(key / PLACES % ENDS)
}

// Whether each region starts at or past the end of the one before it.
fn in_turn(keys: &[u64]) -> bool
    ensures { result ≡ in_turn 0 keys.now }
{
    keys.is_sorted_by(|a, b| key_end(*a) <= key_start(*b))
}

// The keys from place i on put in order; tmp is scratch. No key of a region names a path, so that the sort needs no image.
pub fn sort_keys(keys: &mut [u64], i: usize, tmp: &mut [u64])
    requires { (i ≤ length keys.old) × (length keys.old ≤ length tmp.old) }
    ensures { InTheirOrder (drop i keys.old) (drop i keys.new) }
{
    let none = [0u8; 1];
    sorting::sort_from(&none, Edition::First, Offset::at(0), keys, i, tmp);
}

// The regions from place i on put in order by their starts, if they do not stand in turn already; tmp is scratch. Whether they share no block.
fn order(keys: &mut [u64], i: usize, tmp: &mut [u64]) -> bool
    requires { (i ≤ length keys.old) × (length keys.old ≤ length tmp.old) }
    ensures { Ordered (drop i keys.old) (drop i keys.new) result }
{
    if in_turn(&keys[i..]) {
        return true;
    }
    sort_keys(keys, i, tmp);
    in_turn(&keys[i..])
}

// The regions of the entries from the cursor on, judged: if they are sound, the place in `keys` from which on their keys stand in order; tmp is
// scratch.
pub fn judge_regions(
    img: &[u8],
    sums: &[u8],
    g: Geometry,
    from: Cursor,
    keys: &mut [u64],
    tmp: &mut [u64],
) -> Option<usize>
    requires { Bounded g × Walks img.now from × (from.left ≤ length keys.old) × (length keys.old ≤ length tmp.old) × SumsFrom img.now sums.now from }
    ensures { JudgesRegions img.now g from keys.new result }
{
    let i = gather(img, sums, g, from, keys)?;
    order(keys, i, tmp).then_some(i)
}

// ---- the plain engine: each region against every later one

// Whether every region from the cursor on is good.
fn all_good(img: &[u8], sums: &[u8], g: Geometry, from: Cursor) -> bool
    requires { Bounded g × Walks img.now from × SumsFrom img.now sums.now from }
    ensures { result ≡ all (region_good (geometry_view g)) (entries_from img.now from) }
{
    let mut c = from;
    while let Some((e, rest)) = index::next_entry(img, sums, c) {
        if !region_good(g, e) {
            return false;
        }
        c = rest;
    }
    true
}

// Whether a region shares no block with any from the cursor on.
fn apart_from_rest(img: &[u8], sums: &[u8], h: Head, from: Cursor) -> bool
    requires { Walks img.now from × SumsFrom img.now sums.now from }
    ensures { result ≡ all (apart (head_view img.now h)) (entries_from img.now from) }
{
    let mut c = from;
    while let Some((e, rest)) = index::next_entry(img, sums, c) {
        if !regions_apart(h, e) {
            return false;
        }
        c = rest;
    }
    true
}

// Whether no two regions from the cursor on share a block.
fn all_apart(img: &[u8], sums: &[u8], from: Cursor) -> bool
    requires { Walks img.now from × SumsFrom img.now sums.now from }
    ensures { result ≡ every_two apart (entries_from img.now from) }
{
    let mut c = from;
    while let Some((e, rest)) = index::next_entry(img, sums, c) {
        if !apart_from_rest(img, sums, e, rest) {
            return false;
        }
        c = rest;
    }
    true
}

// Whether the regions of the entries from the cursor on are sound, without scratch.
pub fn plainly_sound(img: &[u8], sums: &[u8], g: Geometry, from: Cursor) -> bool
    requires { Bounded g × Walks img.now from × SumsFrom img.now sums.now from }
    ensures { result ≡ regions_sound (geometry_view g) (entries_from img.now from) }
{
    all_good(img, sums, g, from) && all_apart(img, sums, from)
}
