// The test for shared blocks over a lent table of regions: they are gathered into it, put in order there, and neighbours are compared. The plain engine stands beside it. Both
// are for whoever judges regions alone; no call of the library goes through them.

#![tactic(auto)]

ghost use Rattle.std.specs.Prelude.{◌≡◌, List, map, ◌-◌, ◌≤◌, length, take, drop};
ghost use Rattle.rules.specs.RegionTable.{apart_number, table_of, sharing_of};
ghost use Rattle.rules.specs.Lists.{All};
ghost use Rattle.ordering.specs.Regions.{extent_key, extents_in_turn};
ghost use Rattle.ordering.specs.Tables.{key_extent, SmallExtent};
ghost use Rattle.refusals.specs.View.{answer_of};
ghost use Rattle.regions.specs.Gathering.{InTheirOrder};
ghost use Rattle.super_block.specs.View.{SuperGood};
ghost use Rattle.region_table.specs.View.{extent_view, laid, ordered, tabled_view, Prepared, Orderable, TableFilled};
ghost use Rattle.region_table.specs.Entries.{Leads, LeadsTo};

use geometry::Geometry;
use index::Cursor;
use judging::MOST;
use refusals::Refusal;
use units::Block;

// The places of a table of this crate's own.
const PLACES: usize = 4_096;

// A place of a table: the blocks from start up to, not including, end, in either edition.
#[repr(C)]
#[derive(Clone, Copy)]
pub struct Region {
    pub start: Block,
    pub end: Block,
}

// 0 for yes, no two regions share a block, and 7 for no; 18 where the table has too few places; or what the image is refused with before its regions are
// compared. And how many regions now stand in the table.
// Kept: the C interface needs the number and no Result (export regions_in_table of region_table_c; regions_apart and regions_apart_plainly answer it alone).
#[repr(C)]
#[derive(Clone, Copy)]
pub struct TableAnswer {
    pub answer: u32,
    pub regions: usize,
}

// Where the entries of an index begin, if it is sound.
fn first_entry(img: &[u8], g: Geometry, sums: &mut [u8]) -> Option<Cursor>
    requires { SuperGood img.now g × (4_096 ≤ length sums.old) }
    ensures { Leads img.now g sums.new result }
{
    let from = super_block::first_slot(img, g, sums);
    super_block::index_sound(img, sums, g, from).then_some(from)
}

// ---- gathered, as keys: the regions that are to stand in a table of so many places are those of the last keys. How many there are, or why the table is
// left as it was

fn prepare_entries(
    img: &[u8],
    sums: &[u8],
    g: Geometry,
    from: Cursor,
    keys: &mut [u64],
    places: usize,
) -> Result<usize, Refusal>
    requires { SuperGood img.now g × LeadsTo img.now g sums.now from × (length keys.old ≡ 4_094) }
    ensures { Prepared img.now keys.new places result }
{
    let i = regions::gather(img, sums, g, from, keys).ok_or(Refusal::Regions)?;
    let n = keys.len() - i;
    if places < n {
        return Err(Refusal::TooShort);
    }
    Ok(n)
}

// And for any image.
fn prepare(image: &[u8], keys: &mut [u64], places: usize) -> Result<usize, Refusal>
    requires { length keys.old ≡ 4_094 }
    ensures { Prepared image.now keys.new places result }
{
    let g = super_block::judge_super(image)?;
    let mut sums = [0u8; sums::ROOM];
    let from = first_entry(image, g, &mut sums).ok_or(Refusal::Index)?;
    prepare_entries(image, &sums, g, from, keys, places)
}

// ---- one region, and numbers: what the functions over the table call

// The region of a key.
fn region_of(key: u64) -> Region
    ensures { extent_view result ≡ key_extent key }
{
    Region {
        start: regions::key_start(key),
        end: regions::key_end(key),
    }
}

// And the key of a region.
fn key_of_region(r: Region) -> u64
    requires { SmallExtent (extent_view r) }
    ensures { result ≡ extent_key (extent_view r) }
{
    regions::key_at(r.start, r.end)
}

// The last n keys in order.
fn sort_last(keys: &mut [u64], n: usize)
    requires { (length keys.old ≡ 4_094) × (n ≤ 4_094) }
    ensures { InTheirOrder (drop (length keys.old - n) keys.old) (drop (length keys.old - n) keys.new) }
{
    let mut tmp = [0u64; MOST];
    let first = keys.len() - n;
    regions::sort_keys(keys, first, &mut tmp);
}

// ---- the table: a slice of structs

// The first n places of the table become the regions of the last n keys.
fn lay(table: &mut [Region], keys: &[u64], n: usize)
    requires { (n ≤ length table.old) × (n ≤ length keys.now) }
    ensures { map extent_view table.new ≡ laid n keys.now (map extent_view table.old) }
{
    let first = keys.len() - n;
    for (i, &key) in keys[first..].iter().enumerate() {
        table[i] = region_of(key);
    }
}

// The last n keys become those of the regions at the first n places.
fn take_apart(table: &[Region], keys: &mut [u64], n: usize)
    requires { (n ≤ length table.now) × (n ≤ length keys.old) × All SmallExtent (take n (map extent_view table.now)) }
    ensures { drop (length keys.old - n) keys.new ≡ map extent_key (take n (map extent_view table.now)) }
{
    let first = keys.len() - n;
    for (i, &r) in table[..n].iter().enumerate() {
        keys[first + i] = key_of_region(r);
    }
}

// Whether each region at the first n places starts at or past the end of the one before it.
fn neighbours_apart(table: &[Region], n: usize) -> bool
    requires { n ≤ length table.now }
    ensures { result ≡ extents_in_turn 0 (take n (map extent_view table.now)) }
{
    table[..n].is_sorted_by(|a, b| a.end <= b.start)
}

// The regions of an image gathered into the table, if it has places enough: how many.
fn fill(image: &[u8], table: &mut [Region]) -> Result<usize, Refusal>
    ensures { TableFilled image.now (map extent_view table.old) (map extent_view table.new) result }
{
    let mut keys = [0u64; MOST];
    let held = prepare(image, &mut keys, table.len())?;
    lay(table, &keys, held);
    Ok(held)
}

// The regions at the first n places put in order, by start, then end.
fn put_in_order(table: &mut [Region], n: usize)
    requires { Orderable n (map extent_view table.old) }
    ensures { map extent_view table.new ≡ ordered n (map extent_view table.old) }
{
    let mut keys = [0u64; MOST];
    take_apart(table, &mut keys, n);
    sort_last(&mut keys, n);
    lay(table, &keys, n);
}

// The answer once the regions are compared.
fn apart_number(apart: bool) -> u32
    ensures { result ≡ apart_number apart }
{
    if apart {
        0
    } else {
        u32::from(Refusal::Regions)
    }
}

// Whether no two regions of an image share a block, over a lent table: it then holds the regions in order.
pub fn regions_in_table(image: &[u8], table: &mut [Region]) -> TableAnswer
    ensures { tabled_view result (map extent_view table.new) ≡ table_of image.now (map extent_view table.old) }
{
    match fill(image, table) {
        Err(e) => TableAnswer {
            answer: u32::from(e),
            regions: 0,
        },
        Ok(regions) => {
            put_in_order(table, regions);
            let answer = apart_number(neighbours_apart(table, regions));
            TableAnswer { answer, regions }
        }
    }
}

// The same over a table of its own: whoever calls it needs to know of none.
pub fn regions_apart(image: &[u8]) -> u32
    ensures { result ≡ sharing_of image.now }
{
    let none = Block::at(0);
    let mut table = [Region {
        start: none,
        end: none,
    }; PLACES];
    regions_in_table(image, &mut table).answer
}

// ---- the plain engine: each region against every other

// That no two regions of an image share a block, or its refusal.
fn apart_plainly(image: &[u8]) -> Result<(), Refusal>
    ensures { answer_of result ≡ sharing_of image.now }
{
    let g = super_block::judge_super(image)?;
    let mut sums = [0u8; sums::ROOM];
    let from = first_entry(image, g, &mut sums).ok_or(Refusal::Index)?;
    if regions::plainly_sound(image, &sums, g, from) {
        Ok(())
    } else {
        Err(Refusal::Regions)
    }
}

pub fn regions_apart_plainly(image: &[u8]) -> u32
    ensures { result ≡ sharing_of image.now }
{
    refusals::answer(apart_plainly(image))
}
