// What a create judges before it writes, and where it puts what it makes.

#![tactic(auto)]

ghost use Rattle.std.specs.Prelude.{◌≡◌, List, ℕ, ◌+◌, ◌*◌, ◌/◌, ◌^◌, ◌≤◌, ◌<◌, min, length, drop};
ghost use Rattle.rules.specs.Fields.{signed_of};
ghost use Rattle.rules.specs.SuperBlock.{grow_index};
ghost use Rattle.rules.specs.SuperBlock.Laws.{GoodGeometry};
ghost use Rattle.rules.specs.Index.{Entry, slot_bytes};
ghost use Rattle.rules.specs.Writing.{grown_place, place_run, place_file};
ghost use Rattle.geometry.specs.View.{geometry_view};
ghost use Rattle.regions.specs.Gathering.{HasRegions};
ghost use Rattle.free_runs.specs.View.{free_view};
ghost use Rattle.super_block.specs.View.{SuperGood};
ghost use Rattle.judging.specs.View.{Opened, volume_of};
ghost use Rattle.judging.specs.Keeping.{KeysOf};
ghost use Rattle.index.specs.View.{SumsFrom};
ghost use Rattle.planning.specs.Places.{place_view, site_from, Begins};
ghost use Rattle.planning.specs.Planned.{Planned, Admitted};
ghost use Rattle.placing.specs.Site.{new_of, site_view};

use geometry::Geometry;
use index::Cursor;
use placing::{New, Site};
use refusals::Refusal;
use units::{Block, Slot};

// ---- a place for the run

// Slot 1 of an index that is n slots larger, if it may grow so in an image of `len` bytes.
fn grown_place(len: u64, g: Geometry, n: u64) -> Option<(Slot, Geometry)>
    requires { GoodGeometry len (geometry_view g) × (n ≤ 6) }
    ensures { place_view result ≡ grown_place len (grow_index (geometry_view g) (slot_bytes * n)) }
{
    let grown = g.grow_index(units::SLOT_BYTES * n);
    if !grown.areas_fit(len) {
        return None;
    }
    Some((Slot::at(1), grown))
}

// The lowest n unused slots of those that an entry of the path may have, else the index grows by them.
fn place_run(
    img: &[u8],
    sums: &[u8],
    g: Geometry,
    from: Cursor,
    path: &[u8],
    n: u64,
) -> Option<(Slot, Geometry)>
    requires { Opened img.now g × Begins img.now g from × (1 ≤ n) × (n ≤ 6) × SumsFrom img.now sums.now from }
    ensures { place_view result ≡ place_run (length img.now) (volume_of img.now (geometry_view g)) path.now n }
{
    match index::lowest_unused(img, sums, places::places_for(img, sums, from, path), n) {
        Some(slot) => Some((slot, g)),
        None => grown_place(img.len() as u64, g, n),
    }
}

// ---- a place for the file

// The lowest k free blocks below the ceiling block of `grown`, the geometry after any growth of the index; no blocks stand at 0. The keys of all
// regions stand in order from place i of `keys` on.
fn place_file(img: &[u8], grown: Geometry, keys: &[u64], i: usize, k: u64) -> Option<Block>
    requires { (grown.block_field ≤ 5) × (grown.index_bytes ≤ length img.now) }
    ensures { (es : List Entry) → HasRegions es (drop i keys.now) → free_view result ≡ place_file (length img.now) (geometry_view grown) es k }
{
    if k == 0 {
        return Some(Block::at(0));
    }
    let ceiling = grown.ceiling(img.len() as u64);
    free_runs::lowest_free(keys, i, k, grown.data_start(), ceiling)
}

// ---- the plan

// All of it at these places: the data area grows only if the blocks pass its end.
fn site_at(
    g: Geometry,
    grown: Geometry,
    slot: Slot,
    slots: u64,
    start: Block,
    blocks: u64,
    stamp: u64,
) -> Site
    requires { start.0 + blocks < 2 ^ 64 }
    ensures { site_view result ≡ site_from (geometry_view g) (geometry_view grown) slot.0 slots start.0 blocks (signed_of stamp) }
{
    let end = start.after(blocks);
    let new = grown.extend_data(end).restamp(g, stamp);
    Site {
        old: g,
        new,
        slot,
        slots,
        start,
        end,
    }
}

// 15 and 16: the places for the run and for the blocks.
fn plan_places(
    img: &[u8],
    sums: &[u8],
    g: Geometry,
    from: Cursor,
    keys: &[u64],
    i: usize,
    new: New,
) -> Result<Site, Refusal>
    requires { Opened img.now g × Begins img.now g from × Admitted img.now g new.path.now × KeysOf img.now g (drop i keys.now) × SumsFrom img.now sums.now from }
    ensures { Planned img.now (new_of new.entry.made) new.entry.path.now (signed_of new.entry.stamp) result }
{
    let bytes = new.made.bytes();
    let slots = slots::run_slots(g.edition, new.made.kind(), new.path.len() as u64);
    let (slot, grown) = place_run(img, sums, g, from, new.path, slots).ok_or(Refusal::NoSlots)?;
    let blocks = free_runs::blocks_needed(g.block_length(), bytes.len() as u64);
    let start = place_file(img, grown, keys, i, blocks).ok_or(Refusal::NoBlocks)?;
    Ok(site_at(g, grown, slot, slots, start, blocks, new.stamp))
}

// 9, 10, 12 and 13: whether the volume may be written, and by this path.
fn plan_opened(img: &[u8], g: Geometry, keys: &[u64], i: usize, new: New) -> Result<Site, Refusal>
    requires { Opened img.now g × KeysOf img.now g (drop i keys.now) }
    ensures { Planned img.now (new_of new.entry.made) new.entry.path.now (signed_of new.entry.stamp) result }
{
    if !g.is_writable() {
        return Err(Refusal::Later);
    }
    if !names::new_path_good(new.path) {
        return Err(Refusal::Name);
    }
    let mut sums = [0u8; sums::ROOM];
    let from = super_block::first_slot(img, g, &mut sums);
    if paths::lookup(img, &sums, from, new.path).is_some() {
        return Err(Refusal::Live);
    }
    if !path_rules::nearest_live(img, &sums, from, new.path) {
        return Err(Refusal::Orphan);
    }
    plan_places(img, &sums, g, from, keys, i, new)
}

// 6 to 8, and then the rest, with scratch for N slots, which keeps the keys of the regions.
fn plan_with<const N: usize>(img: &[u8], g: Geometry, new: New) -> Result<Site, Refusal>
    requires { SuperGood img.now g × (min (g.index_bytes / 64) 4_094 ≤ N) × (N ≤ 4_094) }
    ensures { Planned img.now (new_of new.entry.made) new.entry.path.now (signed_of new.entry.stamp) result }
{
    let mut keys = [0u64; N];
    let mut tmp = [0u64; N];
    let (opened, i) = judging::judge_index(img, g, &mut keys, &mut tmp)?;
    plan_opened(img, opened, &keys, i, new)
}

// All that a create tests, on any image and any arguments: the refusal, or where it puts what it makes. Scratch for few slots costs little to clear.
pub fn plan_create(img: &[u8], new: New) -> Result<Site, Refusal>
    ensures { Planned img.now (new_of new.entry.made) new.entry.path.now (signed_of new.entry.stamp) result }
{
    let g = super_block::judge_super(img)?;
    if judging::has_few(g) {
        return plan_with::<{ judging::FEW }>(img, g, new);
    }
    plan_with::<{ judging::MOST }>(img, g, new)
}
