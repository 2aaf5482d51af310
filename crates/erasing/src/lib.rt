// The two deletes and reclaim. All is judged first; what is to be written is known by value before the first byte is.

#![tactic(auto)]

ghost use Rattle.std.specs.Prelude.{◌≡◌, true, List, ℕ, ◌+◌, ◌*◌, ◌≤◌, length, ℤ};
ghost use Rattle.std.proofs.Math.Option.{some};
ghost use Rattle.rules.specs.Fields.{signed_of};
ghost use Rattle.rules.specs.SuperBlock.{Geometry as Sizes};
ghost use Rattle.rules.specs.Index.{slot_bytes, slot_at, items_of, entries_of};
ghost use Rattle.rules.specs.Index.Items.{faultless};
ghost use Rattle.rules.specs.Paths.{is_deleted, lookup, paths_sound, any_below};
ghost use Rattle.rules.specs.Refusals.{entries};
ghost use Rattle.rules.specs.Writing.{Written, region_cleared, wiped, deleted, delete_keep_of, cleared};
ghost use Rattle.rules.specs.Writing.Laws.{wrote};
ghost use Rattle.contracts.specs.Promises.{Deletes, DeletesKeeping, Reclaims};
ghost use Rattle.editions.specs.View.{edition_view};
ghost use Rattle.geometry.specs.View.{geometry_view};
ghost use Rattle.index.specs.View.{SumsFrom};
ghost use Rattle.index.specs.Steps.{Walks, entries_from};
ghost use Rattle.slots.specs.View.{head_view, HeadIn};
ghost use Rattle.super_block.specs.View.{Judged as GoodSuper};
ghost use Rattle.judging.specs.View.{Opened, volume_of};
ghost use Rattle.refusals.specs.View.{answer_of};
ghost use Rattle.retyping.specs.Planned.{tidy_of, HasRoom, RetypePlanned};
ghost use Rattle.erasing.specs.Least.{least_sizes, SameIndex};
ghost use Rattle.erasing.specs.Delete.{DeletePlanned, RegionHeld, wiped_at};
ghost use Rattle.erasing.specs.Reclaim.{head_cleared, least_written, reclaimed};

use free_runs::Gone;
use geometry::Geometry;
use index::Cursor;
use refusals::Refusal;
use retyping::Retyping;
use slots::Head;
use units::Offset;

// ---- both deletes

// Whether a live entry lies below the path whose live entry was found. Nothing lies below a file.
fn any_below(img: &[u8], sums: &[u8], from: Cursor, path: &[u8], h: Head) -> bool
    requires { Walks img.now from × (paths_sound (entries_from img.now from) ≡ true) × (lookup path.now (entries_from img.now from) ≡ some (head_view img.now h)) × SumsFrom img.now sums.now from }
    ensures { result ≡ any_below path.now (entries_from img.now from) }
{
    if h.kind != slots::DIRECTORY {
        return false;
    }
    paths::any_below(img, sums, from, path)
}

// What a delete comes to before it writes: a refusal, or, in a volume of this geometry, the path's live entry.
fn plan_entry(img: &[u8], g: Geometry, path: &[u8]) -> Result<(Geometry, Head), Refusal>
    requires { Opened img.now g }
    ensures { DeletePlanned img.now path.now result }
{
    if !g.is_writable() {
        return Err(Refusal::Later);
    }
    if !names::path_good(path) {
        return Err(Refusal::Name);
    }
    let mut sums = [0u8; sums::ROOM];
    let from = super_block::first_slot(img, g, &mut sums);
    let h = paths::lookup(img, &sums, from, path).ok_or(Refusal::Absent)?;
    if any_below(img, &sums, from, path, h) {
        return Err(Refusal::NotEmpty);
    }
    Ok((g, h))
}

fn plan_delete(img: &[u8], path: &[u8]) -> Result<(Geometry, Head), Refusal>
    ensures { DeletePlanned img.now path.now result }
{
    let g = judging::judge(img)?;
    plan_entry(img, g, path)
}

// ---- the one that keeps

// The entry that was found: another type, or no entry any more where deleted ones are not kept.
fn plan_found(img: &[u8], g: Geometry, h: Head) -> Retyping
    requires { Opened img.now g × HasRoom img.now g h }
    ensures { (call : ℤ → Written) → ((z : ℤ) → call z ≡ wrote (deleted z (tidy_of img.now g) (volume_of img.now (geometry_view g)) (head_view img.now h))) → RetypePlanned img.now call (Ok result) }
{
    if g.edition.keeps_deleted() {
        return retyping::at_slot(img, g, h.slot, slots::deleted_kind(h.kind));
    }
    retyping::clear_at(img, g, h.slot, h.slots)
}

fn plan_keep(img: &[u8], path: &[u8]) -> Result<Retyping, Refusal>
    ensures { RetypePlanned img.now (delete_keep_of img.now path.now) result }
{
    let (g, h) = plan_delete(img, path)?;
    Ok(plan_found(img, g, h))
}

// `stamp` is the stamp's 64 bits.
pub fn delete_keep(img: &mut [u8], path: &[u8], stamp: u64) -> Result<(), Refusal>
    ensures { DeletesKeeping img.old path.now (signed_of stamp) (answer_of result) img.new }
{
    let plan = plan_keep(img, path)?;
    retyping::put(img, plan, stamp);
    Ok(())
}

// ---- the sizes that are left

// The sizes with the least data area, once these entries are gone.
fn least_sizes(img: &[u8], g: Geometry, gone: Gone, stamp: u64) -> Geometry
    requires { Opened img.now g }
    ensures { geometry_view result ≡ least_sizes gone img.now (geometry_view g) (signed_of stamp) }
{
    let mut sums = [0u8; sums::ROOM];
    let from = super_block::first_slot(img, g, &mut sums);
    let trimmed = g.trim_data(free_runs::last_end(img, &sums, from, gone));
    trimmed.restamp(g, stamp)
}

// ---- the plain delete

// All blocks of an entry's region become zeros.
fn clear_region(img: &mut [u8], g: Geometry, h: Head)
    requires { RegionHeld (length img.old) g h }
    ensures { (s : List ℕ) → img.new ≡ region_cleared img.old (geometry_view g) (head_view s h) }
{
    let len = g.block_length();
    let past = slots::past_end(h);
    copying::write_blocks(img, len, h.start, past, b"");
}

// Zeros for the entry's blocks, these sizes, and unused slots for its run, whose first is at this place.
fn put_wiped(img: &mut [u8], g: Geometry, trimmed: Geometry, h: Head, at: Offset)
    requires { RegionHeld (length img.old) g h × (512 ≤ length img.old) × (at.0 + slot_bytes * h.slots ≤ length img.old) }
    ensures { (s : List ℕ) → img.new ≡ wiped_at img.old (geometry_view g) (geometry_view trimmed) (head_view s h) at.0 }
{
    clear_region(img, g, h);
    super_block::put_sizes(img, trimmed);
    runs::clear_run(img, trimmed.edition, at, h.slots);
}

// All of it, once the image is tidied.
fn write_wiped(img: &mut [u8], g: Geometry, h: Head, stamp: u64)
    requires { Opened img.old g × HasRoom img.old g h × RegionHeld (length img.old) g h }
    ensures { (path : List ℕ) → lookup path (entries (volume_of img.old (geometry_view g))) ≡ some (head_view img.old h) → img.new ≡ wiped path (signed_of stamp) (tidy_of img.old g) (volume_of img.old (geometry_view g)) (head_view img.old h) }
{
    let slot = h.slot;
    let least = least_sizes(img, g, Gone::At(slot), stamp);
    let at = retyping::place_of(img, g, slot);
    tidying::tidy(img, g);
    put_wiped(img, g, least, h, at);
}

// `stamp` is the stamp's 64 bits.
pub fn delete(img: &mut [u8], path: &[u8], stamp: u64) -> Result<(), Refusal>
    ensures { Deletes img.old path.now (signed_of stamp) (answer_of result) img.new }
{
    let (g, h) = plan_delete(img, path)?;
    write_wiped(img, g, h, stamp);
    Ok(())
}

// ---- reclaim

// The run of an entry is cleared if it is deleted.
fn clear_head(img: &mut [u8], h: Head)
    requires { HeadIn img.old h }
    ensures { img.new ≡ head_cleared img.old h }
{
    if slots::is_deleted(h.kind) {
        runs::clear_run(img, h.edition, h.at, h.slots);
    }
}

// Every deleted run from the cursor on is cleared. What is cleared lies before the cursor that the walk goes on from.
fn clear_deleted(img: &mut [u8], sums: &[u8], from: Cursor)
    requires { Walks img.old from × SumsFrom img.old sums.now from }
    ensures { (g : Sizes) → edition_view from.edition ≡ g.edition → from.at.0 ≡ slot_at img.old g from.slot.0 → img.new ≡ cleared is_deleted img.old g (entries_from img.old from) }
{
    let mut c = from;
    while let Some((h, rest)) = index::next_entry(img, sums, c) {
        clear_head(img, h);
        c = rest;
    }
}

// Every deleted run of a sound index is cleared, by this geometry or any with the same index.
fn clear_all(img: &mut [u8], g: Geometry)
    requires { GoodSuper img.old g × (faultless (items_of img.old (geometry_view g)) ≡ true) }
    ensures { (h : Sizes) → SameIndex h (geometry_view g) → img.new ≡ cleared is_deleted img.old h (entries_of (items_of img.old (geometry_view g))) }
{
    let mut sums = [0u8; sums::ROOM];
    let from = super_block::first_slot(img, g, &mut sums);
    clear_deleted(img, &sums, from);
}

// These sizes, then the deleted runs are cleared; where none are kept there is nothing to clear.
fn write_least(img: &mut [u8], g: Geometry, least: Geometry)
    requires { Opened img.old g × SameIndex (geometry_view least) (geometry_view g) }
    ensures { img.new ≡ least_written img.old (geometry_view g) (geometry_view least) }
{
    super_block::put_sizes(img, least);
    if g.edition.keeps_deleted() {
        clear_all(img, g);
    }
}

// All of it, in the image once it is tidied.
fn write_reclaimed(img: &mut [u8], g: Geometry, stamp: u64)
    requires { Opened img.old g }
    ensures { img.new ≡ reclaimed img.old (geometry_view g) (signed_of stamp) }
{
    let least = least_sizes(img, g, Gone::Deleted, stamp);
    tidying::tidy(img, g);
    write_least(img, g, least);
}

// `stamp` is the stamp's 64 bits.
pub fn reclaim(img: &mut [u8], stamp: u64) -> Result<(), Refusal>
    ensures { Reclaims img.old (signed_of stamp) (answer_of result) img.new }
{
    let g = judging::judge(img)?;
    if !g.is_writable() {
        return Err(Refusal::Later);
    }
    write_reclaimed(img, g, stamp);
    Ok(())
}
