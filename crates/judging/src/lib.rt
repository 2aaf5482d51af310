// An image judged, 1 to 8 in their order.

#![tactic(auto)]

ghost use Rattle.std.specs.Prelude.{◌≡◌, true, ◌/◌, ◌≤◌, min, length};
ghost use Rattle.rules.specs.Refusals.{judge, judge_read};
ghost use Rattle.super_block.specs.View.{SuperGood};
ghost use Rattle.judging.specs.View.{judged_view};
ghost use Rattle.judging.specs.Keeping.{Keeps};

use geometry::Geometry;
use refusals::Refusal;

// The most slots between the two ends of an index, and so the most regions or paths that it has.
pub const MOST: usize = 4_094;

// Scratch for so many slots costs little to clear.
pub const FEW: usize = 512;

// Whether an index of this geometry has few slots.
pub fn has_few(g: Geometry) -> bool
    ensures { result ≡ true → g.index_bytes / 64 ≤ 512 }
{
    units::slots_in(g.index_bytes) <= FEW as u64
}

// 6, 7 and 8: three passes over the whole index. The refusal, or the geometry with the place in `keys` from which on the keys of the regions stand in
// order. The paths are judged before the regions, whose keys are to stay in `keys`. Both slices have room for all slots of the index that can hold
// entries.
pub fn judge_index(
    img: &[u8],
    g: Geometry,
    keys: &mut [u64],
    tmp: &mut [u64],
) -> Result<(Geometry, usize), Refusal>
    requires { SuperGood img.now g × (min (g.index_bytes / 64) 4_094 ≤ length keys.old) × (length keys.old ≤ length tmp.old) }
    ensures { Keeps img.now (judge img.now) keys.new result }
{
    let mut sums = [0u8; sums::ROOM];
    let from = super_block::first_slot(img, g, &mut sums);
    if !super_block::index_sound(img, &sums, g, from) {
        return Err(Refusal::Index);
    }
    let paths = path_rules::paths_sound(img, &sums, from, keys, tmp);
    let i = regions::judge_regions(img, &sums, g, from, keys, tmp).ok_or(Refusal::Regions)?;
    if !paths {
        return Err(Refusal::Paths);
    }
    Ok((g, i))
}

// The same with scratch for N slots, and without the keys.
fn judge_with<const N: usize>(img: &[u8], g: Geometry) -> Result<Geometry, Refusal>
    requires { SuperGood img.now g × (min (g.index_bytes / 64) 4_094 ≤ N) × (N ≤ 4_094) }
    ensures { judged_view img.now result ≡ judge img.now }
{
    let mut keys = [0u64; N];
    let mut tmp = [0u64; N];
    let (g, _) = judge_index(img, g, &mut keys, &mut tmp)?;
    Ok(g)
}

// The refusal, or the geometry of an image that opens. An index of few slots is judged with little scratch: in so short a call its clearing counts.
pub fn judge(img: &[u8]) -> Result<Geometry, Refusal>
    ensures { judged_view img.now result ≡ judge img.now }
{
    let g = super_block::judge_super(img)?;
    if has_few(g) {
        judge_with::<FEW>(img, g)
    } else {
        judge_with::<MOST>(img, g)
    }
}

// The longest image that the programs take.
pub const LONGEST: usize = 65_536;

// As the programs judge what they read.
pub fn judge_read(img: &[u8]) -> Result<Geometry, Refusal>
    ensures { judged_view img.now result ≡ judge_read img.now }
{
    if LONGEST < img.len() {
        return Err(Refusal::Length);
    }
    judge(img)
}
