// The call restore. All is judged first; what is to be written is known by value before the first byte is.

#![tactic(auto)]

ghost use Rattle.rules.specs.Fields.{signed_of};
ghost use Rattle.rules.specs.Writing.{restore_of};
ghost use Rattle.contracts.specs.Promises.{Restores};
ghost use Rattle.judging.specs.View.{Opened};
ghost use Rattle.refusals.specs.View.{answer_of};
ghost use Rattle.retyping.specs.Planned.{RetypePlanned};
ghost use Rattle.index.specs.View.{SumsFrom};
ghost use Rattle.restoring.specs.Met.{Met};

use geometry::Geometry;
use index::Cursor;
use refusals::Refusal;
use retyping::Retyping;
use slots::Head;

// 12, 13 and 19: the path is not live, its directory is, and no deleted entry behind the first has the path.
fn plan_first(
    img: &[u8],
    sums: &[u8],
    g: Geometry,
    from: Cursor,
    path: &[u8],
    h: Head,
    rest: Cursor,
) -> Result<Retyping, Refusal>
    requires { Met img.now path.now g from h rest × SumsFrom img.now sums.now from × SumsFrom img.now sums.now rest }
    ensures { RetypePlanned img.now (restore_of img.now path.now) result }
{
    if paths::lookup(img, sums, from, path).is_some() {
        return Err(Refusal::Live);
    }
    if !path_rules::nearest_live(img, sums, from, path) {
        return Err(Refusal::Orphan);
    }
    if paths::any_deleted(img, sums, rest, path) {
        return Err(Refusal::Repeated);
    }
    Ok(retyping::at_slot(img, g, h.slot, slots::live_kind(h.kind)))
}

// 9, 10 and 11: what may be written, by which path, and a deleted entry that has it.
fn plan_entry(img: &[u8], g: Geometry, path: &[u8]) -> Result<Retyping, Refusal>
    requires { Opened img.now g }
    ensures { RetypePlanned img.now (restore_of img.now path.now) result }
{
    if !g.is_writable() {
        return Err(Refusal::Later);
    }
    if !names::path_good(path) {
        return Err(Refusal::Name);
    }
    let mut sums = [0u8; sums::ROOM];
    let from = super_block::first_slot(img, g, &mut sums);
    let (h, rest) = paths::first_deleted(img, &sums, from, path).ok_or(Refusal::Absent)?;
    plan_first(img, &sums, g, from, path, h, rest)
}

fn plan_restore(img: &[u8], path: &[u8]) -> Result<Retyping, Refusal>
    ensures { RetypePlanned img.now (restore_of img.now path.now) result }
{
    let g = judging::judge(img)?;
    plan_entry(img, g, path)
}

// `stamp` is the stamp's 64 bits.
pub fn restore(img: &mut [u8], path: &[u8], stamp: u64) -> Result<(), Refusal>
    ensures { Restores img.old path.now (signed_of stamp) (answer_of result) img.new }
{
    let plan = plan_restore(img, path)?;
    retyping::put(img, plan, stamp);
    Ok(())
}
