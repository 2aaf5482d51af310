// An entry of another type, or of none any more: what a delete that keeps and a restore plan, and the one place that writes it.

#![tactic(auto)]

ghost use Rattle.std.specs.Prelude.{◌≡◌, ◌+◌, ◌*◌, ◌≤◌, length, ℤ};
ghost use Rattle.rules.specs.Fields.{splice, signed_of};
ghost use Rattle.rules.specs.Index.{slot_bytes, slot_at, unused_bytes, retyped};
ghost use Rattle.rules.specs.Writing.{Written};
ghost use Rattle.rules.specs.Writing.Laws.{wrote};
ghost use Rattle.contracts.specs.Promises.{written_as};
ghost use Rattle.editions.specs.View.{edition_view};
ghost use Rattle.geometry.specs.View.{geometry_view};
ghost use Rattle.judging.specs.View.{Opened};
ghost use Rattle.retyping.specs.Planned.{tidy_of, Fits, RetypePlanned};

use geometry::Geometry;
use units::{Offset, Slot};

// What a call comes to that is not refused: in a volume of this geometry, the place of an entry's first slot and its new type, or its slots if they
// become unused.
#[derive(Clone, Copy)]
pub enum Retyping {
    Retype(Geometry, Offset, u8),
    Clear(Geometry, Offset, u64),
}

// The place of a slot.
pub fn place_of(img: &[u8], g: Geometry, slot: Slot) -> Offset
    requires { Opened img.now g × (slot_at img.now (geometry_view g) slot.0 + slot_bytes ≤ length img.now) }
    ensures { result.0 ≡ slot_at img.now (geometry_view g) slot.0 }
{
    let start = units::index_start(img.len() as u64, g.index_bytes);
    slot.offset(start)
}

// The entry whose first slot is this one, with its new type.
pub fn at_slot(img: &[u8], g: Geometry, slot: Slot, kind: u8) -> Retyping
    requires { Opened img.now g × (slot_at img.now (geometry_view g) slot.0 + slot_bytes ≤ length img.now) }
    ensures { (call : ℤ → Written) → ((z : ℤ) → call z ≡ wrote (retyped (edition_view g.edition) (tidy_of img.now g) (slot_at (tidy_of img.now g) (geometry_view g) slot.0) kind z)) → RetypePlanned img.now call (Ok result) }
{
    let at = place_of(img, g, slot);
    Retyping::Retype(g, at, kind)
}

// The entry of so many slots from this one on, which become unused.
pub fn clear_at(img: &[u8], g: Geometry, slot: Slot, slots: u64) -> Retyping
    requires { Opened img.now g × (1 ≤ slots) × (slot_at img.now (geometry_view g) slot.0 + slot_bytes * slots ≤ length img.now) }
    ensures { (call : ℤ → Written) → ((z : ℤ) → call z ≡ wrote (splice (tidy_of img.now g) (slot_at (tidy_of img.now g) (geometry_view g) slot.0) (unused_bytes (edition_view g.edition) slots))) → RetypePlanned img.now call (Ok result) }
{
    let at = place_of(img, g, slot);
    Retyping::Clear(g, at, slots)
}

// The image is tidied and the entry changed; `stamp` is the stamp's 64 bits.
pub fn put(img: &mut [u8], plan: Retyping, stamp: u64)
    requires { Fits img.old plan }
    ensures { (call : ℤ → Written) → RetypePlanned img.old call (Ok plan) → written_as 0 img.new ≡ call (signed_of stamp) }
{
    match plan {
        Retyping::Retype(g, at, kind) => {
            tidying::tidy(img, g);
            runs::retype(img, g.edition, at, kind, stamp);
        }
        Retyping::Clear(g, at, slots) => {
            tidying::tidy(img, g);
            runs::clear_run(img, g.edition, at, slots);
        }
    }
}
