// What an accepted writing call does first: deleted runs that are left over, and stray slots, become unused slots.

#![tactic(auto)]

ghost use Rattle.std.specs.Prelude.{◌≡◌, true, ◌+◌, ◌-◌, ◌*◌, ◌≤◌, length};
ghost use Rattle.rules.specs.SuperBlock.{Geometry as Sizes};
ghost use Rattle.rules.specs.Index.{slot_at, items_of, index_sound};
ghost use Rattle.rules.specs.Writing.{tidied};
ghost use Rattle.editions.specs.View.{edition_view};
ghost use Rattle.geometry.specs.View.{geometry_view};
ghost use Rattle.index.specs.View.{SumsFrom, items_from};
ghost use Rattle.index.specs.Steps.{Walks};
ghost use Rattle.super_block.specs.View.{Judged};
ghost use Rattle.tidying.specs.Tidied.{spot_tidied};

use geometry::Geometry;
use index::{Ahead, Cursor};
use slots::Spot;

// The slots from a spot up to the cursor behind it, if they are left over.
fn tidy_spot(img: &mut [u8], p: Spot, rest: Cursor)
    requires { (p.slot.0 ≤ rest.slot.0) × (p.at.0 + 64 * (rest.slot.0 - p.slot.0) ≤ length img.old) }
    ensures { img.new ≡ spot_tidied img.old p (rest.slot.0 - p.slot.0) }
{
    if slots::is_stale(p.edition, p.kind) {
        runs::clear_run(img, p.edition, p.at, p.slot.slots_to(rest.slot));
    }
}

// All that is left over from the cursor on. What is written lies before the cursor that the walk goes on from.
fn tidy_from(img: &mut [u8], sums: &[u8], from: Cursor)
    requires { Walks img.old from × SumsFrom img.old sums.now from }
    ensures { (g : Sizes) → edition_view from.edition ≡ g.edition → from.at.0 ≡ slot_at img.old g from.slot.0 → img.new ≡ tidied img.old g (items_from img.old from) }
{
    let mut c = from;
    while 0 < c.left {
        let Ahead { here, rest } = index::further(img, sums, c);
        tidy_spot(img, here, rest);
        c = rest;
    }
}

// All that is left over in an index that was judged sound. Where deleted entries are kept, nothing is.
pub fn tidy(img: &mut [u8], g: Geometry)
    requires { Judged img.old g × (index_sound img.old (geometry_view g) (items_of img.old (geometry_view g)) ≡ true) }
    ensures { img.new ≡ tidied img.old (geometry_view g) (items_of img.old (geometry_view g)) }
{
    if g.edition.keeps_deleted() {
        return;
    }
    let mut sums = [0u8; sums::ROOM];
    let from = super_block::first_slot(img, g, &mut sums);
    tidy_from(img, &sums, from);
}
