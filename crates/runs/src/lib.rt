// Runs and slots of the index area, written: a head and its name with the sum over them, another type, unused slots and the start marker.

#![tactic(auto)]

ghost use Rattle.std.specs.Prelude.{◌≡◌, [], ◌∷◌, ◌++◌, ◌+◌, ◌-◌, ◌*◌, ◌^◌, ◌≤◌, ◌<◌, length, replicate};
ghost use Rattle.rules.specs.Lists.{pick, part};
ghost use Rattle.rules.specs.Fields.{splice, le_bytes, signed_of, stamp_bytes};
ghost use Rattle.rules.specs.Editions.{sum_length, sum_of};
ghost use Rattle.rules.specs.Index.{file_type, name_at, start_at, slot_bytes, entry_bytes, marker_bytes, unused_bytes, run_bytes, retyped};
ghost use Rattle.editions.specs.View.{edition_view};
ghost use Rattle.runs.specs.Written.{run_entry};

use editions::Edition;
use slots::Head;
use units::Offset;

// ---- the sum of an entry

// Behind the type: the identifier's is there too.
const SUM: u64 = 1;

// The sum of the entry that has so many slots from `at` on, where the edition has sums. A zero stands in its place till then.
pub fn seal(img: &mut [u8], ed: Edition, at: Offset, slots: u64)
    requires { (at.0 + 64 * slots ≤ length img.old) × (1 ≤ slots) }
    ensures { img.new ≡ splice img.old (at.0 + 1) (sum_of (edition_view ed) (part img.old at.0 (slot_bytes * slots))) }
{
    if 0 < ed.sum_length() {
        let sum = fields::checksum(slots::bytes_of(img, at, slots));
        fields::put_le(img, at.after(SUM), 1, u64::from(sum));
    }
}

// ---- a run

// Where a run's field lies that is `o` bytes behind the run's start, or one more, behind the sum.
fn field(ed: Edition, at: Offset, o: u64) -> Offset
    requires { at.0 + 1 + o < 2 ^ 64 }
    ensures { (result.0 ≡ at.0 + (sum_length (edition_view ed) + o)) × (result.0 ≤ at.0 + 1 + o) }
{
    at.after(ed.sum_length() + o)
}

// A type, and a zero where its sum will stand: they are one number.
fn put_type(img: &mut [u8], ed: Edition, at: Offset, kind: u8)
    requires { at.0 + 64 ≤ length img.old }
    ensures { img.new ≡ splice img.old at.0 (kind ∷ replicate (sum_length (edition_view ed)) 0) }
{
    fields::put_le(img, at, (1 + ed.sum_length()) as usize, u64::from(kind));
}

// Kind, count of continuing slots and stamp.
fn put_head(img: &mut [u8], h: Head)
    requires { (h.at.0 + 64 ≤ length img.old) × (1 ≤ h.slots) × (h.slots ≤ 256) }
    ensures { img.new ≡ splice img.old h.at.0 ((h.kind ∷ replicate (sum_length (edition_view h.edition)) 0) ++ ((h.slots - 1) ∷ stamp_bytes (signed_of h.stamp))) }
{
    put_type(img, h.edition, h.at, h.kind);
    fields::put_le(img, field(h.edition, h.at, slots::COUNT), 1, h.slots - 1);
    fields::put_stamp(img, field(h.edition, h.at, slots::STAMP), h.stamp);
}

// A file's region and length.
fn put_file(img: &mut [u8], h: Head)
    requires { h.at.0 + 64 ≤ length img.old }
    ensures { img.new ≡ splice img.old (h.at.0 + start_at (edition_view h.edition)) (le_bytes 8 h.start.0 ++ (le_bytes 8 h.end.0 ++ le_bytes 8 h.length)) }
{
    fields::put_le(
        img,
        field(h.edition, h.at, slots::START),
        8,
        h.start.number(),
    );
    fields::put_le(img, field(h.edition, h.at, slots::END), 8, h.end.number());
    fields::put_le(img, field(h.edition, h.at, slots::LENGTH), 8, h.length);
}

// The same; a directory has none.
fn put_fields(img: &mut [u8], h: Head)
    requires { h.at.0 + 64 ≤ length img.old }
    ensures { img.new ≡ splice img.old (h.at.0 + start_at (edition_view h.edition)) (pick (file_type h.kind) (le_bytes 8 h.start.0 ++ (le_bytes 8 h.end.0 ++ le_bytes 8 h.length)) []) }
{
    if slots::is_file(h.kind) {
        put_file(img, h);
    }
}

// The whole run at the head's place, with zeros behind the name, and its sum last.
pub fn put_run(img: &mut [u8], h: Head, path: &[u8])
    requires { (h.at.0 + 64 * h.slots ≤ length img.old) × (1 ≤ h.slots) × (h.slots ≤ 256) × (name_at (edition_view h.edition) h.kind + length path.now ≤ 64 * h.slots) }
    ensures { img.new ≡ splice img.old h.at.0 (run_bytes (edition_view h.edition) (run_entry h path.now)) }
{
    put_head(img, h);
    put_fields(img, h);
    let name = h.at.after(slots::name_at(h.edition, h.kind));
    let end = h.at.after_slots(h.slots);
    copying::write_part(img, name, end, path);
    seal(img, h.edition, h.at, h.slots);
}

// Another type and stamp at the entry whose first slot is at `at`.
pub fn retype(img: &mut [u8], ed: Edition, at: Offset, kind: u8, stamp: u64)
    requires { at.0 + 64 ≤ length img.old }
    ensures { img.new ≡ retyped (edition_view ed) img.old at.0 kind (signed_of stamp) }
{
    fields::put_le(img, at, 1, u64::from(kind));
    fields::put_stamp(img, field(ed, at, slots::STAMP), stamp);
}

// ---- slots of a type alone

// A slot of this type, with its sum and zeros behind it.
fn put_bare(img: &mut [u8], ed: Edition, at: Offset, kind: u8)
    requires { at.0 + 64 ≤ length img.old }
    ensures { img.new ≡ splice img.old at.0 (entry_bytes (edition_view ed) kind [] slot_bytes) }
{
    let first = [kind; 1];
    copying::write_part(img, at, at.after_slots(1), &first);
    seal(img, ed, at, 1);
}

// The start marker.
pub fn put_marker(img: &mut [u8], ed: Edition, at: Offset)
    requires { at.0 + 64 ≤ length img.old }
    ensures { img.new ≡ splice img.old at.0 (marker_bytes (edition_view ed)) }
{
    put_bare(img, ed, at, slots::MARKER);
}

// So many slots from `at` on become unused.
pub fn clear_run(img: &mut [u8], ed: Edition, at: Offset, slots: u64)
    requires { at.0 + 64 * slots ≤ length img.old }
    ensures { img.new ≡ splice img.old at.0 (unused_bytes (edition_view ed) slots) }
{
    for i in 0..slots {
        put_bare(img, ed, at.after_slots(i), slots::UNUSED);
    }
}
