// The two ends of the index area: the start marker and the volume identifier, of whose layout this is the one owner in code.

#![tactic(auto)]

ghost use Rattle.std.specs.Prelude.{◌≡◌, ◌&&◌, ◌++◌, ◌+◌, ◌-◌, ◌≤◌, length};
ghost use Rattle.rules.specs.Fields.{splice, signed_of};
ghost use Rattle.rules.specs.Index.{identifier_at, volume_field, volume_name, volume_stamp, identifier_good, marker_good, marker_bytes, identifier_bytes};
ghost use Rattle.rules.specs.Writing.{put_marker};
ghost use Rattle.editions.specs.View.{edition_view};
ghost use Rattle.geometry.specs.View.{geometry_view};

use editions::Edition;
use geometry::Geometry;
use units::Offset;

// The slots of the two, and their bytes: an index area has no less.
pub const SLOTS: u64 = 2;

pub const BYTES: u64 = SLOTS * units::SLOT_BYTES;

// The places of stamp and name in the identifier.
const STAMP: u64 = 4;

const NAME: u64 = 12;

// ---- the volume identifier

// It is the last slot.
fn identifier(img: &[u8]) -> Offset
    requires { 64 ≤ length img.now }
    ensures { (result.0 ≡ identifier_at img.now) × (result.0 + 64 ≡ length img.now) }
{
    units::index_start(img.len() as u64, units::SLOT_BYTES)
}

// The field of the volume's name, up to the end of the image.
fn volume_field(img: &[u8]) -> &[u8]
    requires { 64 ≤ length img.now }
    ensures { result.now ≡ volume_field img.now }
{
    let name = identifier(img).after(NAME);
    let at = name.index();
    &img[at..]
}

// The volume's name, as a part of the image: it ends at the first zero of its field.
pub fn volume_name(img: &[u8]) -> &[u8]
    requires { 64 ≤ length img.now }
    ensures { result.now ≡ volume_name img.now }
{
    let field = volume_field(img);
    let n = fields::zero_at(field);
    &field[..n]
}

// The stamp of the format, by its bits.
pub fn volume_stamp(img: &[u8]) -> u64
    requires { 64 ≤ length img.now }
    ensures { signed_of result ≡ volume_stamp img.now }
{
    fields::le64_at(img, identifier(img).after(STAMP))
}

// Whether it has its type, a right sum and a good name.
fn identifier_good(img: &[u8], ed: Edition) -> bool
    requires { 64 ≤ length img.now }
    ensures { result ≡ identifier_good (edition_view ed) img.now }
{
    let at = identifier(img);
    slots::kind_at(img, at) == slots::IDENTIFIER
        && slots::sum_good(img, ed, at, 1)
        && names::volume_field_good(volume_field(img))
}

// The identifier at `at`, and its sum last. Its type and the zeros up to its stamp are one number.
fn put_identifier(img: &mut [u8], ed: Edition, at: Offset, stamp: u64, name: &[u8])
    requires { (at.0 + 64 ≤ length img.old) × (length name.now ≤ 52) }
    ensures { img.new ≡ splice img.old at.0 (identifier_bytes (edition_view ed) (signed_of stamp) name.now) }
{
    fields::put_le(img, at, STAMP as usize, u64::from(slots::IDENTIFIER));
    fields::put_stamp(img, at.after(STAMP), stamp);
    copying::write_part(img, at.after(NAME), at.after_slots(1), name);
    runs::seal(img, ed, at, 1);
}

// ---- the start marker

// It is the first slot. Whether it has its type and a right sum.
fn marker_good(img: &[u8], g: Geometry) -> bool
    requires { (64 ≤ g.index_bytes) × (g.index_bytes ≤ length img.now) }
    ensures { result ≡ marker_good img.now (geometry_view g) }
{
    let at = units::index_start(img.len() as u64, g.index_bytes);
    slots::kind_at(img, at) == slots::MARKER && slots::sum_good(img, g.edition, at, 1)
}

// It moves with the index's start.
pub fn move_marker(img: &mut [u8], old: Geometry, new: Geometry)
    requires { (64 ≤ new.index_bytes) × (new.index_bytes ≤ length img.old) }
    ensures { img.new ≡ put_marker img.old (geometry_view old) (geometry_view new) }
{
    if old.index_bytes != new.index_bytes {
        let start = units::index_start(img.len() as u64, new.index_bytes);
        runs::put_marker(img, new.edition, start);
    }
}

// ---- both

// Whether the two ends of the index are good.
pub fn are_good(img: &[u8], g: Geometry) -> bool
    requires { (64 ≤ g.index_bytes) × (g.index_bytes ≤ length img.now) }
    ensures { result ≡ (marker_good img.now (geometry_view g) && identifier_good (edition_view g.edition) img.now) }
{
    marker_good(img, g) && identifier_good(img, g.edition)
}

// The ends of an index that has no slot between them.
pub fn put(img: &mut [u8], ed: Edition, stamp: u64, name: &[u8])
    requires { (128 ≤ length img.old) × (length name.now ≤ 52) }
    ensures { img.new ≡ splice img.old (length img.old - 128) (marker_bytes (edition_view ed) ++ identifier_bytes (edition_view ed) (signed_of stamp) name.now) }
{
    let start = units::index_start(img.len() as u64, BYTES);
    runs::put_marker(img, ed, start);
    put_identifier(img, ed, start.after_slots(1), stamp, name);
}
