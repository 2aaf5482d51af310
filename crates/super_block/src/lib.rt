// The super-block and the index that it leads to: the refusals 1 to 6.

#![tactic(auto)]

ghost use Rattle.std.specs.Prelude.{◌≡◌, ◌+◌, ◌/◌, ◌≤◌, length, get_or};
ghost use Rattle.rules.specs.Fields.{splice};
ghost use Rattle.rules.specs.Editions.{super_block_at};
ghost use Rattle.rules.specs.SuperBlock.{length_good, geometry_of, magic_at, summed_bytes, super_block_bytes, put_sizes};
ghost use Rattle.rules.specs.Refusals.{magic_good, edition_of, version_good, checksum_good, judge_super, judge_geometry};
ghost use Rattle.rules.specs.Index.{slot_at, items_of, index_sound};
ghost use Rattle.geometry.specs.View.{geometry_view};
ghost use Rattle.index.specs.View.{SumsFrom, Inside, items_from};
ghost use Rattle.editions.specs.View.{edition_view};
ghost use Rattle.super_block.specs.View.{super_view, magic_view, Judged};

use editions::Edition;
use geometry::Geometry;
use index::Cursor;
use refusals::Refusal;
use units::{Offset, Slot};

// The places of the fields behind the super-block's start, and its length.
const STAMP: u64 = 0;

const DATA: u64 = 8;

const INDEX: u64 = 16;

const MAGIC: u64 = 24;

const VERSION: u64 = 27;

const TOTAL: u64 = 28;

const RESERVED: u64 = 36;

const FIELD: u64 = 40;

const CHECKSUM: u64 = 41;

const END: u64 = 42;

// The place in the image.
fn place(ed: Edition, o: u64) -> Offset
    requires { o ≤ 42 }
    ensures { (result.0 ≡ super_block_at (edition_view ed) + o) × (result.0 ≤ 0x194 + o) }
{
    ed.super_block().after(o)
}

fn byte_at(img: &[u8], ed: Edition, o: u64) -> u8
    requires { (512 ≤ length img.now) × (o ≤ 42) }
    ensures { result ≡ get_or img.now (super_block_at (edition_view ed) + o) 0 }
{
    let i = place(ed, o).index();
    img[i]
}

// ---- refusals 1 to 5

// The geometry as it is stored.
fn read_geometry(img: &[u8], ed: Edition) -> Geometry
    requires { 512 ≤ length img.now }
    ensures { geometry_view result ≡ geometry_of (edition_view ed) img.now }
{
    Geometry {
        edition: ed,
        stamp: fields::le64_at(img, place(ed, STAMP)),
        data_blocks: fields::le64_at(img, place(ed, DATA)),
        index_bytes: fields::le64_at(img, place(ed, INDEX)),
        version: byte_at(img, ed, VERSION),
        total: fields::le64_at(img, place(ed, TOTAL)),
        reserved: fields::le32_at(img, place(ed, RESERVED)),
        block_field: byte_at(img, ed, FIELD),
    }
}

// Whether an image may have n bytes.
pub fn length_good(n: u64) -> bool
    ensures { result ≡ length_good n }
{
    (512..=units::LONGEST).contains(&n)
}

fn magic_good(img: &[u8], ed: Edition) -> bool
    requires { 512 ≤ length img.now }
    ensures { result ≡ magic_good (edition_view ed) img.now }
{
    let start = place(ed, MAGIC).index();
    img[start..].starts_with(b"SFS")
}

// The edition that an image's magic says. The place of 1.0's is looked at first; what is found is not tried as the other.
fn find_magic(img: &[u8]) -> Option<Edition>
    requires { 512 ≤ length img.now }
    ensures { magic_view result ≡ edition_of img.now }
{
    if magic_good(img, Edition::First) {
        return Some(Edition::First);
    }
    if magic_good(img, Edition::Second) {
        return Some(Edition::Second);
    }
    None
}

fn version_good(img: &[u8], ed: Edition) -> bool
    requires { 512 ≤ length img.now }
    ensures { result ≡ version_good (edition_view ed) img.now }
{
    ed.reads(byte_at(img, ed, VERSION))
}

fn checksum_good(img: &[u8], ed: Edition) -> bool
    requires { 512 ≤ length img.now }
    ensures { result ≡ checksum_good (edition_view ed) img.now }
{
    let start = place(ed, MAGIC).index();
    let end = place(ed, END).index();
    fields::sums_to_zero(&img[start..end])
}

// The tests from 3 on, in the order of their numbers, of a volume of this edition.
fn judge_fields(img: &[u8], ed: Edition) -> Result<Geometry, Refusal>
    requires { 512 ≤ length img.now }
    ensures { super_view result ≡ judge_super img.now (edition_view ed) }
{
    if !version_good(img, ed) {
        return Err(Refusal::Version);
    }
    if !checksum_good(img, ed) {
        return Err(Refusal::Checksum);
    }
    let g = read_geometry(img, ed);
    if !g.is_good(img.len() as u64) {
        return Err(Refusal::Geometry);
    }
    Ok(g)
}

// The first of them, or the geometry of an image that has none.
pub fn judge_super(img: &[u8]) -> Result<Geometry, Refusal>
    ensures { super_view result ≡ judge_geometry img.now }
{
    if !length_good(img.len() as u64) {
        return Err(Refusal::Length);
    }
    let ed = find_magic(img).ok_or(Refusal::Magic)?;
    judge_fields(img, ed)
}

// ---- refusal 6: the slots between the two ends of the index

// The cursor at slot 1, behind the start marker; the volume identifier is not among the slots left. `sums` gets the sums of these slots, by which
// walks from there go.
pub fn first_slot(img: &[u8], g: Geometry, sums: &mut [u8]) -> Cursor
    requires { Judged img.now g × (4_096 ≤ length sums.old) }
    ensures { (items_from img.now result ≡ items_of img.now (geometry_view g)) × Inside img.now result × (result.at.0 ≡ slot_at img.now (geometry_view g) result.slot.0) × (result.left ≤ 4094) × (result.left ≤ g.index_bytes / 64) × (result.edition ≡ g.edition) × SumsFrom img.now sums.new result }
{
    let edition = g.edition;
    let start = units::index_start(img.len() as u64, g.index_bytes);
    let slot = Slot::at(1);
    let at = slot.offset(start);
    let left = units::slots_in(g.index_bytes) - ends::SLOTS;
    sums::take(img, edition, at, slot, left, sums);
    Cursor {
        edition,
        at,
        slot,
        left,
    }
}

// Whether both ends are good and no slot between them is at fault.
pub fn index_sound(img: &[u8], sums: &[u8], g: Geometry, from: Cursor) -> bool
    requires { Judged img.now g × (items_from img.now from ≡ items_of img.now (geometry_view g)) × Inside img.now from × SumsFrom img.now sums.now from }
    ensures { result ≡ index_sound img.now (geometry_view g) (items_of img.now (geometry_view g)) }
{
    ends::are_good(img, g) && index::walk_sound(img, sums, from)
}

// ---- writing

// The stamp and the two sizes.
pub fn put_sizes(img: &mut [u8], g: Geometry)
    requires { 0x1BE ≤ length img.old }
    ensures { img.new ≡ put_sizes img.old (geometry_view g) }
{
    let ed = g.edition;
    fields::put_stamp(img, place(ed, STAMP), g.stamp);
    fields::put_le(img, place(ed, DATA), 8, g.data_blocks);
    fields::put_le(img, place(ed, INDEX), 8, g.index_bytes);
}

// Magic to block size field: what the checksum is over. The magic is a number of three bytes.
fn put_summed(img: &mut [u8], g: Geometry)
    requires { 0x1BE ≤ length img.old }
    ensures { img.new ≡ splice img.old (magic_at (edition_view g.edition)) (summed_bytes (geometry_view g)) }
{
    let ed = g.edition;
    fields::put_le(img, place(ed, MAGIC), 3, 0x53_4653);
    fields::put_le(img, place(ed, VERSION), 1, fields::wide(g.version));
    fields::put_le(img, place(ed, TOTAL), 8, g.total);
    fields::put_le(img, place(ed, RESERVED), 4, g.reserved as u64);
    fields::put_le(img, place(ed, FIELD), 1, fields::wide(g.block_field));
}

// The whole super-block.
pub fn put_super(img: &mut [u8], g: Geometry)
    requires { 0x1BE ≤ length img.old }
    ensures { img.new ≡ splice img.old (super_block_at (edition_view g.edition)) (super_block_bytes (geometry_view g)) }
{
    let ed = g.edition;
    put_sizes(img, g);
    put_summed(img, g);
    let start = place(ed, MAGIC).index();
    let at = place(ed, CHECKSUM);
    let end = at.index();
    let sum = fields::checksum(&img[start..end]);
    fields::put_le(img, at, 1, fields::wide(sum));
}
