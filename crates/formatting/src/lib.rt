// The call format: a fresh volume in place of whatever the image held. All is judged first; the image is written at one place.

#![tactic(auto)]

ghost use Rattle.std.specs.Prelude.{◌≡◌, ◌≤◌, length};
ghost use Rattle.rules.specs.Fields.{signed_of};
ghost use Rattle.rules.specs.Writing.{fresh_geometry, formatted};
ghost use Rattle.contracts.specs.Promises.{Formats};
ghost use Rattle.refusals.specs.View.{answer_of};
ghost use Rattle.editions.specs.View.{edition_view};
ghost use Rattle.geometry.specs.View.{geometry_view};

use editions::Edition;
use geometry::Geometry;
use refusals::Refusal;

// The super-block, and the two ends of the index.
fn write_volume(img: &mut [u8], g: Geometry, name: &[u8])
    requires { (1024 ≤ length img.old) × (length name.now ≤ 51) }
    ensures { img.new ≡ formatted img.old (geometry_view g) name.now }
{
    super_block::put_super(img, g);
    ends::put(img, g.edition, g.stamp, name);
}

// The geometry of a fresh volume in an image of n bytes.
fn fresh(n: u64, edition: Edition, field: u8, reserved: u32, stamp: u64) -> Geometry
    requires { field ≤ 5 }
    ensures { geometry_view result ≡ fresh_geometry (edition_view edition) n field reserved (signed_of stamp) }
{
    let total = n / blocks::block_bytes(field);
    let version = edition.version();
    Geometry {
        edition,
        stamp,
        data_blocks: 0,
        index_bytes: ends::BYTES,
        version,
        total,
        reserved,
        block_field: field,
    }
}

// `stamp` is the stamp's 64 bits.
pub fn format(
    img: &mut [u8],
    version: u64,
    bytes: u64,
    reserved: u64,
    name: &[u8],
    stamp: u64,
) -> Result<(), Refusal>
    ensures { Formats img.old version bytes reserved name.now (signed_of stamp) (answer_of result) img.new }
{
    let n = img.len() as u64;
    if !super_block::length_good(n) {
        return Err(Refusal::Length);
    }
    let ed = Edition::named(version).ok_or(Refusal::Geometry)?;
    let field = blocks::block_field(bytes).ok_or(Refusal::Geometry)?;
    let reserved = u32::try_from(reserved).map_err(|_| Refusal::Geometry)?;
    let g = fresh(n, ed, field, reserved, stamp);
    if !g.is_good(n) {
        return Err(Refusal::Geometry);
    }
    if !names::volume_name_good(name) {
        return Err(Refusal::Name);
    }
    write_volume(img, g, name);
    Ok(())
}
