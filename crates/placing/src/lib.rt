// What a create writes at its site: sizes, start marker, run, and the file's bytes. All was judged before; nothing here refuses.

#![tactic(auto)]

ghost use Rattle.std.specs.Prelude.{◌≡◌, ◌*◌, ◌≤◌, length};
ghost use Rattle.rules.specs.Fields.{signed_of};
ghost use Rattle.rules.specs.Index.{slot_bytes};
ghost use Rattle.rules.specs.Writing.{created, kind_of, bytes_of};
ghost use Rattle.placing.specs.Site.{new_of, site_view, BlocksIn, NewIn};
ghost use Rattle.placing.specs.Placed.{blocks_image, site_head};

use geometry::Geometry;
use slots::Head;
use units::{Block, Slot};

// ---- what is new

// A file with these bytes, or a directory, which has none.
#[derive(Clone, Copy)]
pub enum Made<'a> {
    File(&'a [u8]),
    Directory,
}

impl<'a> Made<'a> {
    // The type field of its run.
    pub fn kind(self) -> u8
        ensures { result ≡ kind_of (new_of self.entry) }
    {
        match self {
            Made::File(_) => slots::FILE,
            Made::Directory => slots::DIRECTORY,
        }
    }

    // The bytes of its region.
    pub fn bytes(self) -> &'a [u8]
        ensures { result.now ≡ bytes_of (new_of self.entry) }
    {
        match self {
            Made::File(bytes) => bytes,
            Made::Directory => b"",
        }
    }
}

// What a create is asked to make, by this path and with this stamp.
#[derive(Clone, Copy)]
pub struct New<'a> {
    pub made: Made<'a>,
    pub path: &'a [u8],
    pub stamp: u64,
}

// Where a create puts what it makes: the geometry before and after, the run's first slot and its slots (in the index after any growth),
// and the file's region.
#[derive(Clone, Copy)]
pub struct Site {
    pub old: Geometry,
    pub new: Geometry,
    pub slot: Slot,
    pub slots: u64,
    pub start: Block,
    pub end: Block,
}

// ---- the blocks

// The bytes, and zeros to the end of the last block.
fn put_blocks(img: &mut [u8], p: Site, bytes: &[u8])
    requires { (length img.old ≤ 16_777_216) × BlocksIn (length img.old) (site_view p) (length bytes.now) }
    ensures { img.new ≡ blocks_image img.old (site_view p) bytes.now }
{
    let len = p.new.block_length();
    copying::write_blocks(img, len, p.start, p.end, bytes);
}

// ---- all of it

// The head of the run, in an image of `len` bytes, with its end as it is stored.
fn head_of(len: u64, p: Site, new: New) -> Head
    requires { (len ≤ 16_777_216) × (p.new.index_bytes ≤ len) × (slot_bytes * p.slot.0 ≤ p.new.index_bytes) }
    ensures { result ≡ site_head len p (new_of new.entry.made) new.entry.stamp }
{
    let index = units::index_start(len, p.new.index_bytes);
    Head {
        edition: p.new.edition,
        at: p.slot.offset(index),
        kind: new.made.kind(),
        slot: p.slot,
        slots: p.slots,
        stamp: new.stamp,
        start: p.start,
        end: p.new.edition.stored_end(p.end),
        length: new.made.bytes().len() as u64,
    }
}

// What is new, at its site. The super-block, the index and the region are written in this order.
pub fn place(img: &mut [u8], p: Site, new: New)
    requires { NewIn (length img.old) (new_of new.made) new.path.now (site_view p) }
    ensures { img.new ≡ created img.old (site_view p) (new_of new.entry.made) new.entry.path.now (signed_of new.entry.stamp) }
{
    let h = head_of(img.len() as u64, p, new);
    super_block::put_sizes(img, p.new);
    ends::move_marker(img, p.old, p.new);
    runs::put_run(img, h, new.path);
    put_blocks(img, p, new.made.bytes());
}
