// The geometry that all calls share, by value.

#![tactic(auto)]

ghost use Rattle.std.specs.Prelude.{◌≡◌, ◌+◌, ◌*◌, ◌≤◌, ◌<◌, ◌^◌, eqb};
ghost use Rattle.rules.specs.SuperBlock.{block_length, data_end, ceiling_block, writable, index_good, geometry_good, grow_index, extend_data, trim_data, with_stamp, restamp};
ghost use Rattle.rules.specs.Fields.{signed_of};
ghost use Rattle.geometry.specs.View.{geometry_view, areas_fit};

use editions::Edition;
use units::Block;

// The least bytes of the reserved area: the boot code and the super-block.
const LEAST_RESERVED: u64 = 512;

// The blocks besides the reserved ones that a volume has at least.
const LEAST_REST: u64 = 2;

// The bytes of an index area, at least and at most.
pub const LEAST_INDEX: u64 = 128;

pub const MOST_INDEX: u64 = 262_144;

// The stored block size field, at least and at most.
const LEAST_FIELD: u8 = 1;

const MOST_FIELD: u8 = 5;

// The stamp is held as its 64 bits, as stored: code only moves it.
#[derive(Clone, Copy)]
pub struct Geometry {
    pub edition: Edition,
    pub stamp: u64,
    pub data_blocks: u64,
    pub index_bytes: u64,
    pub version: u8,
    pub total: u64,
    pub reserved: u32,
    pub block_field: u8,
}

impl Geometry {
    // The index area so many bytes larger.
    pub fn grow_index(self, bytes: u64) -> Geometry
        requires { self.index_bytes + bytes < 2 ^ 64 }
        ensures { geometry_view result ≡ grow_index (geometry_view self) bytes }
    {
        Geometry {
            index_bytes: self.index_bytes + bytes,
            ..self
        }
    }

    // The data area's end moved to `end`, unless it is there or past it.
    pub fn extend_data(self, end: Block) -> Geometry
        ensures { geometry_view result ≡ extend_data (geometry_view self) end.0 }
    {
        let blocks = end.blocks_past(self.data_start());
        Geometry {
            data_blocks: self.data_blocks.max(blocks),
            ..self
        }
    }

    // The data area trimmed so that it ends at `end`.
    pub fn trim_data(self, end: Block) -> Geometry
        ensures { geometry_view result ≡ trim_data (geometry_view self) end.0 }
    {
        Geometry {
            data_blocks: end.blocks_past(self.data_start()),
            ..self
        }
    }

    // The new geometry `self` with the stamp of the call, if a size is not what it was in `old`.
    pub fn restamp(self, old: Geometry, stamp: u64) -> Geometry
        ensures { geometry_view result ≡ restamp (geometry_view old) (geometry_view self) (signed_of stamp) }
    {
        if old.index_bytes != self.index_bytes || old.data_blocks != self.data_blocks {
            self.stamped(stamp)
        } else {
            self
        }
    }

    // The same with another stamp.
    pub fn stamped(self, stamp: u64) -> Geometry
        ensures { geometry_view result ≡ with_stamp (geometry_view self) (signed_of stamp) }
    {
        Geometry { stamp, ..self }
    }

    // The bytes of a block.
    pub fn block_length(self) -> u64
        requires { self.block_field ≤ 5 }
        ensures { (result ≡ block_length (geometry_view self)) × (128 ≤ result) × (result ≤ 4096) }
    {
        blocks::block_bytes(self.block_field)
    }

    // The first block of the data area: those before it are reserved.
    pub fn data_start(self) -> Block
        ensures { result.0 ≡ self.reserved }
    {
        Block::at(u64::from(self.reserved))
    }

    // The first block past the data area.
    pub fn data_end(self) -> Block
        requires { self.reserved + self.data_blocks < 2 ^ 64 }
        ensures { result.0 ≡ data_end (geometry_view self) }
    {
        self.data_start().after(self.data_blocks)
    }

    // 01's ceiling block: the first block that files may not reach, in an image of n bytes.
    pub fn ceiling(self, n: u64) -> Block
        requires { (self.block_field ≤ 5) × (self.index_bytes ≤ n) }
        ensures { result.0 ≡ ceiling_block n (geometry_view self) }
    {
        units::index_start(n, self.index_bytes).block(self.block_length())
    }

    // Whether a volume of this geometry may be written.
    pub fn is_writable(self) -> bool
        ensures { result ≡ writable (geometry_view self) }
    {
        self.edition.writes(self.version)
    }

    // Whether the geometry is good for an image of n bytes, at any 64-bit values.
    pub fn is_good(self, n: u64) -> bool
        ensures { result ≡ geometry_good n (geometry_view self) }
    {
        if !(LEAST_FIELD..=MOST_FIELD).contains(&self.block_field) {
            return false;
        }
        let len = self.block_length();
        let reserved = u64::from(self.reserved);
        is_product(self.total, len, n)
            && LEAST_RESERVED <= reserved * len
            && reserved + LEAST_REST <= self.total
            && self.areas_fit(n)
    }

    // The index area's size, and the data area below it.
    pub fn areas_fit(self, n: u64) -> bool
        requires { self.block_field ≤ 5 }
        ensures { result ≡ areas_fit n (geometry_view self) }
    {
        index_good(self.index_bytes)
            && self.index_bytes <= n
            && self
                .data_start()
                .has_room(self.data_blocks, self.ceiling(n))
    }
}

// Whether total blocks of `len` bytes are n bytes; the product may pass 64 bits.
fn is_product(total: u64, len: u64, n: u64) -> bool
    ensures { result ≡ eqb (total * len) n }
{
    total.checked_mul(len) == Some(n)
}

// Whether an index area may have so many bytes.
pub fn index_good(i: u64) -> bool
    ensures { result ≡ index_good i }
{
    (LEAST_INDEX..=MOST_INDEX).contains(&i) && i % units::SLOT_BYTES == 0
}
