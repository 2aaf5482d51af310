// Block numbers, slot numbers and byte offsets: three units, converted only by the functions here. Those of one unit compare as their numbers do.

#![tactic(auto)]

ghost use Rattle.std.specs.Prelude.{◌≡◌, true, ◌+◌, ◌-◌, ◌*◌, ◌/◌, ◌^◌, ◌≤◌, ◌<◌, leb};

// The longest image, in bytes: no offset lies past it.
pub const LONGEST: u64 = 16_777_216;

// The bytes of a slot of the index area.
pub const SLOT_BYTES: u64 = 64;

// A block number, from the start of the media, or the block past a region's end. A table of regions that C lends has it as a number.
#[repr(C)]
#[derive(Clone, Copy, Debug, PartialEq, Eq, PartialOrd, Ord)]
pub struct Block(u64);

// A slot number of the index area.
#[derive(Clone, Copy, Debug, PartialEq, Eq, PartialOrd, Ord)]
pub struct Slot(u64);

// A place in the image, in bytes.
#[derive(Clone, Copy, Debug, PartialEq, Eq, PartialOrd, Ord)]
pub struct Offset(usize);

impl Block {
    // The block of this number, as it is stored or given.
    pub fn at(n: u64) -> Block
        ensures { result.0 ≡ n }
    {
        Block(n)
    }

    // Its number, as it is stored or given.
    pub fn number(self) -> u64
        ensures { result ≡ self.0 }
    {
        self.0
    }

    // How many blocks it lies past `from`, 0 where it does not.
    pub fn blocks_past(self, from: Block) -> u64
        ensures { result ≡ self.0 - from.0 }
    {
        self.0.saturating_sub(from.0)
    }

    // The first byte of the block; `len` is the block length.
    pub fn offset(self, len: u64) -> Offset
        requires { self.0 * len ≤ 16_777_216 }
        ensures { (result.0 ≡ self.0 * len) × (result.0 ≤ 16_777_216) }
    {
        Offset((self.0 * len) as usize)
    }

    // The block past a region of so many blocks that starts here.
    pub fn after(self, blocks: u64) -> Block
        requires { self.0 + blocks < 2 ^ 64 }
        ensures { result.0 ≡ self.0 + blocks }
    {
        Block(self.0 + blocks)
    }

    // Whether there is room for so many blocks from here up to `end`. The sum may pass 64 bits; where there is room, it does not.
    pub fn has_room(self, blocks: u64, end: Block) -> bool
        ensures value { result ≡ leb (self.0 + blocks) end.0 }
        ensures held { result ≡ true → self.0 + blocks < 2 ^ 64 }
    {
        end.0.checked_sub(self.0).is_some_and(|room| blocks <= room)
    }

    // How many blocks lie from here up to `end`.
    pub fn blocks_to(self, end: Block) -> u64
        requires { self.0 ≤ end.0 }
        ensures { result ≡ end.0 - self.0 }
    {
        end.0 - self.0
    }
}

impl Slot {
    // The slot of this number, as it is given.
    pub fn at(n: u64) -> Slot
        ensures { result.0 ≡ n }
    {
        Slot(n)
    }

    // Its number, as it is given.
    pub fn number(self) -> u64
        ensures { result ≡ self.0 }
    {
        self.0
    }

    // How many slots lie from here up to `end`.
    pub fn slots_to(self, end: Slot) -> u64
        requires { self.0 ≤ end.0 }
        ensures { result ≡ end.0 - self.0 }
    {
        end.0 - self.0
    }

    // The first byte of the slot, in an index area that starts at `index`.
    pub fn offset(self, index: Offset) -> Offset
        requires { index.0 + 64 * self.0 ≤ 16_777_216 }
        ensures { (result.0 ≡ index.0 + 64 * self.0) × (result.0 ≤ 16_777_216) }
    {
        Offset(index.0 + (SLOT_BYTES * self.0) as usize)
    }

    // The slot so many slots further.
    pub fn after(self, slots: u64) -> Slot
        requires { self.0 + slots ≤ 16_777_216 }
        ensures { result.0 ≡ self.0 + slots }
    {
        Slot(self.0 + slots)
    }
}

impl Offset {
    // The place that lies so many bytes behind the start of the image.
    pub fn at(n: usize) -> Offset
        ensures { result.0 ≡ n }
    {
        Offset(n)
    }

    // The same as an index into the image.
    pub fn index(self) -> usize
        ensures { result ≡ self.0 }
    {
        self.0
    }

    // The place so many bytes further.
    pub fn after(self, bytes: u64) -> Offset
        requires { self.0 + bytes < 2 ^ 64 }
        ensures { result.0 ≡ self.0 + bytes }
    {
        Offset(self.0 + bytes as usize)
    }

    // The place so many slots further.
    pub fn after_slots(self, slots: u64) -> Offset
        requires { self.0 + 64 * slots < 2 ^ 64 }
        ensures { result.0 ≡ self.0 + 64 * slots }
    {
        Offset(self.0 + (SLOT_BYTES * slots) as usize)
    }

    // The block that the place lies in.
    pub fn block(self, len: u64) -> Block
        requires { 0 < len }
        ensures { result.0 ≡ self.0 / len }
    {
        Block(self.0 as u64 / len)
    }
}

// Where an index area of `index` bytes starts, at the end of an image of `image` bytes.
pub fn index_start(image: u64, index: u64) -> Offset
    requires { index ≤ image }
    ensures { result.0 ≡ image - index }
{
    Offset((image - index) as usize)
}

// How many slots an index area has.
pub fn slots_in(index: u64) -> u64
    ensures { result ≡ index / 64 }
{
    index / SLOT_BYTES
}
