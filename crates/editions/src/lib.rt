// The editions of the layout, by value: what differs between them in code is here, side by side, edition 1.0 first and 1.10 second.

#![tactic(auto)]

ghost use Rattle.std.specs.Prelude.{◌≡◌, ◌+◌, ◌^◌, ◌≤◌, ◌<◌, eqb, leb, is_some, IfSome, IsNone};
ghost use Rattle.rules.specs.Lists.{pick};
ghost use Rattle.rules.specs.Editions.{version_of, version_named, edition_named, super_block_at, version_read, version_written, sum_length, sum_good, past_end, stored_end, keeps_deleted, before_directories};
ghost use Rattle.editions.specs.View.{edition_view};

use units::{Block, Offset};

// Editions 1.0 and 1.10.
#[derive(Clone, Copy, Debug, PartialEq, Eq)]
pub enum Edition {
    First,
    Second,
}

impl Edition {
    // The edition that a caller's version byte names.
    pub fn named(version: u64) -> Option<Edition>
        ensures found { is_some result ≡ version_named version }
        ensures edition { IfSome result (λ ed. edition_view ed ≡ edition_named version) }
        ensures otherwise { IsNone result → edition_view Edition.First ≡ edition_named version }
    {
        match version {
            0x10 => Some(Edition::First),
            0x1A => Some(Edition::Second),
            _ => None,
        }
    }

    // The version byte of a fresh volume, by which a caller names the edition.
    pub fn version(self) -> u8
        ensures { result ≡ version_of (edition_view self) }
    {
        match self {
            Edition::First => 0x10,
            Edition::Second => 0x1A,
        }
    }

    // Where the super-block starts.
    pub fn super_block(self) -> Offset
        ensures { result.0 ≡ super_block_at (edition_view self) }
    {
        match self {
            Edition::First => Offset::at(0x194),
            Edition::Second => Offset::at(0x18E),
        }
    }

    // Whether a volume of this version is read.
    pub fn reads(self, version: u8) -> bool
        ensures { result ≡ version_read (edition_view self) version }
    {
        match self {
            Edition::First => 0x10 <= version,
            Edition::Second => version == 0x1A,
        }
    }

    // Whether one that is read may be written.
    pub fn writes(self, version: u8) -> bool
        ensures { result ≡ version_written (edition_view self) version }
    {
        match self {
            Edition::First => version <= 0x10,
            Edition::Second => true,
        }
    }

    // The bytes of an entry's sum, behind its type.
    pub fn sum_length(self) -> u64
        ensures { (result ≡ sum_length (edition_view self)) × (result ≤ 1) }
    {
        match self {
            Edition::First => 0,
            Edition::Second => 1,
        }
    }

    // Whether the sum of an entry's bytes is right.
    pub fn sum_good(self, bytes: &[u8]) -> bool
        ensures { result ≡ sum_good (edition_view self) bytes.now }
    {
        match self {
            Edition::First => true,
            Edition::Second => fields::sums_to_zero(bytes),
        }
    }

    // The block past a region, of its end as it is stored.
    pub fn past_end(self, stored: Block) -> Block
        requires { stored.0 + 1 < 2 ^ 64 }
        ensures { result.0 ≡ past_end (edition_view self) stored.0 }
    {
        match self {
            Edition::First => stored,
            Edition::Second => behind_last(stored),
        }
    }

    // Whether a region of this stored end ends at or before block b. It is asked of any end: the block past one may not fit 64 bits.
    pub fn ends_by(self, stored: Block, b: Block) -> bool
        ensures { result ≡ leb (past_end (edition_view self) stored.0) b.0 }
    {
        match self {
            Edition::First => stored <= b,
            Edition::Second => last_before(stored, b),
        }
    }

    // The end that is stored, of the block past a region.
    pub fn stored_end(self, end: Block) -> Block
        ensures { result.0 ≡ stored_end (edition_view self) end.0 }
    {
        match self {
            Edition::First => end,
            Edition::Second => Block::at(end.blocks_past(Block::at(1))),
        }
    }

    // Whether deleted entries are entries still.
    pub fn keeps_deleted(self) -> bool
        ensures { result ≡ keeps_deleted (edition_view self) }
    {
        matches!(self, Edition::First)
    }

    // Whether a new entry goes before the entries of its directories.
    pub fn before_directories(self) -> bool
        ensures { result ≡ before_directories (edition_view self) }
    {
        matches!(self, Edition::Second)
    }
}

// The edition of any version: 1.0 where it names none.
pub fn named(version: u64) -> Edition
    ensures { edition_view result ≡ edition_named version }
{
    Edition::named(version).unwrap_or(Edition::First)
}

// The block behind the last one of a region; an empty file has none, and 0 is stored.
fn behind_last(last: Block) -> Block
    requires { last.0 + 1 < 2 ^ 64 }
    ensures { result.0 ≡ pick (eqb last.0 0) 0 (last.0 + 1) }
{
    if last.number() == 0 {
        last
    } else {
        last.after(1)
    }
}

// Whether the last block of a region lies before b; an empty file has none.
fn last_before(last: Block, b: Block) -> bool
    ensures { result ≡ leb (pick (eqb last.0 0) 0 (last.0 + 1)) b.0 }
{
    last.number() == 0 || last < b
}
