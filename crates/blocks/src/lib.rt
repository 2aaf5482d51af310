// Bytes per block and the stored block size field, both ways.

#![tactic(auto)]

ghost use Rattle.std.specs.Prelude.{◌≡◌, ◌≤◌};
ghost use Rattle.rules.specs.SuperBlock.{field_of, block_bytes};
ghost use Rattle.blocks.specs.View.{field_view};

// The stored field for a number of bytes per block. Count of ones tests the power of two; trailing zeros less 7 gives the field.
pub fn block_field(n: u64) -> Option<u8>
    ensures { field_view result ≡ field_of n }
{
    if !(256..=4096).contains(&n) {
        return None;
    }
    if n.count_ones() != 1 {
        return None;
    }
    Some((n.trailing_zeros() - 7) as u8)
}

// The bytes of a block, from its stored field.
pub fn block_bytes(b: u8) -> u64
    requires { b ≤ 5 }
    ensures { (result ≡ block_bytes b) × (128 ≤ result) × (result ≤ 4096) }
{
    128u64 << b
}
