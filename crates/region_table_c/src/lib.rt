// The engines for shared blocks for C: each export calls the function of that name in crates/region_table, and states its clause again. The comparison
// links them; no call of the library goes through them.

#![tactic(auto)]

ghost use Rattle.std.specs.Prelude.{◌≡◌, map};
ghost use Rattle.rules.specs.RegionTable.{table_of, sharing_of};
ghost use Rattle.region_table.specs.View.{extent_view, tabled_view};

use region_table::{Region, TableAnswer};

#[unsafe(no_mangle)]
pub extern "C" fn regions_in_table(image: &[u8], table: &mut [Region]) -> TableAnswer
    ensures { tabled_view result (map extent_view table.new) ≡ table_of image.now (map extent_view table.old) }
{
    region_table::regions_in_table(image, table)
}

#[unsafe(no_mangle)]
pub extern "C" fn regions_apart(image: &[u8]) -> u32
    ensures { result ≡ sharing_of image.now }
{
    region_table::regions_apart(image)
}

#[unsafe(no_mangle)]
pub extern "C" fn regions_apart_plainly(image: &[u8]) -> u32
    ensures { result ≡ sharing_of image.now }
{
    region_table::regions_apart_plainly(image)
}
