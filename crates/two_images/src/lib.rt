// The calls of sfs, which the exports for C pass on, on two images: where these agree in what find, read, list and list all look at, so do the answers. See specs/Unseen.antt for
// what that leaves out.

#![tactic(auto)]

ghost use Rattle.std.specs.Prelude.{◌≡◌};
ghost use Rattle.rules.specs.History.{Agree};

use contracts::{Content, Entry, Listed, Records};

// What a call answers on each of the two.
#[derive(Clone, Copy)]
pub struct Both<T> {
    pub one: T,
    pub other: T,
}

pub fn find_on_both(one: &[u8], other: &[u8], path: &[u8]) -> Both<Entry>
    ensures { Agree one.now other.now → result.one ≡ result.other }
{
    let a = sfs::sfs_find(one, path);
    let b = sfs::sfs_find(other, path);
    Both { one: a, other: b }
}

pub fn read_on_both(
    one: &[u8],
    other: &[u8],
    path: &[u8],
    out: &mut [u8],
    again: &mut [u8],
) -> Both<Content>
    ensures { Agree one.now other.now → out.old ≡ again.old → (result.one ≡ result.other) × (out.new ≡ again.new) }
{
    let a = sfs::sfs_read(one, path, out);
    let b = sfs::sfs_read(other, path, again);
    Both { one: a, other: b }
}

pub fn list_on_both(
    one: &[u8],
    other: &[u8],
    slot: u64,
    out: &mut [u8],
    again: &mut [u8],
) -> Both<Listed>
    ensures { Agree one.now other.now → out.old ≡ again.old → (result.one ≡ result.other) × (out.new ≡ again.new) }
{
    let a = sfs::sfs_list(one, slot, out);
    let b = sfs::sfs_list(other, slot, again);
    Both { one: a, other: b }
}

pub fn list_all_on_both(
    one: &[u8],
    other: &[u8],
    slot: u64,
    out: &mut [u8],
    again: &mut [u8],
) -> Both<Records>
    ensures { Agree one.now other.now → out.old ≡ again.old → (result.one ≡ result.other) × (out.new ≡ again.new) }
{
    let a = sfs::sfs_list_all(one, slot, out);
    let b = sfs::sfs_list_all(other, slot, again);
    Both { one: a, other: b }
}
