// What can be undone: nothing of a plain delete, a delete that keeps, and nothing behind a reclaim. Calls of sfs, alone or one after the other.

#![tactic(auto)]

ghost use Rattle.undoing.specs.Undone.{LeavesNothing, Undone, TooLate};

// A plain delete.
pub fn delete_wiped(image: &mut [u8], path: &[u8], stamp: i64) -> u32
    ensures { LeavesNothing image.old path.now result image.new }
{
    sfs::sfs_delete(image, path, stamp)
}

// A delete that keeps, and a restore with the stamp that was found.
pub fn delete_undone(image: &mut [u8], path: &[u8], stamp: i64) -> u32
    ensures { Undone image.old path.now stamp result image.new }
{
    let found = sfs::sfs_find(image, path);
    let refusal = sfs::sfs_delete_keep(image, path, stamp);
    // Kept: a refusal as its number, since sfs_delete_keep answers it so.
    if refusal != 0 {
        return refusal;
    }
    sfs::sfs_restore(image, path, found.stamp)
}

// A reclaim, and a restore behind it.
pub fn restored_too_late(image: &mut [u8], path: &[u8], reclaimed: i64, restored: i64) -> u32
    ensures { TooLate image.old path.now reclaimed result image.new }
{
    let refusal = sfs::sfs_reclaim(image, reclaimed);
    // Kept: a refusal as its number, since sfs_reclaim answers it so.
    if refusal != 0 {
        return refusal;
    }
    sfs::sfs_restore(image, path, restored)
}
