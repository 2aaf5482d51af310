// The answers of the calls that read, as include/sfs.h declares them. What each call promises: specs/Promises.antt.
// Kept: a number for the refusal, and the fields of Entry again in Listed, since the structs of sfs_open, sfs_find, sfs_list, sfs_list_all and sfs_read are so.

#![tactic(auto)]

#[repr(C)]
#[derive(Clone, Copy, Debug, Default, PartialEq, Eq)]
pub struct Volume {
    pub refusal: u32,
    pub version: u32,
    pub edition: u32,
    pub total: u64,
    pub reserved: u64,
    pub block_length: u64,
    pub data_blocks: u64,
    pub index_bytes: u64,
    pub stamp: i64,
    pub volume_stamp: i64,
    pub name_length: u64,
}

#[repr(C)]
#[derive(Clone, Copy, Debug, Default, PartialEq, Eq)]
pub struct Entry {
    pub refusal: u32,
    pub kind: u32,
    pub slot: u64,
    pub start: u64,
    pub end: u64,
    pub length: u64,
    pub stamp: i64,
}

#[repr(C)]
#[derive(Clone, Copy, Debug, Default, PartialEq, Eq)]
pub struct Listed {
    pub refusal: u32,
    pub kind: u32,
    pub slot: u64,
    pub start: u64,
    pub end: u64,
    pub length: u64,
    pub stamp: i64,
    pub path_length: u64,
}

#[repr(C)]
#[derive(Clone, Copy, Debug, Default, PartialEq, Eq)]
pub struct Content {
    pub refusal: u32,
    pub length: u64,
}

#[repr(C)]
#[derive(Clone, Copy, Debug, Default, PartialEq, Eq)]
pub struct Records {
    pub refusal: u32,
    pub count: u64,
    pub length: u64,
    pub next: u64,
}
