// Comparisons of keys, and of other bytes.
use crate::key_cases::writing::{KEPT, Key, LENT};
use crate::lent::{NOTHING, Store};
use api::fragment_keys::operation_key;
use api::hashes::operation_hash;
use keys::order::compare_keys;
use std::io;

fn order_line(rt: &impl Print, name: &str, left: &[u8], right: &[u8]) -> io::Result<()> {
    let order = compare_keys(left, right) as i8;
    println!(rt; "{name}: {order}")
}

fn hash_of(store: &Store, n: u32) -> u64 {
    operation_hash(store, &[], n, NOTHING).unwrap_or(0)
}

// Operations 3 and 4: one hash, and two keys.
pub fn lookalikes(rt: &impl Print, store: &Store) -> io::Result<()> {
    let left_hash = hash_of(store, 3);
    let right_hash = hash_of(store, 4);
    println!(rt; "hashes of 3 and 4: {left_hash:016x} {right_hash:016x}")?;
    let mut left: Key = [KEPT; LENT];
    let mut right: Key = [KEPT; LENT];
    let _ = operation_key(store, &[], &mut left, 3, NOTHING);
    let _ = operation_key(store, &[], &mut right, 4, NOTHING);
    order_line(rt, "keys of 3 and 4", &left, &right)
}

// The order of bytes that are no keys.
pub fn orders(rt: &impl Print) -> io::Result<()> {
    order_line(rt, "none and none", &[], &[])?;
    order_line(rt, "none and 00", &[], &[0])?;
    order_line(rt, "00 and none", &[0], &[])?;
    order_line(rt, "0102 and 010200", &[1, 2], &[1, 2, 0])?;
    order_line(rt, "0200 and 0102ff", &[2, 0], &[1, 2, 255])?;
    order_line(rt, "7f and 80", &[127], &[128])?;
    order_line(rt, "ff01 and 80ff", &[255, 1], &[128, 255])?;
    order_line(rt, "ff80 and ff80", &[255, 128], &[255, 128])
}
