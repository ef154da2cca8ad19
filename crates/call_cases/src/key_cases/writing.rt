// What a key call answers, as a line: the key in hexadecimal, or the cause, and what stands behind it in the lent bytes.
use crate::lent::Store;
use api::fragment_keys::{basic_block_key, operation_key, region_key};
use rules::types::{Cause, Ignore, Sort};
use std::io;

// As many bytes as the longest key of a case, and some more.
pub const LENT: usize = 128;

// What lent bytes hold beforehand.
pub const KEPT: u8 = 170;

// Bytes to write a key into, with some to spare.
pub type Key = [u8; LENT];

fn write_key(
    store: &Store,
    key: &mut [u8],
    sort: Sort,
    n: u32,
    ignore: Ignore,
) -> Result<u32, Cause> {
    match sort {
        Sort::Op => operation_key(store, &[], key, n, ignore),
        Sort::Block => basic_block_key(store, &[], key, n, ignore),
        Sort::Region => region_key(store, &[], key, n, ignore),
    }
}

// The key, or the cause.
fn print_answer(rt: &impl Print, answer: Result<u32, Cause>, key: &[u8]) -> io::Result<()> {
    match answer {
        Ok(n) => {
            print!(rt; "{n} bytes ")?;
            for byte in key.iter().take(n as usize) {
                print!(rt; "{byte:02x}")?;
            }
            Ok(())
        }
        Err(cause) => print!(rt; "refused {cause}"),
    }
}

// The line of a case: its name, the answer, and whether the lent bytes behind the key are as they were.
pub fn answer_line(
    rt: &impl Print,
    name: &str,
    answer: Result<u32, Cause>,
    key: &[u8],
) -> io::Result<()> {
    print!(rt; "{name}: ")?;
    print_answer(rt, answer, key)?;
    let mut behind = key.iter().skip(answer.unwrap_or(0) as usize);
    let verdict = if behind.all(|byte| *byte == KEPT) {
        "kept"
    } else {
        "CHANGED"
    };
    println!(rt; ", {verdict}")
}

// A key call with bytes to spare.
pub fn key_line(
    rt: &impl Print,
    name: &str,
    store: &Store,
    sort: Sort,
    n: u32,
    ignore: Ignore,
) -> io::Result<()> {
    let mut key: Key = [KEPT; LENT];
    let answer = write_key(store, &mut key, sort, n, ignore);
    answer_line(rt, name, answer, &key)
}
