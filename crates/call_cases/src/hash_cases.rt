// The hash function: the published vectors of 64-bit FNV-1a, through the code that the hashes are made with. Each line has the input, the
// hash that was computed, and whether it is the published one.
ghost use Rattle.std.specs.Prelude.{◌≡◌};
ghost use Rattle.rules.specs.Hash.{fnv};

use crate::verdicts::verdict;
use hashing::fnv::{START, feed_count, feed_leaf, fnv_byte};
use std::io;

// The hash of a list of bytes.
fn hash_of(input: &[u8]) -> u64
    ensures { result ≡ fnv input.now }
{
    input.iter().fold(START, |word, byte| fnv_byte(word, *byte))
}

// The line of an input: its text, how it was fed, and the hash.
fn hash_line(rt: &impl Print, text: &str, how: &str, hash: u64, published: u64) -> io::Result<()> {
    let verdict = verdict(hash == published);
    println!(rt; "\"{text}\"{how}: {hash:016x} {verdict}")
}

// A published vector.
fn vector(rt: &impl Print, input: &str, published: u64) -> io::Result<()> {
    hash_line(rt, input, "", hash_of(input.as_bytes()), published)
}

// The same bytes as numbers of 4 bytes, lowest byte first; and as a number of 8 bytes, with 4 behind them that are 0, whose hash was
// computed apart.
fn numbers(rt: &impl Print) -> io::Result<()> {
    let foob = feed_leaf(START, 0x626f6f66);
    hash_line(rt, "foob", " as a leaf", foob, 0xdd120e790c2512af)?;
    let chon = feed_leaf(START, 0x6e6f6863);
    let gowa = feed_leaf(chon, 0x77206f67);
    let here = feed_leaf(feed_leaf(gowa, 0x68207361), 0x21657265);
    hash_line(
        rt,
        "chongo was here!",
        " as four leaves",
        here,
        0x858e2fa32a55e61d,
    )?;
    let count = feed_count(START, 0x626f6f66);
    hash_line(rt, "foob", " as a count", count, 0x5c9b38e6c2f3191f)
}

fn vectors(rt: &impl Print) -> io::Result<()> {
    vector(rt, "", 0xcbf29ce484222325)?;
    vector(rt, "a", 0xaf63dc4c8601ec8c)?;
    vector(rt, "b", 0xaf63df4c8601f1a5)?;
    vector(rt, "c", 0xaf63de4c8601eff2)?;
    vector(rt, "d", 0xaf63d94c8601e773)?;
    vector(rt, "e", 0xaf63d84c8601e5c0)?;
    vector(rt, "f", 0xaf63db4c8601ead9)?;
    vector(rt, "fo", 0x08985907b541d342)?;
    vector(rt, "foo", 0xdcb27518fed9d577)?;
    vector(rt, "foob", 0xdd120e790c2512af)?;
    vector(rt, "fooba", 0xcac165afa2fef40a)?;
    vector(rt, "foobar", 0x85944171f73967e8)?;
    vector(rt, "hi", 0x08ba5f07b55ec3da)?;
    vector(rt, "hello", 0xa430d84680aabd0b)?;
    vector(rt, "chongo was here!", 0x858e2fa32a55e61d)?;
    let chongo = hash_of(b"chongo was here!\n");
    hash_line(rt, "chongo was here!\\n", "", chongo, 0x46810940eff5f915)?;
    vector(rt, "curds and whey", 0x23e520e2751bb46e)?;
    vector(rt, "127.0.0.1", 0xaabafe7104d914be)
}

// All vectors.
pub fn run(rt: &impl Print) -> io::Result<()> {
    vectors(rt)?;
    numbers(rt)
}
