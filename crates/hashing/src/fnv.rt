// FNV-1a, 64 bits, and the feeding of numbers of 1, 4 and 8 bytes, lowest byte first. A byte that is 0 only multiplies, so the upper bytes
// of a small number are one product; a wide number is fed as its low half and then its high half.
ghost use Rattle.std.specs.Prelude.{◌≡◌};
ghost use Rattle.rules.specs.Hash.{fnv_byte, fnv_from, bytes, tag, leaf, count};

use crate::product::wrapping_mul;

// FNV's offset basis: the word before anything is fed.
pub const START: u64 = 14695981039346656037;

// FNV's prime.
const PRIME: u64 = 1099511628211;

// Its powers modulo 2^64, by their exponents.
const PRIME_3: u64 = 624165263380053675;

const PRIME_4: u64 = 11527715348014283921;

const PRIME_8: u64 = 2232315406967589409;

// Feeds one byte: it is xored in, and then the word is multiplied.
#[tactic(auto, unfolding(rules::specs::Hash::fnv_byte))]
pub fn fnv_byte(word: u64, byte: u8) -> u64
    ensures { result ≡ fnv_byte word byte }
{
    wrapping_mul(word ^ byte as u64, PRIME)
}

// Feeds a number of 1 byte.
pub fn feed_tag(word: u64, n: u8) -> u64
    ensures { result ≡ fnv_from word (tag n) }
{
    fnv_byte(word, n)
}

// Feeds a number of 2 bytes.
fn feed_pair(word: u64, n: u16) -> u64
    ensures { result ≡ fnv_from word (bytes 2 n) }
{
    let fed = feed_tag(word, (n % 256) as u8);
    feed_tag(fed, (n / 256) as u8)
}

// Feeds a number of 4 bytes by its halves.
fn feed_wide(word: u64, n: u32) -> u64
    ensures { result ≡ fnv_from word (leaf n) }
{
    let fed = feed_pair(word, (n % 65536) as u16);
    feed_pair(fed, (n / 65536) as u16)
}

// Feeds a number of 4 bytes.
pub fn feed_leaf(word: u64, n: u32) -> u64
    ensures { result ≡ fnv_from word (leaf n) }
{
    if n < 256 {
        return wrapping_mul(word ^ n as u64, PRIME_4);
    }
    if n < 65536 {
        let fed = feed_tag(word, (n % 256) as u8);
        return wrapping_mul(fed ^ (n / 256) as u64, PRIME_3);
    }
    feed_wide(word, n)
}

// Feeds a number of 8 bytes, of which the upper 4 are 0.
pub fn feed_count(word: u64, n: u32) -> u64
    ensures { result ≡ fnv_from word (count n) }
{
    if n < 256 {
        return wrapping_mul(word ^ n as u64, PRIME_8);
    }
    wrapping_mul(feed_leaf(word, n), PRIME_4)
}
