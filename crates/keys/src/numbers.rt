// Numbers of 1, 4 and 8 bytes, lowest byte first, at the beginning of the rest of a lent key. One that doesn't fit is not written, and the
// answer is how many bytes it has all the same.
ghost use Rattle.rules.specs.Hash.{tag, leaf, count, flag, name_bytes};
ghost use Rattle.rules.specs.declared.types.Name.TheVariants.{WalkNumber as walk_number, StoreNumber as store_number};
ghost use Rattle.keys.specs.Put.{Put, PutCounted};

// Bytes as they are, all or none.
fn put(key: &mut [u8], bytes: &[u8]) -> usize
    ensures { Put bytes.now key.old key.new result }
{
    let end = bytes.len();
    if end <= key.len() {
        key[..end].copy_from_slice(bytes);
    }
    end
}

// A tag: 1 byte.
pub fn put_tag(key: &mut [u8], n: u8) -> usize
    ensures { Put (tag n) key.old key.new result }
{
    put(key, &[n])
}

// A leaf: 4 bytes, lowest byte first.
pub fn put_leaf(key: &mut [u8], n: u32) -> usize
    ensures { Put (leaf n) key.old key.new result }
{
    put(key, &n.to_le_bytes())
}

// A count or a walk number: 8 bytes.
pub fn put_count(key: &mut [u8], many: usize) -> usize
    ensures { Put (count many) key.old key.new result }
{
    put(key, &many.to_le_bytes())
}

// A count that is asked for only where its 8 bytes fit.
pub fn put_counted<F: FnOnce() -> usize>(key: &mut [u8], many: F) -> usize
    requires { F.IsAlwaysCallable many }
    ensures { PutCounted (F.post many) key.old key.new result }
{
    if key.len() < 8 {
        return 8;
    }
    put_count(key, many())
}

// A flag: a byte, 1 for yes and 0 for no.
pub fn put_flag(key: &mut [u8], yes: bool) -> usize
    ensures { Put (flag yes) key.old key.new result }
{
    put_tag(key, u8::from(yes))
}

// A use of what has a walk number: tag 0 and the walk number, or neither.
pub fn put_walk_number(key: &mut [u8], n: u32) -> usize
    ensures { Put (name_bytes (walk_number n)) key.old key.new result }
{
    if key.len() < 9 {
        return 9;
    }
    let at = put_tag(key, 0);
    let rest = at.min(key.len());
    at.saturating_add(put_count(&mut key[rest..], n as usize))
}

// A use of what has none: tag 1 and the number in the store, or neither.
pub fn put_store_number(key: &mut [u8], n: u32) -> usize
    ensures { Put (name_bytes (store_number n)) key.old key.new result }
{
    if key.len() < 5 {
        return 5;
    }
    let at = put_tag(key, 1);
    let rest = at.min(key.len());
    at.saturating_add(put_leaf(&mut key[rest..], n))
}
