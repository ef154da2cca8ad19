// How long the lent buffers are.
ghost use Rattle.std.specs.Prelude.{◌≡◌};
ghost use Rattle.rules.specs.Keys.{longest_key};
ghost use Rattle.rules.specs.Listings.{max_listing, max_output};
ghost use Rattle.layout.specs.Columns.{buffer_length};
ghost use Rattle.fragments.specs.Index.{index_length};
ghost use Rattle.equivalence.specs.MappingWords.{mapping_length};

// The words of a store; all 0 is an empty one.
#[unsafe(no_mangle)]
pub extern "C" fn wz_store_words() -> usize
    ensures { result ≡ buffer_length }
{
    listing::calls::STORE
}

// The words of a mapping; all 4294967295 is an empty one.
#[unsafe(no_mangle)]
pub extern "C" fn wz_mapping_words() -> usize
    ensures { result ≡ mapping_length }
{
    listing::calls::MAPPING
}

// The bytes that `wz_twins` and `wz_sums` want for what they print.
#[unsafe(no_mangle)]
pub extern "C" fn wz_output_bytes() -> usize
    ensures { result ≡ max_output }
{
    listing::calls::ROOM
}

// The bytes that `wz_convert` wants for what it prints.
#[unsafe(no_mangle)]
pub extern "C" fn wz_converted_bytes() -> usize
    ensures { result ≡ max_listing }
{
    converting::calls::ROOM
}

// Bytes that every key fits into.
#[unsafe(no_mangle)]
pub extern "C" fn wz_key_bytes() -> usize
    ensures { result ≡ longest_key }
{
    keys::keys::LONGEST_KEY
}

// The words that an index of a list of renamed types is made in.
#[unsafe(no_mangle)]
pub extern "C" fn wz_index_words() -> usize
    ensures { result ≡ index_length }
{
    fragments::indexing::INDEX_LENGTH
}
