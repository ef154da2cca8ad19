// `twins`, `sums` and `convert`: a listing's bytes in, what is printed for it out.
ghost use Rattle.rules.specs.Listings.{twins_program, sums_program};
ghost use Rattle.equivalence.specs.MappingWords.{empty_words};
ghost use Rattle.listing.specs.Calls.{ListingAnswers, buffers};
ghost use Rattle.warzhigo_c.specs.Codes.{output_means, ConvertAnswered};

use crate::answers::{Output, of_converted, of_listed};

#[unsafe(no_mangle)]
pub extern "C" fn wz_twins(
    listing: &[u8],
    store: &mut [u32],
    mapping: &mut [u32],
    out: &mut [u8],
) -> Output
    ensures { ListingAnswers twins_program listing.now (buffers store.old mapping.old out.old) (buffers store.new mapping.new out.new) (output_means result) }
{
    of_listed(listing::calls::twins(listing, store, mapping, out))
}

#[unsafe(no_mangle)]
pub extern "C" fn wz_sums(listing: &[u8], store: &mut [u32], out: &mut [u8]) -> Output
    ensures { ListingAnswers sums_program listing.now (buffers store.old empty_words out.old) (buffers store.new empty_words out.new) (output_means result) }
{
    of_listed(listing::calls::sums(listing, store, out))
}

#[unsafe(no_mangle)]
pub extern "C" fn wz_convert(listing: &[u8], out: &mut [u8]) -> Output
    ensures { ConvertAnswered listing.now out.old out.new (output_means result) }
{
    of_converted(converting::calls::convert(listing, out))
}
