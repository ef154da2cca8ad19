// Before anything is written the whole listing is tested: its first line, each line behind it, and then how long the converted text will be,
// which is counted while the lines are tested.
ghost use Rattle.std.specs.Prelude.{◌≡◌, ◌+◌, ◌*◌, ◌≤◌, OnOk, length};
ghost use Rattle.rules.specs.Building.{first_failed};
ghost use Rattle.rules.specs.Listings.{max_line, max_listing};
ghost use Rattle.rules.specs.Converting.{line_tests};
ghost use Rattle.rules.specs.Causes.{cause_of};
ghost use Rattle.lines.specs.Header.{StartsWithHeader};
ghost use Rattle.converting.specs.Testing.{refusal_of, too_much, TestedLine, TestedLines, Tested};

use crate::parts::converted_length;
use crate::types::{Refusal, Sizes};
use lines::header::{SECOND_LINE, header_cause};
use lines::letters::is_inherent_line;
use lines::meaning::is_meant;
use lines::pieces::piece_end;
use rules::limits::{MAX_LINE, MAX_LISTING};
use rules::types::{Cause, Edition};

// Why a line is refused, if it is. An `i` line that means something is one of the second edition.
fn line_cause(line: &[u8], edition: Edition) -> Result<(), Cause>
    ensures tests { cause_of result ≡ first_failed (line_tests edition line.now) }
    ensures short { OnOk result (length line.now ≤ max_line) }
{
    if line.len() > MAX_LINE {
        return Err(Cause::BadLength);
    }
    if !is_meant(line, edition) {
        return Err(Cause::BadLine);
    }
    if is_inherent_line(line) {
        return Err(Cause::InherentLine);
    }
    Ok(())
}

// One line: the sizes with it.
fn line_tested(line: &[u8], edition: Edition, number: u32, sizes: Sizes) -> Result<Sizes, Refusal>
    requires { sizes.whole ≤ 4 * max_listing }
    ensures { TestedLine edition line.now number sizes result }
{
    if let Err(cause) = line_cause(line, edition) {
        return Err(Refusal {
            line: number,
            cause,
        });
    }
    let length = converted_length(line, edition);
    let long = (length > MAX_LINE + 1).then_some(number);
    Ok(Sizes {
        whole: sizes.whole + length,
        too_long: sizes.too_long.or(long),
    })
}

// The lines from the second on, and that a line feed ends the last.
fn lines_tested(listing: &[u8], edition: Edition) -> Result<Sizes, Refusal>
    requires { StartsWithHeader edition listing.now }
    ensures { TestedLines edition listing.now result }
{
    let mut sizes = Sizes {
        whole: SECOND_LINE,
        too_long: None,
    };
    let mut number = 2;
    let mut start = SECOND_LINE;
    // From line end to line end, as where a listing is run.
    while start < listing.len() {
        let end = piece_end(listing, start, b'\n');
        if end == listing.len() {
            return Err(Refusal {
                line: number,
                cause: Cause::BadLength,
            });
        }
        sizes = line_tested(&listing[start..end], edition, number, sizes)?;
        start = end + 1;
        number += 1;
    }
    Ok(sizes)
}

// The whole is tested first, and then the first line that is too long.
fn sizes_tested(sizes: Sizes) -> Result<(), Refusal>
    ensures { refusal_of result ≡ too_much sizes }
{
    if sizes.whole > MAX_LISTING {
        return Err(Refusal {
            line: 1,
            cause: Cause::BadLength,
        });
    }
    match sizes.too_long {
        Some(line) => Err(Refusal {
            line,
            cause: Cause::BadLength,
        }),
        None => Ok(()),
    }
}

// The edition of a listing that can be converted, or the line that is refused.
pub fn tested(listing: &[u8]) -> Result<Edition, Refusal>
    ensures { Tested listing.now result }
{
    let edition = match header_cause(listing) {
        Ok(edition) => edition,
        Err(cause) => return Err(Refusal { line: 1, cause }),
    };
    let sizes = lines_tested(listing, edition)?;
    sizes_tested(sizes)?;
    Ok(edition)
}
