// The listing reader: one walk that tells whether a text is a listing, one that writes the program. Document 02, M-105.
#![tactic(auto)]

mod fill;
mod walk;

ghost use Rattle.std.specs.Prelude.{◌≡◌};
ghost use Rattle.listing_spec.specs.Reading.{Assembles};
ghost use Rattle.listing_spec.specs.Writing.{transcribed_by};

use answer::Refusal;
use fill::put_forms;
use walk::walk_lines;

// The program of a listing; or the place where the text leaves every valid one, or the bytes needed. A refusal changes
// no byte.
pub fn read_listing(text: &[u8], program: &mut [u8]) -> Result<u64, Refusal>
    ensures { Assembles text.now program.old (transcribed_by result) program.new }
{
    let lines = match walk_lines(text) {
        Ok(lines) => lines,
        Err(stop) => {
            let place = stop.at as u32;
            return Err(Refusal::Listing { place });
        }
    };
    let needed = 48 * lines;
    if program.len() < needed {
        let place = needed as u32;
        return Err(Refusal::Short { place });
    }
    put_forms(text, lines, program);
    Ok(needed as u64)
}
