// Listings as C calls give them: document 02, M-105. The library's functions hand on to these.
#![tactic(auto)]

ghost use Rattle.std.specs.Prelude.{◌≡◌};
ghost use Rattle.uisnabar_listing.specs.ListCall.{list_returned, list_text_left, list_written_left, list_answer_left};
ghost use Rattle.uisnabar_listing.specs.ReadListingCall.{ReadListingCall};

use listing_reader::read_listing;
use listing_writer::list;
use reply::{misfit, tell_number, told_fits};

// A program's listing. ANSWER comes first, so nothing is listed for a caller who cannot be told.
pub fn list_call(program: &[u8], text: &mut [u8], written: &mut [u8], answer: &mut [u8]) -> u32
    ensures value { result ≡ list_returned program.now text.old written.old answer.old }
    ensures text_after { text.new ≡ list_text_left program.now text.old written.old answer.old }
    ensures written_after { written.new ≡ list_written_left program.now text.old written.old answer.old }
    ensures answer_after { answer.new ≡ list_answer_left program.now text.old written.old answer.old }
{
    if !told_fits(written.len(), answer.len()) {
        return misfit();
    }
    let listed = list(program, text);
    tell_number(listed, written, answer)
}

// A listing's program. ANSWER comes first.
pub fn read_listing_call(
    text: &[u8],
    program: &mut [u8],
    written: &mut [u8],
    answer: &mut [u8],
) -> u32
    ensures { ReadListingCall text.now program.old written.old answer.old
        program.new written.new answer.new result }
{
    if !told_fits(written.len(), answer.len()) {
        return misfit();
    }
    let done = read_listing(text, program);
    tell_number(done, written, answer)
}
