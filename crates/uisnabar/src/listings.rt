// Listings, document 02, M-105: the library's functions hand on what they are given.
ghost use Rattle.std.specs.Prelude.{◌≡◌};
ghost use Rattle.uisnabar_listing.specs.ListCall.{list_returned, list_text_left, list_written_left, list_answer_left};
ghost use Rattle.uisnabar_listing.specs.ReadListingCall.{ReadListingCall};

use uisnabar_listing::{list_call, read_listing_call};

// A program's listing.
pub fn uisnabar_list(program: &[u8], text: &mut [u8], written: &mut [u8], answer: &mut [u8]) -> u32
    ensures value { result ≡ list_returned program.now text.old written.old answer.old }
    ensures text_after { text.new ≡ list_text_left program.now text.old written.old answer.old }
    ensures written_after { written.new ≡ list_written_left program.now text.old written.old answer.old }
    ensures answer_after { answer.new ≡ list_answer_left program.now text.old written.old answer.old }
{
    list_call(program, text, written, answer)
}

// A listing's program.
pub fn uisnabar_read_listing(
    text: &[u8],
    program: &mut [u8],
    written: &mut [u8],
    answer: &mut [u8],
) -> u32
    ensures { ReadListingCall text.now program.old written.old answer.old
        program.new written.new answer.new result }
{
    read_listing_call(text, program, written, answer)
}
