// One walk over the lines: are they a listing's?
ghost use Rattle.std.specs.Prelude.{◌≡◌};
ghost use Rattle.listing_reader.specs.Walk.{WalkRead};

use listing_line::read_line;
use text_fields::Stop;

// Line by line, up to the first byte that no listing has there: how many lines there are.
pub(crate) fn walk_lines(text: &[u8]) -> Result<usize, Stop>
    ensures { WalkRead text.now result }
{
    let mut at = 0;
    let mut lines = 0;
    while at < text.len() {
        if lines == 1048576 {
            return Err(Stop { at }); // nothing follows line 2^20
        }
        let line = read_line(text, at)?;
        at = line.at;
        lines += 1;
    }
    if lines == 0 {
        return Err(Stop { at }); // a listing has a line
    }
    Ok(lines)
}
