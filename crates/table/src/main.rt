// The table program: a label on standard input, its four parts on standard output. Document 01, "Draws, recipe, label".
#![tactic(auto)]

mod made;
mod output;

use console::read_full;
use output::table_label;

// A byte more than the longest label is read: it is refused whatever follows it.
fn main(rt: HostRuntime) {
    let mut text = [0u8; 38];
    let got = read_full(&mut rt.reader(), &mut text);
    let mut out = [0u8; 49008];
    let size = table_label(&text[..got], &mut out);
    let _ = rt.write_all(&out[..size]);
}
