// The lines that answer the probe's requests, as docs/PROBE.md has them: each is spelled at the front of a lent text.
#![tactic(auto)]

ghost use Rattle.requests.specs.Answers.{Answers, Spells, answered};

mod fields;
mod kinds;

use text::Text;

// How many kinds there are: they are counted from 1.
pub const KINDS: u8 = 6;

// Spells the line of a request, by its kind.
fn spell(kind: u8, limit: u16, a: &[u8], b: &mut [u8], c: &mut [u8], text: &mut Text)
    ensures { Spells (answered kind limit a.now b.old c.old) text.old b.new c.new text.new }
{
    match kind {
        1 => kinds::load(a, text),
        2 => kinds::apply(a, b, c, text),
        3 => kinds::retire(a, limit, b, text),
        4 => kinds::write(limit, a, b, c, text),
        5 => kinds::read(a, text),
        6 => kinds::save(a, c, text),
        _ => kinds::bad(text),
    }
}

// Answers a request of this kind and L, with the parts A, B and C: its line at the front of the text, and how many bytes it has. A line that
// would fill the text or more is not whole there, and 0 is answered. B and C are left as the kind leaves them.
pub fn answer(kind: u8, limit: u16, a: &[u8], b: &mut [u8], c: &mut [u8], text: &mut [u8]) -> usize
    ensures { Answers (answered kind limit a.now b.old c.old) text.old b.new c.new text.new result }
{
    let room = text.len();
    let mut line = Text::new(text);
    spell(kind, limit, a, b, c, &mut line);
    let n = line.len();
    if n < room { n } else { 0 }
}
