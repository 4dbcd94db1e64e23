// A function for each kind of request.
ghost use Rattle.std.specs.Prelude.{◌≡◌, length};
ghost use Rattle.image.specs.Stores.{retire_leaves};
ghost use Rattle.rules.specs.Program.{under};
ghost use Rattle.runfile.specs.RunFile.{written};
ghost use Rattle.text.specs.Texts.{Puts};
ghost use Rattle.requests.specs.Lines.{applied_line, bad_line, bare_line, bytes_line, load_line, parts_fields, read_line, retire_line, saved_into, save_line, step_line, write_line};

use crate::fields;
use rules::{Answer, Pair};
use text::Text;

// `KIND ANSWER`, alone.
fn bare(kind: u8, answer: Answer, text: &mut Text)
    ensures { Puts text.old (bare_line kind answer) text.new }
{
    fields::put_front(text, kind, answer);
    text.put_line_end();
}

// `KIND ANSWER HEX`, of these bytes.
fn with_bytes(kind: u8, answer: Answer, bytes: &[u8], text: &mut Text)
    ensures { Puts text.old (bytes_line kind answer bytes.now) text.new }
{
    fields::put_front(text, kind, answer);
    text.put_hex_field(bytes);
    text.put_line_end();
}

// 1: the image is loaded, and saved again.
pub fn load(image: &[u8], text: &mut Text)
    ensures { Puts text.old (load_line image.now) text.new }
{
    let loaded = image::load(image);
    fields::put_front(text, 1, loaded.answer);
    if let Ok(()) = loaded.answer {
        fields::put_saved(text, loaded.pair);
    }
    text.put_line_end();
}

// The event is applied to a pair that was loaded.
fn applied(program: &[u8], pair: Pair, event: &[u8], text: &mut Text)
    ensures { Puts text.old (applied_line program.now pair event.now) text.new }
{
    let outcome = monitor::step(program, pair, event);
    fields::put_front(text, 2, outcome.answer);
    fields::put_shown(text, outcome.shown);
    fields::put_saved(text, outcome.pair);
    text.put_line_end();
}

// 2: the image is loaded, and the event applied.
pub fn apply(image: &[u8], program: &[u8], event: &[u8], text: &mut Text)
    ensures { Puts text.old (step_line image.now program.now event.now) text.new }
{
    let loaded = image::load(image);
    match loaded.answer {
        Ok(()) => applied(program, loaded.pair, event, text),
        Err(why) => bare(2, Err(why), text),
    }
}

// 3: the store is retired.
pub fn retire(program: &[u8], l: u16, store: &mut [u8], text: &mut Text)
    ensures spelled { Puts text.old (retire_line program.now l (length store.old)) text.new }
    ensures store { store.new ≡ retire_leaves (under program.now l) (length store.old) }
{
    let answer = image::retire(program, l, store);
    with_bytes(3, answer, store, text);
}

// 4: a run file is written into the buffer.
pub fn write(l: u16, program: &[u8], events: &[u8], buf: &mut [u8], text: &mut Text)
    ensures spelled { Puts text.old (write_line l program.now events.now buf.old) text.new }
    ensures buffer { buf.new ≡ written l program.now events.now buf.old }
{
    let answer = runfile::write(l, program, events, buf);
    with_bytes(4, answer, buf, text);
}

// What a run file says: L, its program and its events.
fn put_parts(file: &[u8], text: &mut Text)
    ensures { Puts text.old (parts_fields file.now) text.new }
{
    text.put_number_field(u64::from(runfile::limit(file)));
    text.put_hex_field(runfile::program(file));
    text.put_hex_field(runfile::events(file));
}

// 5: a run file is read.
pub fn read(file: &[u8], text: &mut Text)
    ensures { Puts text.old (read_line file.now) text.new }
{
    let answer = runfile::check(file);
    fields::put_front(text, 5, answer);
    if let Ok(()) = answer {
        put_parts(file, text);
    }
    text.put_line_end();
}

// 6: the image is loaded, and saved into the buffer.
pub fn save(image: &[u8], buf: &mut [u8], text: &mut Text)
    ensures spelled { Puts text.old (save_line image.now buf.old) text.new }
    ensures buffer { buf.new ≡ saved_into image.now buf.old }
{
    let loaded = image::load(image);
    match loaded.answer {
        Ok(()) => {
            let kept = image::save(loaded.pair, buf);
            with_bytes(6, kept, buf, text);
        }
        Err(why) => bare(6, Err(why), text),
    }
}

// A request of any other kind.
#[tactic(auto, unfolding(crate::specs::Lines::bad_line))]
pub fn bad(text: &mut Text)
    ensures { Puts text.old bad_line text.new }
{
    text.put_bytes(b"bad\n");
}
