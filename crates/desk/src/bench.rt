// The bench: 01, "The bench program reads a run file .., stops at the first refusal, prints a line per record entry (operation, device,
// word, in decimal) and `end A C`: the refusal or 0, and the events taken." What it prints is spelled at the front of a lent text.
ghost use Rattle.std.specs.Prelude.{◌≡◌, ◌≤◌, length};
ghost use Rattle.reader.specs.Events.{event_at, event_count};
ghost use Rattle.rules.specs.Bytes.{stepped};
ghost use Rattle.runfile.specs.RunFile.{read_program};
ghost use Rattle.text.specs.Lines.{entry_length};
ghost use Rattle.text.specs.Texts.{Puts};
ghost use Rattle.desk.specs.Bench.{Prints, PutsRun, TakesEvents, bench_run, bench_start, lines, printed, shown_line, stopped, takes};

use rules::{Answer, Outcome, Pair, RecordEntry};
use text::Text;

// What comes is kept up to this length: the longest run file has 36,892 bytes.
pub const KEPT: usize = 65536;

// The longest text that is printed of any run file: 4,096 record entries, and the end.
pub const TEXT_LENGTH: usize = 86028;

// `end A C`
pub fn stop(text: &mut Text, answer: Answer, taken: usize)
    ensures { Puts text.old (lines (stopped answer taken)) text.new }
{
    text.put_end_line(answers::number(answer), taken);
}

// "a line per record entry"
#[tactic(auto, unfolding(crate::specs::Bench::line_of, crate::specs::Bench::shown_line))]
pub fn show(text: &mut Text, shown: Option<RecordEntry>)
    ensures spelled { Puts text.old (shown_line shown) text.new }
    ensures short { length (shown_line shown) ≤ entry_length }
{
    if let Some(e) = shown {
        text.put_entry_line(e.op.0, e.device, e.word);
    }
}

// The event at place n, on the pair.
fn turn(file: &[u8], pair: Pair, n: usize) -> Outcome
    ensures { result ≡ stepped (read_program file.now) pair (event_at file.now n) }
{
    monitor::step(runfile::program(file), pair, reader::read_at(file, n))
}

// The events of a run file, from a fresh pair on, until one is refused.
fn take(file: &[u8], fresh: Pair, text: &mut Text)
    ensures { PutsRun (takes file.now fresh 0 (event_count file.now)) text.old text.new }
{
    let events = reader::count(file);
    let mut pair = fresh;
    for n in 0..events {
        let outcome = turn(file, pair, n);
        if let Err(why) = outcome.answer {
            return stop(text, Err(why), n);
        }
        show(text, outcome.shown);
        pair = outcome.pair;
    }
    stop(text, Ok(()), events);
}

// A program and L are tried, and then the events.
fn start_by<F: Fn(&[u8], Pair, &mut Text)>(file: &[u8], text: &mut Text, take: F)
    requires callable { F.IsAlwaysCallable take }
    requires takes { TakesEvents (F.post take) }
    ensures { PutsRun (bench_start file.now) text.old text.new }
{
    let made = outcomes::set_up(runfile::program(file), runfile::limit(file));
    match made.answer {
        Ok(()) => take(file, made.pair, text),
        Err(why) => stop(text, Err(why), 0),
    }
}

// The run file is tried first.
fn open_by<F: Fn(&[u8], Pair, &mut Text)>(file: &[u8], text: &mut Text, take: F)
    requires callable { F.IsAlwaysCallable take }
    requires takes { TakesEvents (F.post take) }
    ensures { PutsRun (bench_run file.now) text.old text.new }
{
    match runfile::check(file) {
        Ok(()) => start_by(file, text, take),
        Err(why) => stop(text, Err(why), 0),
    }
}

// Runs a run file, any bytes, and spells what is printed of it at the front of the text, where `take` takes its events, one way or another.
// It answers how many bytes stand there: all that are printed, where the text has TEXT_LENGTH bytes.
pub fn run_by<F: Fn(&[u8], Pair, &mut Text)>(file: &[u8], text: &mut [u8], take: F) -> usize
    requires callable { F.IsAlwaysCallable take }
    requires takes { TakesEvents (F.post take) }
    ensures { Prints (printed file.now) text.old text.new result }
{
    let mut text = Text::new(text);
    open_by(file, &mut text, take);
    text.len()
}

// The same, one event after another.
pub fn run(file: &[u8], text: &mut [u8]) -> usize
    ensures { Prints (printed file.now) text.old text.new result }
{
    run_by(file, text, take)
}
