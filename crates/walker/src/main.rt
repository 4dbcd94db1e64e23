// Walks a run file with the two functions that keep what they work on in the caller's store: `reader::next`, over a `&mut Reader`, and
// `resident::apply`, over a `&mut Pair`. It prints what the bench prints: both are proved to print the same bytes.
//
// `walk` is the one function that calls them. The loop over it has plain values in its locals.
#![tactic(auto)]

ghost use Rattle.std.specs.Prelude.{◌≡◌};
ghost use Rattle.desk.specs.Bench.{PutsRun, printed, takes};
ghost use Rattle.reader.specs.Events.{event_count};
ghost use Rattle.walker.specs.Stretches.{from, none_yet, quiet, until_shown};

use desk::bench::{KEPT, TEXT_LENGTH, run_by, show, stop};
use resident::Applied;
use rules::Pair;
use std::io;
use text::Text;

// What a stretch of events comes to: the place behind it, the pair that it leaves, and what its last event gave.
#[derive(Clone, Copy)]
struct Stretch {
    at: usize,
    pair: Pair,
    last: Applied,
}

// What stands for the last event before the first: it was taken, and showed nothing.
fn none_yet() -> Applied
    ensures { result ≡ none_yet }
{
    Applied {
        answer: Ok(()),
        shown: None,
    }
}

// Whether an event was taken and showed the devices nothing.
#[tactic(auto, unfolding(crate::specs::Stretches::quiet))]
fn is_quiet(last: Applied) -> bool
    ensures { result ≡ quiet last.answer last.shown }
{
    last.answer.is_ok() & last.shown.is_none()
}

// The events from a place on, at most so many, until one is refused or shows the devices something. The reader and the pair stay where they
// are all the while: each event is handed out by `next`, and applied in place.
fn walk(file: &[u8], program: &[u8], at: usize, pair: Pair, events: usize) -> Stretch
    ensures { result ≡ until_shown file.now program.now (from at pair) events }
{
    let mut reader = reader::open(file, at);
    let mut resident = pair;
    let mut last = none_yet();
    for _ in 0..events {
        let event = reader::next(&mut reader);
        last = resident::apply(&mut resident, program, event);
        if !is_quiet(last) {
            break;
        }
    }
    Stretch {
        at: reader.at,
        pair: resident,
        last,
    }
}

// The events of a run file, from a fresh pair on, until one is refused: stretch by stretch, each from the place that the one before remembered.
fn take(file: &[u8], fresh: Pair, text: &mut Text)
    ensures { PutsRun (takes file.now fresh 0 (event_count file.now)) text.old text.new }
{
    let events = reader::count(file);
    let mut pair = fresh;
    let mut n: usize = 0;
    // No `for`: how far a turn comes is known only when its stretch has ended.
    while n < events {
        let stretch = walk(file, runfile::program(file), n, pair, events - n);
        if let Err(why) = stretch.last.answer {
            return stop(text, Err(why), stretch.at - 1);
        }
        show(text, stretch.last.shown);
        pair = stretch.pair;
        n = stretch.at;
    }
    stop(text, Ok(()), events);
}

// Writes what is printed of a run file, whole and alone: `main` has to show that the text is that.
fn write(rt: &impl Print, file: &[u8], text: &[u8]) -> io::Result<()>
    requires { text.now ≡ printed file.now }
{
    rt.write_all(text)
}

fn main(rt: HostRuntime) -> io::Result<()> {
    let mut buf = [0u8; KEPT];
    let n = incoming::read_full(&mut rt.stdin(), &mut buf)?;
    let mut text = [0u8; TEXT_LENGTH];
    let m = run_by(&buf[..n], &mut text, take);
    write(&rt, &buf[..n], &text[..m])
}
