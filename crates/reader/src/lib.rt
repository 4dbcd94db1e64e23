// The reader: 01, "It is read through a reader over the run file that remembers its place". A place is the number of events that
// stand before it.
//
// `count`, `event_at` and `place_after` do the work, on a slice and a number. `open`, `next` and `current` are thin functions over a `Reader`,
// and `read_at` stands above them for callers that have a file and a place.
#![tactic(auto)]

ghost use Rattle.std.specs.Prelude.{◌≡◌};
ghost use Rattle.reader.specs.Events.{event_count, event_at, place_after};
ghost use Rattle.reader.specs.Place.{reader_at, stands_at, moved_on};

// "Events: 8 bytes"
const EVENT: usize = 8;

// A run file, and the place in it: how many of its events have been handed out.
#[derive(Clone, Copy)]
pub struct Reader<'a> {
    pub file: &'a [u8],
    pub at: usize,
}

// How many events a run file has; none, where the file is refused.
pub fn count(file: &[u8]) -> usize
    ensures { result ≡ event_count file.now }
{
    runfile::events(file).len() / EVENT
}

// The event at a place of a run file: a part of the file, empty where there is none.
pub fn event_at(file: &[u8], at: usize) -> &[u8]
    ensures { result.now ≡ event_at file.now at }
{
    let events = runfile::events(file);
    if events.len() / EVENT <= at {
        return &events[0..0];
    }
    let start = at * EVENT;
    let end = start + EVENT;
    &events[start..end]
}

// The place behind it; at the end of the events, the same place.
pub fn place_after(file: &[u8], at: usize) -> usize
    ensures { result ≡ place_after file.now at }
{
    if count(file) <= at {
        return at;
    }
    at + 1
}

// A reader over a run file, at a place.
pub fn open<'a>(file: &'a [u8], at: usize) -> Reader<'a>
    ensures { result ≡ reader_at file.entry at }
{
    Reader { file, at }
}

// Hands out the next event, and remembers the place behind it.
pub fn next<'s, 'a>(reader: &'s mut Reader<'a>) -> &'a [u8]
    ensures { (result.now ≡ stands_at reader.old) × (reader.new ≡ moved_on reader.old) }
{
    let event = event_at(reader.file, reader.at);
    reader.at = place_after(reader.file, reader.at);
    event
}

// The event that a reader stands at.
pub fn current<'a>(reader: Reader<'a>) -> &'a [u8]
    ensures { result.now ≡ stands_at reader.entry }
{
    event_at(reader.file, reader.at)
}

// The same for a file and a place: whoever calls this one needs to know nothing of readers.
pub fn read_at(file: &[u8], at: usize) -> &[u8]
    ensures { result.now ≡ event_at file.now at }
{
    current(open(file, at))
}
