// Run files, read and written: 01, "Stored forms". Which byte is which field is said in specs/RunFile.antt.
//
// Every function takes any bytes. The lengths of a file are judged before they are added to a place, so no sum can wrap.
#![tactic(auto)]

ghost use Rattle.std.specs.Prelude.{◌≡◌, ◌+◌, ◌≤◌, length};
ghost use Rattle.words.specs.Wrote.{Wrote};
ghost use Rattle.runfile.specs.RunFile.{bodies, fine_program, fine_events, fine_lengths, entry_of, entry, header_of, header};
ghost use Rattle.runfile.specs.RunFile.{is_run_file, read_answer, read_limit, read_program, read_events, Writes};

use rules::{Answer, Refusal};

// "form (one byte, 1), entry count (one byte, 2)"
const FORM: u8 = 1;

const ENTRIES: u8 = 2;

// "tag 1 (program) first, then 2 (events)"
const PROGRAM_TAG: u32 = 1;

const EVENTS_TAG: u32 = 2;

// "the bodies, back to back from byte 28"
const BODIES: usize = 28;

// "Program 4 to 4,096 bytes in fours"
fn fine_program(n: usize) -> bool
    ensures { result ≡ fine_program n }
{
    (4 <= n) & (n <= 4096) & (n % 4 == 0)
}

// "events 0 to 32,768 in eights"
fn fine_events(n: usize) -> bool
    ensures { result ≡ fine_events n }
{
    (n <= 32768) & (n % 8 == 0)
}

// Both lengths follow the rules.
fn fine_lengths(program: usize, events: usize) -> bool
    ensures { result ≡ fine_lengths program events }
{
    fine_program(program) & fine_events(events)
}

// How many bytes the program has, as the contents say.
fn program_length(file: &[u8]) -> usize
    ensures { result ≡ (header.at file.now 0).program }
{
    words::get32(file, 12) as usize
}

// How many bytes the events have, as the contents say.
fn events_length(file: &[u8]) -> usize
    ensures { result ≡ (header.at file.now 0).events }
{
    words::get32(file, 24) as usize
}

// The header is that of a run file: form, entry count, tags, the offsets of bodies that stand back to back, lengths that follow the
// rules. L is not judged.
fn fine_header(file: &[u8]) -> bool
    ensures { result ≡ header.fine file.now 0 }
{
    let program = program_length(file);
    let events = events_length(file);
    if !fine_lengths(program, events) {
        return false;
    }
    (words::get8(file, 0) == FORM)
        & (words::get8(file, 1) == ENTRIES)
        & (words::get32(file, 4) == PROGRAM_TAG)
        & (words::get32(file, 8) as usize == BODIES)
        & (words::get32(file, 16) == EVENTS_TAG)
        & (words::get32(file, 20) as usize == BODIES + program)
}

// The header is that of a run file, the bodies are there, "nothing after".
fn is_run_file(file: &[u8]) -> bool
    ensures { result ≡ is_run_file file.now }
{
    if !fine_header(file) {
        return false;
    }
    file.len() == BODIES + program_length(file) + events_length(file)
}

// Whether a file is a run file: 0, or "bad run file", 10.
pub fn check(file: &[u8]) -> Answer
    ensures { result ≡ read_answer file.now }
{
    if is_run_file(file) {
        return Ok(());
    }
    Err(Refusal::BadFile)
}

// L as a run file has it, good or not: whether a card can run under it is another question. 0 where the file is refused.
pub fn limit(file: &[u8]) -> u16
    ensures { result ≡ read_limit file.now }
{
    if is_run_file(file) {
        return words::get16(file, 2);
    }
    0
}

// The program: a part of the file, empty where the file is refused.
pub fn program(file: &[u8]) -> &[u8]
    ensures { result.now ≡ read_program file.now }
{
    if is_run_file(file) {
        let end = BODIES + program_length(file);
        return &file[BODIES..end];
    }
    &file[0..0]
}

// The events: a part of the file, empty where the file is refused.
pub fn events(file: &[u8]) -> &[u8]
    ensures { result.now ≡ read_events file.now }
{
    if is_run_file(file) {
        let start = BODIES + program_length(file);
        return &file[start..];
    }
    &file[0..0]
}

// "entries of tag, offset, length (4 bytes each)"
fn put_entry(tag: u32, offset: u32, size: u32, buf: &mut [u8], at: usize)
    requires { at + 12 ≤ bodies }
    ensures { Wrote buf.old at ((entry tag).bytes (entry_of offset size)) buf.new }
{
    words::put32(buf, at, tag);
    words::put32(buf, at + 4, offset);
    words::put32(buf, at + 8, size);
}

// "form .., entry count .., L (2 bytes); contents: two entries ..; then the bodies, back to back from byte 28"
fn put_header(limit: u16, program: usize, events: usize, buf: &mut [u8])
    requires { (program ≤ 4096) × (events ≤ 32768) }
    ensures { Wrote buf.old 0 (header.bytes (header_of limit program events)) buf.new }
{
    words::put8(buf, 0, FORM);
    words::put8(buf, 1, ENTRIES);
    words::put16(buf, 2, limit);
    put_entry(PROGRAM_TAG, BODIES as u32, program as u32, buf, 4);
    let next = BODIES + program;
    put_entry(EVENTS_TAG, next as u32, events as u32, buf, 16);
}

// A body, as it is.
fn put_body(body: &[u8], buf: &mut [u8], at: usize)
    requires { at + length body.now ≤ length buf.old }
    ensures { Wrote buf.old at body.now buf.new }
{
    buf[at..at + body.len()].copy_from_slice(body);
}

// Writes the run file of a program and its events at the front of the buffer, and keeps what stands behind it. "10 for a length
// that breaks these rules, then 9"; refused, it writes nothing. L and what stands in the bodies are not judged.
pub fn write(limit: u16, program: &[u8], events: &[u8], buf: &mut [u8]) -> Answer
    ensures { Writes limit program.now events.now buf.old result buf.new }
{
    if !fine_lengths(program.len(), events.len()) {
        return Err(Refusal::BadFile);
    }
    let next = BODIES + program.len();
    if buf.len() < next + events.len() {
        return Err(Refusal::TooShort);
    }
    put_header(limit, program.len(), events.len(), buf);
    put_body(program, buf, BODIES);
    put_body(events, buf, next);
    Ok(())
}
