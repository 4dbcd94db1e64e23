// The probe program: what a run file cannot reach. It reads requests on standard input, and writes a line for each, as docs/PROBE.md has it.
// The lines themselves are those of the crate requests.
#![tactic(auto)]

use std::io;
use std::io::Read;

// What comes of a part is kept up to this length.
const KEPT: usize = 65536;

// "A part has at most 40,000 bytes"
const LONGEST: usize = 40000;

// Two digits for each byte of a part, and room for the other fields of a line.
const LINE_LENGTH: usize = 80064;

// "After 65,536 requests it ends too"
const MOST: usize = 65536;

// "A header of 16 bytes"
const HEADER_LENGTH: usize = 16;

// A header: the kind, L, and the lengths of the parts A, B and C.
#[derive(Clone, Copy)]
struct Request {
    kind: u8,
    limit: u16,
    a: usize,
    b: usize,
    c: usize,
}

impl Request {
    // What a header says: nothing, where its kind is not listed or its byte 1 is not zero.
    fn from_header(header: &[u8; HEADER_LENGTH]) -> Option<Request> {
        let kind = header[0];
        if !(1..=requests::KINDS).contains(&kind) || header[1] != 0 {
            return None;
        }
        Some(Request {
            kind,
            limit: words::get16(header, 2),
            a: words::get32(header, 4) as usize,
            b: words::get32(header, 8) as usize,
            c: words::get32(header, 12) as usize,
        })
    }
}

// Reads a part of n bytes to the front of its buffer, and hands it out: nothing, where it is too long or the input ends inside it.
fn read_part<'b, R: Read>(
    input: &mut R,
    buf: &'b mut [u8],
    n: usize,
) -> io::Result<Option<&'b mut [u8]>> {
    if n > LONGEST {
        return Ok(None);
    }
    let Some(part) = buf.get_mut(..n) else {
        return Ok(None);
    };
    let came = incoming::read_full(input, part)?;
    if came < n {
        return Ok(None);
    }
    Ok(Some(part))
}

// "A kind that is not listed, a byte 1 that is not zero, a longer part, or an input that ends inside a request"
fn bad(rt: &impl Print) -> io::Result<()> {
    rt.write_all(b"bad\n")
}

// Answers a request, with its parts, and writes its line.
fn answer(
    rt: &impl Print,
    request: Request,
    a: &[u8],
    b: &mut [u8],
    c: &mut [u8],
    text: &mut [u8],
) -> io::Result<()> {
    let n = requests::answer(request.kind, request.limit, a, b, c, text);
    rt.write_all(&text[..n])
}

// Answers requests until the input ends or one is bad.
fn answer_each<R: Read>(
    input: &mut R,
    rt: &impl Print,
    a: &mut [u8],
    b: &mut [u8],
    c: &mut [u8],
    text: &mut [u8],
) -> io::Result<()> {
    for _ in 0..MOST {
        let mut header = [0u8; HEADER_LENGTH];
        match incoming::read_full(input, &mut header)? {
            0 => return Ok(()),
            HEADER_LENGTH => {}
            _ => return bad(rt),
        }
        let Some(request) = Request::from_header(&header) else {
            return bad(rt);
        };
        let in_a = read_part(input, a, request.a)?;
        let in_b = read_part(input, b, request.b)?;
        let in_c = read_part(input, c, request.c)?;
        let (Some(in_a), Some(in_b), Some(in_c)) = (in_a, in_b, in_c) else {
            return bad(rt);
        };
        answer(rt, request, in_a, in_b, in_c, text)?;
    }
    Ok(())
}

fn main(rt: HostRuntime) -> io::Result<()> {
    let mut a = [0u8; KEPT];
    let mut b = [0u8; KEPT];
    let mut c = [0u8; KEPT];
    let mut text = [0u8; LINE_LENGTH];
    answer_each(&mut rt.stdin(), &rt, &mut a, &mut b, &mut c, &mut text)
}
