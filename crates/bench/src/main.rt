// The bench program: a run file on standard input; a line for each record entry, and `end A C`. What is longer than the buffer is longer
// than any run file, and is refused like any other bad one.
#![tactic(auto)]

ghost use Rattle.std.specs.Prelude.{◌≡◌};
ghost use Rattle.desk.specs.Bench.{printed};

use desk::bench;
use std::io;

// Writes what is printed of a run file, whole and alone: `main` has to show that the text is that.
fn write(rt: &impl Print, file: &[u8], text: &[u8]) -> io::Result<()>
    requires { text.now ≡ printed file.now }
{
    rt.write_all(text)
}

fn main(rt: HostRuntime) -> io::Result<()> {
    let mut buf = [0u8; bench::KEPT];
    let n = incoming::read_full(&mut rt.stdin(), &mut buf)?;
    let mut text = [0u8; bench::TEXT_LENGTH];
    let m = bench::run(&buf[..n], &mut text);
    write(&rt, &buf[..n], &text[..m])
}
