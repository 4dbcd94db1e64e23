// Reads what comes, up to the length of a buffer.
#![tactic(auto)]

ghost use Rattle.std.specs.Prelude.{ℕ, ◌<◌, IfOk, OnErr, length, take};
ghost use Rattle.std.specs.Io.{ReadsAtMost};
ghost use Rattle.std.specs.Io.KnownBytes.{Consumes, IsAtEnd};

use std::io;
use std::io::Read;

// Reads until the buffer is full or the input ends, and answers how many bytes came: they stand at the front of the buffer.
pub fn read_full<R: Read>(input: &mut R, buf: &mut [u8]) -> io::Result<usize>
    ensures bound { ReadsAtMost result buf.new }
    ensures bytes { IfOk result (λ n. Consumes (R.remaining input.old) (R.remaining input.new) (take n buf.new)) }
    ensures end { IfOk result (λ n. n < length buf.new → IsAtEnd (R.remaining input.new)) }
    ensures failed { OnErr result ((n : ℕ) × Consumes (R.remaining input.old) (R.remaining input.new) (take n buf.new)) }
{
    let mut done = 0;
    // No `for`: how far a turn comes is known only when the read has brought something.
    while done < buf.len() {
        let n = input.read(&mut buf[done..])?;
        if n == 0 {
            break;
        }
        done += n;
    }
    Ok(done)
}

#[cfg(test)]
mod tests {
    use super::*;
    use std::io::ErrorKind;
    use std::test::Fail;

    // Gives a byte at a time, counted down to 1; then it is at its end, or fails.
    #[derive(Drop)]
    struct Drips {
        left: u8,
        fails: bool,
    }

    impl Read for Drips {
        fn read(&mut self, buf: &mut [u8]) -> io::Result<usize> {
            if self.left == 0 {
                if self.fails {
                    return Err(io::Error::from(ErrorKind::BrokenPipe));
                }
                return Ok(0);
            }
            if buf.is_empty() {
                return Ok(0);
            }
            buf[0] = self.left;
            self.left -= 1;
            Ok(1)
        }
    }

    #[test]
    fn reads_to_the_end(rt: HostRuntime) -> Result<(), Fail> {
        let mut buf = [9u8; 6];
        let n = read_full(
            &mut Drips {
                left: 5,
                fails: false,
            },
            &mut buf,
        )?;
        assert_eq!(rt; n, 5);
        assert_eq!(rt; buf, [5, 4, 3, 2, 1, 9]);
        Ok(())
    }

    #[test]
    fn reads_until_the_buffer_is_full(rt: HostRuntime) -> Result<(), Fail> {
        let mut input = Drips {
            left: 5,
            fails: true,
        };
        let mut buf = [9u8; 3];
        assert_eq!(rt; read_full(&mut input, &mut buf)?, 3);
        assert_eq!(rt; buf, [5, 4, 3]);
        assert_eq!(rt; input.left, 2);
        Ok(())
    }

    #[test]
    fn fails_where_a_read_fails(rt: HostRuntime) -> Result<(), Fail> {
        let mut input = Drips {
            left: 5,
            fails: true,
        };
        let mut buf = [9u8; 6];
        match read_full(&mut input, &mut buf) {
            Ok(_) => assert!(rt; false, "it is full of what did not come"),
            Err(e) => assert_eq!(rt; e.kind(), ErrorKind::BrokenPipe),
        }
        Ok(())
    }

    #[test]
    fn reads_a_slice(rt: HostRuntime) -> Result<(), Fail> {
        let mut input: &[u8] = b"abcd";
        let mut buf = [0u8; 3];
        assert_eq!(rt; read_full(&mut input, &mut buf)?, 3);
        assert_eq!(rt; buf, *b"abc");
        assert_eq!(rt; read_full(&mut input, &mut buf)?, 1);
        assert_eq!(rt; buf, *b"dbc");
        assert_eq!(rt; read_full(&mut input, &mut buf)?, 0);
        Ok(())
    }
}
