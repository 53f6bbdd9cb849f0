// Reads a deck from standard input, and prints what it says or why it is refused.
#![tactic(auto)]

ghost use Rattle.std.specs.Prelude.{◌≤◌, length, IfOk};

use listing::report::report;
use std::io;
use std::io::{Read, Write};

// One byte more than the longest deck: all that the size question needs to see.
const ENOUGH: usize = 15364;

// Fills the buffer from its front until it is full or the input ends, however small the pieces are. The program reads into one
// buffer of the most bytes that matter: `read_to_end` wants a `Vec`, and `read_exact` refuses an input that ends early.
fn fill<R: Read>(input: &mut R, buf: &mut [u8]) -> io::Result<usize>
    ensures { IfOk result (λ n. n ≤ length buf.new) }
{
    let mut n = 0;
    while n < buf.len() {
        let got = input.read(&mut buf[n..])?;
        if got == 0 {
            break;
        }
        n += got;
    }
    Ok(n)
}

fn main(rt: HostRuntime) -> io::Result<()> {
    let mut buf = [0u8; ENOUGH];
    let mut input = rt.stdin();
    let n = fill(&mut input, &mut buf)?;
    let out = report(rt.alloc(), &buf[0..n])?;
    let mut stdout = rt.stdout();
    stdout.write_all(out.as_slice())
}

#[cfg(test)]
mod tests {
    use super::*;
    use std::test::Fail;

    // An input that hands out the numbers 0, 1, 2 and so on, a few at a time.
    #[derive(Drop)]
    struct Pieces {
        next: u8,
        left: usize,
        piece: usize,
    }

    impl Read for Pieces {
        fn read(&mut self, buf: &mut [u8]) -> io::Result<usize> {
            let n = self.piece.min(self.left).min(buf.len());
            self.left -= n;
            // Over the bytes of the piece.
            for byte in buf[..n].iter_mut() {
                *byte = self.next;
                self.next = self.next.wrapping_add(1);
            }
            Ok(n)
        }
    }

    #[test]
    fn pieces_are_joined(rt: HostRuntime) -> Result<(), Fail> {
        let mut buf = [255u8; 12];
        let mut input = Pieces {
            next: 0,
            left: 10,
            piece: 3,
        };
        assert_eq!(rt; fill(&mut input, &mut buf)?, 10);
        assert_eq!(rt; buf, [0, 1, 2, 3, 4, 5, 6, 7, 8, 9, 255, 255]);
        Ok(())
    }

    #[test]
    fn an_endless_input_ends(rt: HostRuntime) -> Result<(), Fail> {
        let mut buf = [0u8; ENOUGH];
        let mut input = Pieces {
            next: 0,
            left: usize::MAX,
            piece: 1000,
        };
        assert_eq!(rt; fill(&mut input, &mut buf)?, 15364);
        assert_eq!(rt; input.left, usize::MAX - 15364);
        Ok(())
    }
}
