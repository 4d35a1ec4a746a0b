//! Text: words of byte strings, decimals, and the lines of a source.
//!
//! A script is lines of words with one space between two. What is a command is for the crates above.
#![tactic(auto)]

mod block;
pub mod cuts;
pub mod decimals;
pub mod lines;
pub mod piece;
pub mod print;
pub mod words;

#[cfg(test)]
mod tests {
    use crate::decimals::{decimal, put_decimal};
    use crate::lines::Lines;
    use crate::piece::{Piece, TextFault};
    use crate::words::{decode_word, encode_word};
    use ltx_model::memory::NoMemory;
    use ltx_outside::{Failed, MemSource, Source};
    use std::test::Fail;

    /// A source that gives at most three bytes a call.
    #[derive(Drop)]
    struct Narrow(MemSource);

    impl Source for Narrow {
        ghost use Rattle.std.specs.Prelude.{None};

        ghost left = { λ _. None };

        ghost reads = { λ _. None };

        ghost faults = { λ s. s.0.calls.faults };

        fn read(&mut self, buffer: &mut [u8]) -> Result<usize, Failed> {
            let most = buffer.len().min(3);
            self.0.read(&mut buffer[..most])
        }
    }

    /// Appends what the next call answers.
    fn tell<S: Source>(
        lines: &mut Lines,
        source: &mut S,
        out: &mut Vec<u8>,
    ) -> Result<(), NoMemory> {
        match lines.next(source) {
            Ok(Piece::Line(line)) => out.extend_from_slice(&line)?,
            Ok(Piece::TooLong) => out.extend_from_slice(b"(long)")?,
            Ok(Piece::End) => out.extend_from_slice(b"(end)")?,
            Err(TextFault::ReadFault) => out.extend_from_slice(b"(fault)")?,
            Err(TextFault::TooMuch) => out.extend_from_slice(b"(much)")?,
            Err(TextFault::NoMemory) => return Err(NoMemory),
        }
        out.push(b',')?;
        Ok(())
    }

    /// Appends the line that is lent, where there is one, and lets it go.
    fn tell_lent(lines: &mut Lines, out: &mut Vec<u8>) -> Result<(), NoMemory> {
        let Some(line) = lines.peek() else {
            return Ok(());
        };
        let length = line.len();
        out.extend_from_slice(line)?;
        lines.skip_line(length);
        out.push(b';')?;
        Ok(())
    }

    #[test]
    fn words_and_decimals(rt: HostRuntime) -> Result<(), Fail> {
        let alloc = rt.alloc();
        let cases: [(&[u8], &[u8]); 7] = [
            (b"", b"%"),
            (b"a b", b"a%20b"),
            (b"k00123", b"k00123"),
            (b"k0000123456", b"k0000123456"),
            (b"k0000123 k00 ", b"k0000123%20k00%20"),
            (b"100%", b"100%25"),
            (b"\xff\x7f~!\n", b"%FF%7F~!%0A"),
        ];
        for (bytes, word) in cases {
            let mut out = Vec::new(alloc);
            encode_word(bytes, &mut out)?;
            assert_eq!(rt; out.as_slice(), word);
            let read = decode_word(alloc, word)?.expect(&rt, "a word");
            assert_eq!(rt; read.as_slice(), bytes);
        }
        let others: [&[u8]; 7] = [b"", b"%41", b"%2f", b"a b", b"a%", b"%G0", b"\x7f"];
        for other in others {
            assert!(rt; decode_word(alloc, other)?.is_none());
        }
        let mut out = Vec::new(alloc);
        put_decimal(18_446_744_073_709_551_615, &mut out)?;
        assert_eq!(rt; out.as_slice(), b"18446744073709551615".as_slice());
        assert_eq!(rt; decimal(&out), Some(18_446_744_073_709_551_615));
        assert_eq!(rt; decimal(b"18446744073709551616"), None);
        assert_eq!(rt; decimal(b"0"), Some(0));
        assert_eq!(rt; decimal(b"00"), None);
        assert_eq!(rt; decimal(b"+1"), None);
        Ok(())
    }

    #[test]
    fn lines_in_small_pieces(rt: HostRuntime) -> Result<(), Fail> {
        let alloc = rt.alloc();
        let mut bytes = Vec::from_slice(alloc, b"epoch\n\n")?;
        bytes.extend_from_slice(&vec![in alloc; b'a'; 9_000]?)?;
        bytes.extend_from_slice(b"\nflush\nlast")?;
        let mut source = Narrow(MemSource::new(bytes, vec![in alloc; 3, 2_900]?));
        let mut lines = Lines::new(alloc, 4_294_967_295)?;
        let mut out = Vec::new(alloc);
        for _ in 0..9 {
            tell(&mut lines, &mut source, &mut out)?;
        }
        assert_eq!(rt;
            out.as_slice(),
            b"epoch,(fault),,(fault),(long),flush,last,(end),(end),".as_slice()
        );
        Ok(())
    }

    #[test]
    fn the_limit(rt: HostRuntime) -> Result<(), Fail> {
        let alloc = rt.alloc();
        let cases: [(u64, &[u8]); 2] = [
            (10, b"epoch,(much),(much),"),
            (12, b"epoch,flush;(end),(end),"),
        ];
        for (limit, told) in cases {
            let mut source = MemSource::new(
                Vec::from_slice(alloc, b"epoch\nflush\n")?,
                Vec::new(alloc),
            );
            let mut lines = Lines::new(alloc, limit)?;
            let mut out = Vec::new(alloc);
            tell(&mut lines, &mut source, &mut out)?;
            assert_eq!(rt; lines.peek().is_some(), limit == 12);
            tell_lent(&mut lines, &mut out)?;
            for _ in 0..2 {
                tell(&mut lines, &mut source, &mut out)?;
            }
            assert_eq!(rt; out.as_slice(), told);
        }
        Ok(())
    }
}
