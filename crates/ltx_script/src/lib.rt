//! Scripts: the one spelling of each command, printed and read, and why a line is no spelling.
#![tactic(auto)]

mod arguments;
mod cuts;
mod limits;
pub mod parse;
pub mod print;
mod refusal;
mod sets;
mod verbs;

#[cfg(test)]
mod tests {
    use crate::parse::parse_line;
    use crate::print::print_command;
    use ltx_model::commands::{Bad, Line};
    use std::test::Fail;

    #[test]
    fn commands_are_read_and_printed(rt: HostRuntime) -> Result<(), Fail> {
        let alloc = rt.alloc();
        let lines: [&[u8]; 14] = [
            b"epoch",
            b"flush",
            b"prune",
            b"1 short",
            b"1024 long W=*",
            b"2 long W=- R=-",
            b"2 long W=0,7,63 R=1",
            b"3 get 63 a%20b",
            b"3 scan 0 % %",
            b"3 scan 0 a %FF",
            b"3 put 1 k %",
            b"3 del 1 %25",
            b"4 commit",
            b"4 abort",
        ];
        for line in lines {
            let Line::Good(command) = parse_line(alloc, line)? else {
                assert!(rt; false);
                return Ok(());
            };
            let mut out = Vec::new(alloc);
            print_command(&command, &mut out)?;
            assert_eq!(rt; out.as_slice(), line);
        }
        Ok(())
    }

    #[test]
    fn other_lines_have_their_first_cause(rt: HostRuntime) -> Result<(), Fail> {
        let alloc = rt.alloc();
        let lines: [(&[u8], Bad); 18] = [
            (b"", Bad::Words),
            (b"1  short", Bad::Words),
            (b"1 short ", Bad::Words),
            (b"epoch 2", Bad::Words),
            (b"0 short", Bad::Session),
            (b"01 short", Bad::Session),
            (b"1025 fly", Bad::Session),
            (b"1", Bad::Verb),
            (b"1 fly", Bad::Verb),
            (b"1 get 0", Bad::Words),
            (b"1 get 64 %41", Bad::Table),
            (b"1 get 0 a%2fb", Bad::Key),
            (b"1 get 0 %", Bad::Key),
            (b"1 scan 0 % %41", Bad::Key),
            (b"1 put 0 x %0", Bad::Value),
            (b"1 long W=1,1", Bad::Sets),
            (b"1 long W=1 R=*", Bad::Sets),
            (b"1 long R=1", Bad::Sets),
        ];
        for (line, cause) in lines {
            match parse_line(alloc, line)? {
                Line::Bad(found) => assert_eq!(rt; found, cause),
                Line::Good(_) => assert!(rt; false),
            }
        }
        let lengths: [(usize, Bad); 2] = [(4_096, Bad::Session), (4_097, Bad::Long)];
        for (length, cause) in lengths {
            match parse_line(alloc, &vec![in alloc; b'a'; length]?)? {
                Line::Bad(found) => assert_eq!(rt; found, cause),
                Line::Good(_) => assert!(rt; false),
            }
        }
        Ok(())
    }
}
