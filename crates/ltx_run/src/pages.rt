//! The pages that the program prints in place of a run: the help and the version.

/// The commands of a script, the words and the statuses.
const HELP: &str = "usage: ltx_run run | check
       ltx_run --help | --version

`check` reads on standard input what a run printed, from this engine or another, and trusts nobody: it prints `yes` where
the printed order explains the transcript, or else `no LINE FAULT` with the first fault, which is text, open, order,
replay or marks.

`run` answers the script on standard input, a command a line: it prints each line with its reply, and at the end the
serial order of the committed transactions and the durable epoch.

Commands (S: session, 1 to 1024; T: table, 0 to 63; K: key, 1 to 64 bytes; V: value, 0 to 1024 bytes)

  S short                begin a short transaction
  S long W=SET [R=SET]   begin a batch that writes the tables W and reads the tables R, or all of them
  S get T K              read one row
  S scan T LO HI         read the rows from LO on and below HI; an empty HI is no bound
  S put T K V            write a row
  S del T K              delete a row
  S commit               commit
  S abort                abort
  epoch                  advance the epoch
  flush                  make closed epochs durable
  prune                  drop what no later reply needs

Not built yet, and answered `later`: flush and prune.

Words are joined by single spaces. In a word a byte from 33 to 126 other than % stands for itself, every other byte is
%HH with two upper-case hexadecimal digits, and the empty string is %. A SET is *, -, or numbers such as 0,7,63.

Status: 0 all went well; 1 some reply is `bad`; 2 no such command; 3 no memory; 4 standard input failed; 5 standard
output failed; 9 the script has more than 4294967295 bytes, or the transcript more than 268435456; 11 the transcript
has a fault.
";

/// The version, and what the program was proved with.
const VERSION: &str = "ltx_run 0.1.0
proved with rattle-kit-13f logic dac8208d650f15bf
";

/// The page for which the words ask, where they ask for one.
pub fn page_for(words: &[String]) -> Option<&'static str> {
    match words {
        [word] => match word.as_str() {
            "--help" => Some(HELP),
            "--version" => Some(VERSION),
            _ => None,
        },
        _ => None,
    }
}
