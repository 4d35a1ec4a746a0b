//! Known scripts with what is printed of each, as tables: tests of the top call over objects in memory.
#![tactic(auto)]

#[cfg(test)]
mod examples;
#[cfg(test)]
mod known;
#[cfg(test)]
mod limits;
#[cfg(test)]
mod transcripts;

#[cfg(test)]
mod tests {
    use crate::examples::{CONFLICT, FORWARDED, ORDERS, PHANTOM, PRESERVED, REFUSED, SUM, TAKINGS};
    use crate::known::{
        A_BATCH_BEFORE_ITS_ELDER, A_BATCH_BEFORE_ITS_EPOCH, A_BATCH_BEFORE_ONE_THAT_IS_REFUSED,
        A_BATCH_GIVES_UP, A_BATCH_OUTSIDE_WHAT_IT_DECLARED, A_BATCH_THAT_SAW_TOO_MUCH,
        A_FORWARDED_WRITE_UNDER_A_LATER_ONE, A_READ_SEES_A_COMMIT,
        A_ROW_APPEARS_IN_A_SCANNED_RANGE, A_ROW_CAME_AND_WENT,
        A_TOUCHED_TABLE_IS_HELD_AT_THE_COMMIT, BAD_LINES, Lines, NOTHING,
        ONE_TRANSACTION_A_SESSION, OWN_WRITES_AND_ESCAPES, THE_ELDER_GIVES_UP,
        TWO_BATCHES_READ_WHAT_THE_OTHER_WRITES, TWO_SHORTS_WRITE_ONE_KEY,
    };
    use crate::limits::{
        ACCOUNTS, FULL_LINES, IN_ONE_SESSION, Limit, OPERATIONS, Part, SESSIONS, SHUFFLED,
        TRANSFERS, WRITES,
    };
    use crate::transcripts::{EXPLAINED, FORGOTTEN, UNEXPLAINED, UNFORWARDED};
    use ltx_core::Core;
    use ltx_model::base::Recovered;
    use ltx_model::commands::{Command, Verb};
    use ltx_model::numbers::{Session, Tx};
    use ltx_model::replies::Reply;
    use ltx_model::rows::StoredList;
    use ltx_model::tables::TableSet;
    use ltx_outside::{Disk, Failed, MemDisk, MemSink, MemSource, Sink, Source};
    use ltx_text::decimals::put_decimal;
    use ltx_top::{run, run_check};
    use std::alloc::Global;
    use std::test::Fail;

    /// A source that gives at most so many bytes a read.
    #[derive(Drop)]
    struct Narrow {
        source: MemSource,
        most: usize,
    }

    impl Source for Narrow {
        ghost use Rattle.std.specs.Prelude.{None};

        ghost left = { λ _. None };

        ghost reads = { λ _. None };

        ghost faults = { λ s. s.source.calls.faults };

        fn read(&mut self, buffer: &mut [u8]) -> Result<usize, Failed> {
            let most = buffer.len().min(self.most);
            self.source.read(&mut buffer[..most])
        }
    }

    /// The bytes of a read, at most: lines that reads cut, and lines that are held whole.
    const MOST_OF_A_READ: [usize; 2] = [8, 100_000];

    /// The status of the top call, proved from the bounds alone.
    fn call<S: Source, D: Disk, K: Sink>(
        alloc: Global,
        words: &[String],
        source: &mut S,
        disk: &mut D,
        sink: &mut K,
    ) -> u8 {
        run(alloc, words, source, disk, sink).number
    }

    /// The status of the check of a transcript, proved from the bounds alone.
    fn call_check<S: Source, K: Sink>(
        alloc: Global,
        words: &[String],
        source: &mut S,
        sink: &mut K,
    ) -> u8 {
        run_check(alloc, words, source, sink).number
    }

    /// Whether the check of a transcript ends with this status and prints this verdict.
    fn is_judged(alloc: Global, text: &[u8], status: u8, verdict: &[u8]) -> Result<bool, Fail> {
        let words = vec![in alloc; String::from_str(alloc, "check")?]?;
        let mut source = MemSource::new(Vec::from_slice(alloc, text)?, Vec::new(alloc));
        let mut sink = MemSink::new(alloc, 100, Vec::new(alloc))?;
        let given = call_check(alloc, &words, &mut source, &mut sink);
        Ok(given == status && sink.written() == verdict)
    }

    /// What a call of the top gave: the status, what is printed, and the source as it is left.
    #[derive(Drop)]
    struct Given {
        status: u8,
        printed: Vec<u8>,
        source: Narrow,
    }

    /// The top call with these words and this script, of which a read gives so many bytes at most. The reads and writes of these
    /// numbers fail, and the first call of the disk.
    fn called_with(
        alloc: Global,
        words: &[&str],
        script: Vec<u8>,
        most: usize,
        reads: &[u64],
        writes: &[u64],
    ) -> Result<Given, Fail> {
        let mut spelt = Vec::new(alloc);
        for word in words {
            spelt.push(String::from_str(alloc, word)?)?;
        }
        let mut source = Narrow {
            source: MemSource::new(script, Vec::from_slice(alloc, reads)?),
            most,
        };
        let mut disk = MemDisk::new(Vec::new(alloc), 0, vec![in alloc; 1]?)?;
        let mut sink = MemSink::new(alloc, 2_000_000, Vec::from_slice(alloc, writes)?)?;
        let status = call(alloc, &spelt, &mut source, &mut disk, &mut sink);
        let printed = Vec::from_slice(alloc, sink.written())?;
        Ok(Given {
            status,
            printed,
            source,
        })
    }

    /// Appends a line and its line feed.
    fn put_line(out: &mut Vec<u8>, line: &str) -> Result<(), Fail> {
        out.extend_from_slice(line.as_bytes())?;
        out.push(b'\n')?;
        Ok(())
    }

    /// Appends an entry.
    fn put_entry(out: &mut Vec<u8>, line: &str, reply: &str) -> Result<(), Fail> {
        out.extend_from_slice(line.as_bytes())?;
        out.extend_from_slice(b" => ")?;
        put_line(out, reply)
    }

    /// Whether the lines are printed with these replies, and then the order of these numbers, at status 0, for each width of a read.
    fn is_printed(alloc: Global, rows: Lines, order: &str) -> Result<bool, Fail> {
        let mut script = Vec::new(alloc);
        let mut text = Vec::new(alloc);
        for (line, reply) in rows {
            put_line(&mut script, line)?;
            put_entry(&mut text, line, reply)?;
        }
        put_ending(&mut text, 0, order)?;
        for most in MOST_OF_A_READ {
            if !gives(alloc, &script, most, 0, &text)? {
                return Ok(false);
            }
        }
        Ok(true)
    }

    /// A script, and the numbers that its run prints as the order, each after a space.
    type Known = (Lines, &'static str);

    /// Whether each of the scripts is printed with its replies and its order.
    fn are_printed(alloc: Global, known: &[Known]) -> Result<bool, Fail> {
        for (rows, order) in known {
            if !is_printed(alloc, rows, order)? {
                return Ok(false);
            }
        }
        Ok(true)
    }

    const SHORTS: &[Known] = &[
        (NOTHING, ""),
        (A_READ_SEES_A_COMMIT, " 1 2"),
        (TWO_SHORTS_WRITE_ONE_KEY, " 1 2"),
        (A_ROW_APPEARS_IN_A_SCANNED_RANGE, " 2"),
        (A_ROW_CAME_AND_WENT, " 2 3 1"),
        (ONE_TRANSACTION_A_SESSION, ""),
        (OWN_WRITES_AND_ESCAPES, " 1"),
    ];

    /// Whether the scripts of shorts are printed.
    fn prints_shorts(alloc: Global) -> Result<bool, Fail> {
        are_printed(alloc, SHORTS)
    }

    const BATCHES: &[Known] = &[
        (A_TOUCHED_TABLE_IS_HELD_AT_THE_COMMIT, ""),
        (A_BATCH_BEFORE_ITS_EPOCH, " 1"),
        (A_BATCH_OUTSIDE_WHAT_IT_DECLARED, " 1"),
        (A_BATCH_GIVES_UP, " 3 4 5"),
    ];

    /// Whether the scripts of batches that overtake nobody are printed.
    fn prints_batches(alloc: Global) -> Result<bool, Fail> {
        are_printed(alloc, BATCHES)
    }

    const OVERTAKING: &[Known] = &[
        (TWO_BATCHES_READ_WHAT_THE_OTHER_WRITES, " 1"),
        (A_BATCH_BEFORE_ITS_ELDER, " 2 1"),
        (A_BATCH_THAT_SAW_TOO_MUCH, " 1 2"),
        (THE_ELDER_GIVES_UP, " 2 3"),
    ];

    /// Whether the scripts of batches that overtake are printed.
    fn prints_overtaking(alloc: Global) -> Result<bool, Fail> {
        are_printed(alloc, OVERTAKING)
    }

    const FORWARDING: &[Known] = &[
        (A_FORWARDED_WRITE_UNDER_A_LATER_ONE, " 3 1 2 4"),
        (A_BATCH_BEFORE_ONE_THAT_IS_REFUSED, " 1 3"),
    ];

    /// Whether the scripts of batches that are put before others are printed.
    fn prints_forwarding(alloc: Global) -> Result<bool, Fail> {
        are_printed(alloc, FORWARDING)
    }

    const EXAMPLES_OF_SHORTS: &[Known] = &[
        (CONFLICT, " 1 2 4"),
        (PHANTOM, " 1 3 4"),
        (ORDERS, " 1 2 3 4"),
    ];

    /// Whether the examples with shorts alone, and the roll-up, are printed.
    fn prints_examples_of_shorts(alloc: Global) -> Result<bool, Fail> {
        are_printed(alloc, EXAMPLES_OF_SHORTS)
    }

    const EXAMPLES_OF_BATCHES: &[Known] = &[
        (SUM, " 1 2 3 5 6"),
        (FORWARDED, " 1 3 2 5"),
        (REFUSED, " 1 2 4"),
    ];

    /// Whether the examples with batches are printed.
    fn prints_examples_of_batches(alloc: Global) -> Result<bool, Fail> {
        are_printed(alloc, EXAMPLES_OF_BATCHES)
    }

    const EXAMPLES_OF_HOLDING: &[Known] = &[(TAKINGS, " 1 2 3 4 5 6"), (PRESERVED, " 1 2 4 6")];

    /// Whether the examples of what a batch keeps shorts from, and of what it does not, are printed.
    fn prints_examples_of_holding(alloc: Global) -> Result<bool, Fail> {
        are_printed(alloc, EXAMPLES_OF_HOLDING)
    }

    /// Whether bad lines between good ones have their causes, and a line that is too long, which is the second one, so that in
    /// one of the runs it is held whole.
    fn prints_bad_lines(alloc: Global) -> Result<bool, Fail> {
        let mut script = Vec::new(alloc);
        let mut text = Vec::new(alloc);
        put_line(&mut script, "1 get 0 x")?;
        put_entry(&mut text, "1 get 0 x", "notx")?;
        script.extend_from_slice(&vec![in alloc; b'a'; 4_097]?)?;
        put_line(&mut script, "")?;
        put_entry(&mut text, "?", "bad long")?;
        for (line, reply) in BAD_LINES {
            put_line(&mut script, line)?;
            put_entry(&mut text, "?", reply)?;
        }
        script.extend_from_slice(b"1 put 0 x ")?;
        script.extend_from_slice(&vec![in alloc; b'v'; 1_025]?)?;
        put_line(&mut script, "")?;
        put_entry(&mut text, "?", "bad value")?;
        put_line(&mut script, "1 get 0 x")?;
        put_entry(&mut text, "1 get 0 x", "notx")?;
        put_ending(&mut text, 0, "")?;
        Ok(
            gives(alloc, &script, MOST_OF_A_READ[0], 1, &text)?
                && gives(alloc, &script, MOST_OF_A_READ[1], 1, &text)?,
        )
    }

    /// A transcript, the status of its check, and what is printed.
    type Judged = (&'static [u8], u8, &'static [u8]);

    const TRANSCRIPTS: [Judged; 6] = [
        (EXPLAINED, 0, b"yes\n"),
        (b"", 11, b"no 1 text\n"),
        (b"1 get 0 x => none\norder\ndurable 0\n", 11, b"no 1 open\n"),
        (UNEXPLAINED, 11, b"no 5 replay\n"),
        (FORGOTTEN, 11, b"no 8 order\n"),
        (UNFORWARDED, 11, b"no 7 marks\n"),
    ];

    /// Whether the check of each transcript ends at its status and prints its verdict.
    fn judges_transcripts(alloc: Global) -> Result<bool, Fail> {
        for (text, status, verdict) in TRANSCRIPTS {
            if !is_judged(alloc, text, status, verdict)? {
                return Ok(false);
            }
        }
        Ok(true)
    }

    #[test]
    fn scripts_are_printed_with_their_replies(rt: HostRuntime) -> Result<(), Fail> {
        let alloc = rt.alloc();
        assert!(rt; prints_shorts(alloc)?);
        assert!(rt; prints_batches(alloc)?);
        assert!(rt; prints_overtaking(alloc)?);
        assert!(rt; prints_forwarding(alloc)?);
        assert!(rt; prints_examples_of_shorts(alloc)?);
        assert!(rt; prints_examples_of_batches(alloc)?);
        assert!(rt; prints_examples_of_holding(alloc)?);
        assert!(rt; prints_bad_lines(alloc)?);
        assert!(rt; judges_transcripts(alloc)?);
        Ok(())
    }

    /// A run that stops: its words and script, the bytes of a read at most, the numbers of the reads and writes that fail, the
    /// status, what is printed, and how many bytes of the script are not read.
    type Stop = (
        &'static [&'static str],
        &'static str,
        usize,
        &'static [u64],
        &'static [u64],
        u8,
        &'static str,
        usize,
    );

    const LINES: &str = "1 short\n1 abort\n1 short\n";

    const FIRST: &str = "1 short => begun 1\n";

    const EPOCH: &str = "epoch => epoch 2\n";

    const ALL: &str = "1 short => begun 1\n1 abort => aborted\n1 short => begun 2\n";

    const STOPS: &[Stop] = &[
        // Words that are no command: no device is called, so the first read is still to come, and the second one fails.
        (&[], LINES, 8, &[2], &[1], 2, "", 24),
        (&["run", "now"], LINES, 8, &[2], &[1], 2, "", 24),
        (&["threads", "0"], LINES, 8, &[2], &[1], 2, "", 24),
        (&["threads", "17"], LINES, 8, &[2], &[1], 2, "", 24),
        (&["threads", "02"], LINES, 8, &[2], &[1], 2, "", 24),
        (&["drive", "7"], LINES, 8, &[2], &[1], 2, "", 24),
        (&["drive", "7", "100001"], LINES, 8, &[2], &[1], 2, "", 24),
        // A read fails: each whole line that was read is answered and printed, and nothing more is read.
        (&["run"], "epoch\n", 8, &[1], &[], 4, "", 6),
        (&["run"], "epoch\n", 8, &[2], &[], 4, EPOCH, 0),
        (&["run"], "epoch\n1 short\n", 8, &[2], &[], 4, EPOCH, 6),
        (&["run"], LINES, 8, &[2], &[], 4, FIRST, 16),
        // A write fails: each entry was to be printed before the next read.
        (&["run"], "epoch\n", 8, &[], &[1], 5, "", 0),
        (&["run"], "epoch\n", 8, &[], &[2], 5, EPOCH, 0),
        (&["run"], LINES, 8, &[], &[1], 5, "", 16),
        (&["run"], LINES, 8, &[], &[2], 5, FIRST, 8),
        // The whole script in one read: its lines are answered before the next read, and printed at once.
        (&["run"], LINES, 100, &[2], &[], 4, ALL, 0),
        (&["run"], LINES, 100, &[], &[1], 5, "", 0),
        (&["run"], LINES, 100, &[], &[2], 5, ALL, 0),
    ];

    #[test]
    fn the_first_fault_ends_a_run(rt: HostRuntime) -> Result<(), Fail> {
        let alloc = rt.alloc();
        for (words, script, most, reads, writes, status, printed, left) in STOPS {
            let script = Vec::from_slice(alloc, script.as_bytes())?;
            let mut given = called_with(alloc, words, script, *most, reads, writes)?;
            assert_eq!(rt; given.status, *status);
            assert_eq!(rt; given.printed.as_slice(), printed.as_bytes());
            let mut buffer = [0; 100];
            assert_eq!(rt; given.source.source.read(&mut buffer)?, *left);
        }
        Ok(())
    }

    /// The places of a number with five digits.
    const PLACES: [u32; 5] = [10_000, 1_000, 100, 10, 1];

    /// Appends the digits of a number at these places.
    fn put_digits(out: &mut Vec<u8>, places: &[u32], n: u32) -> Result<(), Fail> {
        for place in places {
            let digit = n.checked_div(*place).unwrap_or(0) % 10;
            out.push(b'0' + digit as u8)?;
        }
        Ok(())
    }

    /// Appends a template with the number in its places.
    fn put_with(out: &mut Vec<u8>, template: &str, n: u32) -> Result<(), Fail> {
        for byte in template.as_bytes() {
            match byte {
                b'#' => put_decimal(u64::from(n), out)?,
                b'^' => put_decimal(u64::from(n.wrapping_add(3)), out)?,
                b'&' => put_digits(out, &PLACES[2..], n)?,
                b'$' => put_digits(out, &PLACES, n)?,
                b'@' => put_digits(out, &PLACES, n.wrapping_mul(7_919) % 10_000)?,
                _ => out.push(*byte)?,
            }
        }
        Ok(())
    }

    /// Appends the lines of a part to a script, and their entries to a text.
    fn put_part(script: &mut Vec<u8>, text: &mut Vec<u8>, part: &Part) -> Result<(), Fail> {
        let (from, to, lines) = part;
        for n in *from..*to {
            for (line, reply) in *lines {
                put_with(script, line, n)?;
                script.push(b'\n')?;
                put_with(text, line, n)?;
                text.extend_from_slice(b" => ")?;
                put_with(text, reply, n)?;
                text.push(b'\n')?;
            }
        }
        Ok(())
    }

    /// Appends the ending of a run whose order is the numbers to this one and then those after it, each after a space, and that
    /// made nothing durable.
    fn put_ending(text: &mut Vec<u8>, to: u32, after: &str) -> Result<(), Fail> {
        text.extend_from_slice(b"order")?;
        for n in 1..=to {
            put_with(text, " #", n)?;
        }
        text.extend_from_slice(after.as_bytes())?;
        text.extend_from_slice(b"\ndurable 0\n")?;
        Ok(())
    }

    /// A core over no rows, with this durable epoch and last number.
    fn core_after(alloc: Global, durable: u32, last: u64) -> Result<Core, Fail> {
        let rows = StoredList::from_vec(Vec::new(alloc));
        let Ok(base) = Recovered::new(rows, durable, last) else {
            return Err(Fail::from(last));
        };
        Ok(Core::new(alloc, base)?)
    }

    /// What the core answers to a verb of the first session.
    fn asked(core: &mut Core, verb: Verb) -> Result<Reply, Fail> {
        let session = Session::new(1).ok_or(1u16)?;
        Ok(core.step(&Command::Ask(session, verb))?)
    }

    /// The begin of a batch that reads and writes nothing.
    fn a_batch() -> Verb {
        Verb::Long {
            writes: TableSet::empty(),
            reads: TableSet::empty(),
        }
    }

    /// What a core after this last number answers to the first verb of a session.
    fn begun_after(alloc: Global, last: u64, verb: Verb) -> Result<Reply, Fail> {
        let mut core = core_after(alloc, 0, last)?;
        asked(&mut core, verb)
    }

    /// Whether a short gets the last number.
    fn gives_a_short_the_last_number(alloc: Global) -> Result<bool, Fail> {
        let short = begun_after(alloc, Tx::LAST - 1, Verb::Short)?;
        Ok(matches!(short, Reply::Begun { tx } if tx.number() == Tx::LAST))
    }

    /// Whether a batch gets the last number.
    fn gives_a_batch_the_last_number(alloc: Global) -> Result<bool, Fail> {
        let batch = begun_after(alloc, Tx::LAST - 1, a_batch())?;
        Ok(matches!(batch, Reply::BegunAt { tx, epoch } if tx.number() == Tx::LAST && epoch == 2))
    }

    /// Whether no number is given after the last one.
    fn gives_no_later_number(alloc: Global) -> Result<bool, Fail> {
        let short = begun_after(alloc, Tx::LAST, Verb::Short)?;
        let batch = begun_after(alloc, Tx::LAST, a_batch())?;
        Ok(matches!(short, Reply::LimitTx) && matches!(batch, Reply::LimitTx))
    }

    /// Whether a batch becomes live in the last epoch, and commits there.
    fn reaches_the_last_epoch(core: &mut Core) -> Result<bool, Fail> {
        let batch = asked(core, a_batch())?;
        let last = core.step(&Command::Epoch)?;
        let home = asked(core, Verb::Commit)?;
        Ok(
            matches!(batch, Reply::BegunAt { epoch, .. } if epoch == 4_294_967_294)
                && matches!(last, Reply::Advanced { epoch } if epoch == 4_294_967_294)
                && matches!(home, Reply::Committed { epoch } if epoch == 4_294_967_294),
        )
    }

    /// Whether no epoch follows the last one and no batch begins in it.
    fn has_no_later_epoch(core: &mut Core) -> Result<bool, Fail> {
        let no_epoch = core.step(&Command::Epoch)?;
        let no_batch = asked(core, a_batch())?;
        Ok(matches!(no_epoch, Reply::LimitEpoch) && matches!(no_batch, Reply::LimitEpoch))
    }

    /// Whether shorts go on in the last epoch.
    fn has_shorts_in_the_last_epoch(core: &mut Core) -> Result<bool, Fail> {
        let short = asked(core, Verb::Short)?;
        let commit = asked(core, Verb::Commit)?;
        Ok(
            matches!(short, Reply::Begun { .. })
                && matches!(commit, Reply::Committed { epoch } if epoch == 4_294_967_294),
        )
    }

    /// Whether the last epoch is reached, and in it no batch begins and shorts go on.
    fn has_a_last_epoch(alloc: Global) -> Result<bool, Fail> {
        let mut core = core_after(alloc, Recovered::LAST_EPOCH - 1, 0)?;
        let reached = reaches_the_last_epoch(&mut core)?;
        let last = has_no_later_epoch(&mut core)?;
        let shorts = has_shorts_in_the_last_epoch(&mut core)?;
        Ok(reached && last && shorts)
    }

    /// Whether a run of this script, of which a read gives so much, ends at this status and prints this text.
    fn gives(
        alloc: Global,
        script: &[u8],
        most: usize,
        status: u8,
        text: &[u8],
    ) -> Result<bool, Fail> {
        let script = Vec::from_slice(alloc, script)?;
        let given = called_with(alloc, &["run"], script, most, &[], &[])?;
        Ok(given.status == status && given.printed.as_slice() == text)
    }

    /// Whether a thousand accounts are added up beside shorts that move money.
    fn sums_beside_shorts(alloc: Global) -> Result<bool, Fail> {
        let mut script = Vec::new(alloc);
        let mut text = Vec::new(alloc);
        for part in ACCOUNTS {
            put_part(&mut script, &mut text, part)?;
        }
        put_line(&mut script, "2 scan 1 % %")?;
        text.extend_from_slice(b"2 scan 1 % % => rows 1000")?;
        for n in 0..1_000 {
            put_with(&mut text, " a& 100", n)?;
        }
        text.push(b'\n')?;
        for part in TRANSFERS {
            put_part(&mut script, &mut text, part)?;
        }
        put_ending(&mut text, 12, " 14")?;
        gives(alloc, &script, 100_000, 0, &text)
    }

    /// Whether commits of 10,000 rows in random order leave them in order: a scan of 2,000 of them, and a read of each.
    fn keeps_rows_in_order(alloc: Global) -> Result<bool, Fail> {
        let mut script = Vec::new(alloc);
        let mut text = Vec::new(alloc);
        for part in SHUFFLED {
            put_part(&mut script, &mut text, part)?;
        }
        put_line(&mut script, "1 scan 0 % 02000")?;
        text.extend_from_slice(b"1 scan 0 % 02000 => rows 2000")?;
        for n in 0..2_000 {
            put_with(&mut text, " $ v", n)?;
        }
        text.push(b'\n')?;
        put_part(
            &mut script,
            &mut text,
            &(0, 10_000, &[("1 get 0 $", "found v")]),
        )?;
        put_ending(&mut text, 10_000, "")?;
        gives(alloc, &script, 100_000, 0, &text)
    }

    /// A text that is so many times the same.
    fn many(alloc: Global, front: &str, text: &str, count: u32) -> Result<Vec<u8>, Fail> {
        let mut out = Vec::from_slice(alloc, front.as_bytes())?;
        for _ in 0..count {
            out.extend_from_slice(text.as_bytes())?;
        }
        Ok(out)
    }

    /// Appends lines as long as a line may be, and their entries.
    fn put_full_lines(alloc: Global, script: &mut Vec<u8>, text: &mut Vec<u8>) -> Result<(), Fail> {
        for (front, fill, count, cause) in FULL_LINES {
            let line = many(alloc, front, fill, *count)?;
            script.extend_from_slice(&line)?;
            script.push(b'\n')?;
            put_entry(text, "?", cause)?;
        }
        Ok(())
    }

    /// Whether long lines are read, and a value whose bytes are all escaped is printed, also where more text comes between two
    /// reads than is gathered.
    fn prints_much_text(alloc: Global) -> Result<bool, Fail> {
        let mut script = Vec::new(alloc);
        let mut text = Vec::new(alloc);
        put_full_lines(alloc, &mut script, &mut text)?;
        let value = many(alloc, "", "%FF", 1_024)?;
        put_part(&mut script, &mut text, &(0, 1, &[("1 short", "begun 1")]))?;
        script.extend_from_slice(b"1 put 0 k ")?;
        script.extend_from_slice(&value)?;
        script.push(b'\n')?;
        text.extend_from_slice(b"1 put 0 k ")?;
        text.extend_from_slice(&value)?;
        text.extend_from_slice(b" => done\n")?;
        for _ in 0..100 {
            put_line(&mut script, "1 get 0 k")?;
            text.extend_from_slice(b"1 get 0 k => found ")?;
            text.extend_from_slice(&value)?;
            text.push(b'\n')?;
        }
        put_ending(&mut text, 0, "")?;
        Ok(
            gives(alloc, &script, MOST_OF_A_READ[0], 1, &text)?
                && gives(alloc, &script, MOST_OF_A_READ[1], 1, &text)?,
        )
    }

    /// Whether each of the scripts is printed with its replies, and then the order of its numbers.
    fn reaches(alloc: Global, limits: &[Limit]) -> Result<bool, Fail> {
        for (parts, order) in limits {
            let mut script = Vec::new(alloc);
            let mut text = Vec::new(alloc);
            for part in *parts {
                put_part(&mut script, &mut text, part)?;
            }
            put_ending(&mut text, *order, "")?;
            if !gives(alloc, &script, 100_000, 0, &text)? {
                return Ok(false);
            }
        }
        Ok(true)
    }

    /// Whether one session meets its limits.
    fn reaches_in_one_session(alloc: Global) -> Result<bool, Fail> {
        reaches(alloc, IN_ONE_SESSION)
    }

    /// Whether a transaction has so many operations and no more.
    fn reaches_operations(alloc: Global) -> Result<bool, Fail> {
        reaches(alloc, OPERATIONS)
    }

    /// Whether all sessions have a transaction at once.
    fn reaches_sessions(alloc: Global) -> Result<bool, Fail> {
        reaches(alloc, SESSIONS)
    }

    /// Whether many writes are committed.
    fn reaches_writes(alloc: Global) -> Result<bool, Fail> {
        reaches(alloc, WRITES)
    }

    #[test]
    fn runs_at_the_limits(rt: HostRuntime) -> Result<(), Fail> {
        let alloc = rt.alloc();
        assert!(rt; gives_a_short_the_last_number(alloc)?);
        assert!(rt; gives_a_batch_the_last_number(alloc)?);
        assert!(rt; gives_no_later_number(alloc)?);
        assert!(rt; has_a_last_epoch(alloc)?);
        assert!(rt; reaches_in_one_session(alloc)?);
        assert!(rt; reaches_operations(alloc)?);
        assert!(rt; reaches_sessions(alloc)?);
        assert!(rt; reaches_writes(alloc)?);
        assert!(rt; sums_beside_shorts(alloc)?);
        assert!(rt; keeps_rows_in_order(alloc)?);
        assert!(rt; prints_much_text(alloc)?);
        Ok(())
    }
}
