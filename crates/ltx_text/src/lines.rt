//! The lines of a source, one at a time, for whoever runs a script.
//! The bytes are taken in blocks, a read is made only where no whole line is held, the end is asked for once,
//! and after a fault the pieces still to come are the same. A line that is held whole is lent to whoever wants
//! no copy.
ghost use Rattle.std.specs.Prelude.{◌≡◌, ℕ, List, Option, Some, ◌+◌, ◌-◌, ◌≤◌, ◌<◌, ◌↔◌, [], ◌∷◌, ◌++◌, length, take, drop, IfOk, IfSome, IfNone, IsSomeAnd, true, false, OnOk, OnErr, IsErrOf, MatchBool, MatchOption};
ghost use Rattle.std.specs.Io.KnownBytes.{IsAtEnd};
ghost use Rattle.ltx_outside.specs.Faults.{Rose};
ghost use Rattle.ltx_text.specs.Lines.{AsksOf, Cuts, IsFirstFeed, Knows, LinesState, NoFeedAhead, feeds, fresh, piece_of, pieces_of, to_go};
ghost use Rattle.ltx_text.specs.Pieces.{OnEnd, OnLine, faults_among, given};

use crate::block::{Block, MOST_READ};
use crate::piece::{Piece, TextFault};
use ltx_model::memory::NoMemory;
use ltx_outside::Source;
use memchr::memchr;
use std::alloc::Global;
use std::marker::Model;

/// The most bytes of a line, without its line feed.
const MOST_OF_LINE: usize = 4_096;

/// A reader of lines.
#[derive(Debug, Drop)]
pub struct Lines {
    alloc: Global,
    block: Block,
    limit: u64,
    taken: u64,
    past: bool,
    ended: bool,
}

impl Model for Lines {
    ghost use Rattle.std.specs.Prelude.{◌≡◌, ◌+◌, ◌≤◌, true, if◌then◌else◌};
    ghost use Rattle.ltx_text.specs.Block.{held};
    ghost use Rattle.ltx_text.specs.Lines.{LinesState};

    ghost Value = { LinesState };

    ghost view = { λ l. record { held = held l.block; taken = l.taken + (if l.past then 1 else 0); limit = l.limit; ended = l.ended } };

    ghost invariant = { λ l. (l.taken ≤ l.limit) × (l.past ≡ true → l.taken ≡ l.limit) };
}

impl Lines {
    /// A reader that has taken nothing yet, and takes at most `limit` bytes, and one more to see whether
    /// there are more.
    pub fn new(alloc: Global, limit: u64) -> Result<Lines, NoMemory>
        ensures { IfOk result (λ lines. lines ≡ fresh limit) }
    {
        Ok(Lines {
            alloc,
            block: Block::new(alloc)?,
            limit,
            taken: 0,
            past: false,
            ended: false,
        })
    }

    /// The next piece of the script.
    ///
    /// After `ReadFault` and `NoMemory` the bytes already taken stay, so the pieces still to come are the
    /// same; of a line that is already too long its first 4,097 bytes stay, which say so. `TooMuch` comes
    /// where more than the limit was taken, at this call and at every later one.
    ///
    /// A reader goes with one source: it keeps in mind that the source was at its end, and asks no more.
    pub fn next<S: Source>(&mut self, source: &mut S) -> Result<Piece, TextFault>
        ensures cuts { Knows self.old (S.left source.old) →
            Cuts self.old self.new (S.left source.old) (S.left source.new) (given result) }
        ensures knows { Knows self.old (S.left source.old) → Knows self.new (S.left source.new) }
        ensures limit { self.new.limit ≡ self.old.limit }

        // A read is made only where no whole line is held, and past the limit only where the limit was taken; a read
        // that gives nothing is the last one, and none is made after the end.
        ensures quiet { 0 < feeds self.old.held →
            (source.new ≡ source.old) × (self.new.taken ≡ self.old.taken) }
        ensures once { self.old.ended ≡ true →
            (source.new ≡ source.old) × (self.new.taken ≡ self.old.taken) × (self.new.ended ≡ true) }
        ensures asks { AsksOf self.old self.new (S.left source.old) (S.reads source.old) (S.reads source.new) (faults_among result) }
        ensures least { self.new.taken ≤ self.new.limit + 1 }

        // Where each answer comes.
        ensures line { OnLine result (λ line. (length line ≤ 4096) × (feeds line ≡ 0)) }
        ensures end { OnEnd result ((self.new.held ≡ []) × (self.new.ended ≡ true)) }
        ensures too_much { IsErrOf result TextFault.TooMuch ↔ (self.new.limit < self.new.taken) }
        ensures read_fault { IsErrOf result TextFault.ReadFault → (self.new.ended ≡ false)
            × Rose (S.faults source.old) (S.faults source.new) }
        ensures calm { (IsErrOf result TextFault.ReadFault → ⊥) → S.faults source.new ≡ S.faults source.old }
        ensures counted { S.faults source.old ≤ S.faults source.new }

        // At a fault of the source, and where the limit was passed in this call, no whole line was left.
        ensures no_line { IsErrOf result TextFault.ReadFault → feeds self.new.held ≡ 0 }
        ensures no_line_below { IsErrOf result TextFault.TooMuch → self.old.taken ≤ self.old.limit →
            (feeds self.old.held ≡ 0) × NoFeedAhead self.old (S.left source.old) }
    {
        if self.past {
            return Err(TextFault::TooMuch);
        }
        match first_feed(self.block.held()) {
            Some(at) => self.give_line(at),
            None if self.ended => self.give_last(),
            None => self.take_line(source),
        }
    }

    /// The next line, lent, where it is held whole: no read is made. It may be of any length. None where the
    /// next piece wants a read, or the limit was passed.
    pub fn peek(&self) -> Option<&[u8]>
        ensures line { IfSome result (λ line. (self.now.taken ≤ self.now.limit)
            × IsFirstFeed self.now.held (length line.now) × (line.now ≡ take (length line.now) self.now.held)) }
        ensures none { IfNone result (self.now.taken ≤ self.now.limit → feeds self.now.held ≡ 0) }
    {
        if self.past {
            return None;
        }
        let held = self.block.held();
        let at = first_feed(held)?;
        let (line, _) = held.split_at(at);
        Some(line)
    }

    /// Lets the line go that `peek` lends, with its line feed. `length` is the line's, in bytes.
    pub fn skip_line(&mut self, length: usize)
        requires { IsFirstFeed self.old.held length }
        ensures { self.new ≡ record self.old { held = drop (length + 1) self.old.held } }
    {
        self.block.skip(length + 1);
    }

    /// Takes bytes until a line is whole or the source is at its end, and gives what is then the next piece.
    fn take_line<S: Source>(&mut self, source: &mut S) -> Result<Piece, TextFault>
        requires unended { feeds self.old.held ≡ 0 }
        requires within { self.old.taken ≤ self.old.limit }
        requires unmet { self.old.ended ≡ false }
        ensures cuts { Cuts self.old self.new (S.left source.old) (S.left source.new) (given result) }
        ensures limit { self.new.limit ≡ self.old.limit }
        ensures knows { Knows self.new (S.left source.new) }
        ensures asks { AsksOf self.old self.new (S.left source.old) (S.reads source.old) (S.reads source.new) (faults_among result) }
        ensures least { self.new.taken ≤ self.new.limit + 1 }
        ensures line { OnLine result (λ line. (length line ≤ 4096) × (feeds line ≡ 0)) }
        ensures end { OnEnd result ((self.new.held ≡ []) × (self.new.ended ≡ true)) }
        ensures too_much { IsErrOf result TextFault.TooMuch ↔ (self.new.limit < self.new.taken) }
        ensures read_fault { IsErrOf result TextFault.ReadFault →
            (feeds self.new.held ≡ 0) × Rose (S.faults source.old) (S.faults source.new) }
        ensures unmet { IsErrOf result TextFault.ReadFault → self.new.ended ≡ false }
        ensures no_line_below { IsErrOf result TextFault.TooMuch → NoFeedAhead self.old (S.left source.old) }
        ensures calm { (IsErrOf result TextFault.ReadFault → ⊥) → S.faults source.new ≡ S.faults source.old }
        ensures counted { S.faults source.old ≤ S.faults source.new }
    {
        match self.fill(source)? {
            Some(at) => self.give_line(at),
            None => self.give_last(),
        }
    }

    /// Takes bytes until a line is whole, and answers the place of its line feed. None at the end of the source.
    fn fill<S: Source>(&mut self, source: &mut S) -> Result<Option<usize>, TextFault>
        requires unended { feeds self.old.held ≡ 0 }
        requires within { self.old.taken ≤ self.old.limit }
        requires unmet { self.old.ended ≡ false }
        ensures cuts { Cuts self.old self.new (S.left source.old) (S.left source.new) [] }
        ensures limit { self.new.limit ≡ self.old.limit }
        ensures asks { AsksOf self.old self.new (S.left source.old) (S.reads source.old) (S.reads source.new) (faults_among result) }
        ensures knows { Knows self.new (S.left source.new) }
        ensures found { IfOk result (λ found. MatchOption found
            ((self.new.ended ≡ true) × IsAtEnd (S.left source.new) × (feeds self.new.held ≡ 0)) (IsFirstFeed self.new.held)) }
        ensures within { OnOk result (self.new.taken ≤ self.new.limit) }
        ensures read_fault { IsErrOf result TextFault.ReadFault → (feeds self.new.held ≡ 0)
            × (self.new.taken ≤ self.new.limit) × Rose (S.faults source.old) (S.faults source.new) }
        ensures too_much { IsErrOf result TextFault.TooMuch → (self.new.taken ≡ self.new.limit + 1)
            × NoFeedAhead self.old (S.left source.old) }
        ensures unmet { OnErr result (self.new.ended ≡ false) }
        ensures memory { IsErrOf result TextFault.NoMemory → ⊥ }
        ensures calm { (IsErrOf result TextFault.ReadFault → ⊥) → S.faults source.new ≡ S.faults source.old }
        ensures counted { S.faults source.old ≤ S.faults source.new }
    {
        loop {
            if !self.take_block(source)? {
                return Ok(None);
            }
            if let Some(at) = first_feed(self.held()) {
                return Ok(Some(at));
            }
        }
    }

    /// Takes one block of bytes, where no line feed is held. False at the end of the source.
    fn take_block<S: Source>(&mut self, source: &mut S) -> Result<bool, TextFault>
        requires unended { feeds self.old.held ≡ 0 }
        requires within { self.old.taken ≤ self.old.limit }
        requires unmet { self.old.ended ≡ false }
        ensures cuts { Cuts self.old self.new (S.left source.old) (S.left source.new) [] }
        ensures limit { self.new.limit ≡ self.old.limit }
        ensures asked { IfSome (S.reads source.old) (λ before. IsSomeAnd (S.reads source.new) (λ after.
            (after.calls ≤ before.calls + 1) × (self.new.taken ≡ self.old.taken + after.last))) }
        ensures more { IfOk result (λ more. MatchBool more
            ((self.old.taken < self.new.taken) × (self.new.ended ≡ false))
            ((self.new.ended ≡ true) × IsAtEnd (S.left source.new) × (feeds self.new.held ≡ 0))) }
        ensures unmet { OnErr result (self.new.ended ≡ false) }
        ensures within { OnOk result (self.new.taken ≤ self.new.limit) }
        ensures read_fault { IsErrOf result TextFault.ReadFault → (feeds self.new.held ≡ 0)
            × (self.new.taken ≤ self.new.limit) × Rose (S.faults source.old) (S.faults source.new) }
        ensures too_much { IsErrOf result TextFault.TooMuch →
            (self.old.taken ≡ self.old.limit) × (self.new.taken ≡ self.new.limit + 1) }
        ensures memory { IsErrOf result TextFault.NoMemory → ⊥ }
        ensures calm { (IsErrOf result TextFault.ReadFault → ⊥) → S.faults source.new ≡ S.faults source.old }
        ensures counted { S.faults source.old ≤ S.faults source.new }
    {
        let most = most_to_read(self.taken, self.limit);
        self.block.make_room();
        match self.block.read_from(source, most) {
            Err(_) => Err(TextFault::ReadFault),
            Ok(0) => {
                self.ended = true;
                Ok(false)
            }
            Ok(_) if self.taken == self.limit => {
                self.past = true;
                Err(TextFault::TooMuch)
            }
            Ok(count) => {
                self.taken += count as u64;
                Ok(true)
            }
        }
    }

    /// The bytes that were taken and not given yet.
    fn held(&self) -> &[u8]
        ensures { result.now ≡ self.now.held }
    {
        self.block.held()
    }

    /// Gives the last line, where the source is at its end and no line feed is held.
    fn give_last(&mut self) -> Result<Piece, TextFault>
        requires { feeds self.old.held ≡ 0 }
        ensures piece { OnOk result (given result ≡ pieces_of self.old.held) }
        ensures line { OnLine result (λ line. (length line ≤ 4096) × (feeds line ≡ 0)) }
        ensures state { OnOk result (self.new ≡ record self.old { held = [] }) }
        ensures err { OnErr result (self.new ≡ self.old) }
        ensures fault { OnErr result (IsErrOf result TextFault.NoMemory) }
    {
        let length = self.held().len();
        if length == 0 {
            return Ok(Piece::End);
        }
        let piece = piece_of(self.alloc, self.block.held())?;
        self.block.skip(length);
        Ok(piece)
    }

    /// Gives the line whose line feed stands at this place of the held bytes.
    fn give_line(&mut self, at: usize) -> Result<Piece, TextFault>
        requires { IsFirstFeed self.old.held at }
        ensures piece { OnOk result (given result ≡ piece_of (take at self.old.held) ∷ []) }
        ensures line { OnLine result (λ line. (length line ≤ 4096) × (feeds line ≡ 0)) }
        ensures some { OnEnd result ⊥ }
        ensures state { OnOk result (self.new ≡ record self.old { held = drop (at + 1) self.old.held }) }
        ensures err { OnErr result (self.new ≡ self.old) }
        ensures fault { OnErr result (IsErrOf result TextFault.NoMemory) }
    {
        let piece = piece_of(self.alloc, &self.block.held()[..at])?;
        self.skip_line(at);
        Ok(piece)
    }
}

/// What a caller may rest on that asks again and again: the pieces are those of the bytes, in order.
pub fn pieces_come_in_order()
    // Several calls give what one call gives that takes and gives all of theirs.
    ensures none { (state : LinesState) (left : Option (List ℕ)) → Cuts state state left left [] }
    ensures more { (a b c : LinesState) (left_a left_b left_c : Option (List ℕ))
        (first second : List (Option (List ℕ))) →
        Cuts a b left_a left_b first → Cuts b c left_b left_c second →
        Cuts a c left_a left_c (first ++ second) }

    // A line that was lent and let go was given as a piece.
    ensures lent { (state : LinesState) (left : Option (List ℕ)) (at : ℕ) → IsFirstFeed state.held at →
        Cuts state (record state { held = drop (at + 1) state.held }) left left (piece_of (take at state.held) ∷ []) }

    // A loop over the calls ends: this number falls at each piece, and never rises.
    ensures fewer { (old new : LinesState) (left_old left_new : Option (List ℕ)) (gave : List (Option (List ℕ))) →
        Cuts old new left_old left_new gave → new.taken ≤ new.limit + 1 → new.limit ≡ old.limit →
        length gave + to_go new ≤ to_go old }

    // What was given so far is a front of the pieces, and at the end all of them.
    ensures front { (limit : ℕ) (now : LinesState) (bytes : List ℕ) (left : Option (List ℕ))
        (gave : List (Option (List ℕ))) → Cuts (fresh limit) now (Some bytes) left gave →
        (rest : List (Option (List ℕ))) × (pieces_of bytes ≡ gave ++ rest) }
    ensures all { (limit : ℕ) (now : LinesState) (bytes : List ℕ) (left : Option (List ℕ))
        (gave : List (Option (List ℕ))) → Cuts (fresh limit) now (Some bytes) left gave →
        now.held ≡ [] → IsAtEnd left → gave ≡ pieces_of bytes }

    // Each line whose line feed was taken was given, where no line feed is held; and each whose line feed
    // stands below the limit, where none is ahead either.
    ensures taken { (limit : ℕ) (now : LinesState) (bytes : List ℕ) (left : Option (List ℕ))
        (gave : List (Option (List ℕ))) → Cuts (fresh limit) now (Some bytes) left gave →
        feeds now.held ≡ 0 → feeds (take now.taken bytes) ≤ length gave }
    ensures below { (limit : ℕ) (now : LinesState) (bytes : List ℕ) (left : Option (List ℕ))
        (gave : List (Option (List ℕ))) → Cuts (fresh limit) now (Some bytes) left gave →
        now.taken ≤ limit → now.limit ≡ limit → feeds now.held ≡ 0 → NoFeedAhead now left →
        feeds (take limit bytes) ≤ length gave }
{}

/// What is given of a line.
fn piece_of(alloc: Global, line: &[u8]) -> Result<Piece, TextFault>
    ensures piece { OnOk result (given result ≡ piece_of line.now ∷ []) }
    ensures line { OnLine result (λ bytes. (bytes ≡ line.now) × (length bytes ≤ 4096)) }
    ensures some { OnEnd result ⊥ }
    ensures fault { OnErr result (IsErrOf result TextFault.NoMemory) }
{
    if line.len() > MOST_OF_LINE {
        return Ok(Piece::TooLong);
    }
    match Vec::from_slice(alloc, line) {
        Ok(line) => Ok(Piece::Line(line)),
        Err(_) => Err(TextFault::NoMemory),
    }
}

/// The place of the first line feed.
fn first_feed(bytes: &[u8]) -> Option<usize>
    ensures { MatchOption result (feeds bytes.now ≡ 0) (IsFirstFeed bytes.now) }
{
    memchr(b'\n', bytes)
}

/// How many bytes the next read may take.
fn most_to_read(taken: u64, limit: u64) -> usize
    requires { taken ≤ limit }
    ensures some { 0 < result }
    ensures most { result ≤ 65536 }
    ensures within { taken < limit → taken + result ≤ limit }
    ensures one { taken ≡ limit → result ≡ 1 }
{
    (limit - taken).min(MOST_READ).max(1) as usize
}
