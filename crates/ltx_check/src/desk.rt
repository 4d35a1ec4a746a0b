//! What is open while a transcript is read: which transaction each session has, and the greatest number begun.

ghost use Rattle.std.specs.Prelude.{◌≡◌, ◌≤◌, ◌<◌, ◌++◌, ◌∷◌, [], length, remove, IfOk, IfSome, IfNone, OnOk, Some, None, option_map, is_some};
ghost use Rattle.ltx_model.specs.declared.replies.Entry.{Entry};
ghost use Rattle.ltx_model.specs.Histories.{session_of, operation_of};
ghost use Rattle.ltx_model.specs.Explained.{effect_of};
ghost use Rattle.ltx_check.specs.Replays.{is_answering, is_answer, answered_number};
ghost use Rattle.ltx_check.specs.Opens.{Desk, first_desk, seat_of, without_seat, begins, ends, desk_after, desk_after_reply, desk_after_in, is_misplaced, is_misplaced_in, is_open_fault, committed_number, IsWellPlaced, IsOpenFault};
ghost use Rattle.ltx_check.specs.Found.{FindsOpenFault};
ghost use Rattle.ltx_check.specs.Marks.{way_by, commit_at, commit_by};

use crate::asked::{asked_by, gives};
use crate::commits::{Commit, Way};
use ltx_model::commands::{Command, Line, Verb};
use ltx_model::memory::NoMemory;
use ltx_model::numbers::{Session, Tx};
use ltx_model::replies::{Entry, Reply};
use std::alloc::Global;
use std::marker::Model;

/// An open transaction: its session, its number, and whether it is a short.
#[derive(Clone, Copy, Debug)]
pub struct Seat {
    pub session: Session,
    pub number: Tx,
    pub short: bool,
}

/// The open transactions, and the greatest number begun.
#[derive(Debug, Drop)]
pub(crate) struct Seats {
    seats: Vec<Seat>,
    last: u64,
}

impl Model for Seats {
    ghost use Rattle.ltx_check.specs.Opens.{Desk};

    ghost Value = { Desk };

    ghost view = { λ d. record { seats = d.seats.items; last = d.last } };
}

/// The session of a line.
fn session_of(line: &Line) -> Option<Session>
    ensures { result ≡ session_of line.now }
{
    match line {
        Line::Good(Command::Ask(session, _)) => Some(*session),
        _ => None,
    }
}

/// The first seat of a session.
fn seat_of(seats: &[Seat], session: Session) -> Option<Seat>
    ensures { result ≡ seat_of seats.now session }
{
    for seat in seats {
        if seat.session == session {
            return Some(*seat);
        }
    }
    None
}

/// Where the first seat of a session stands.
fn place_of(seats: &[Seat], session: Session) -> Option<usize>
    ensures within { IfSome result (λ place. place < length seats.now) }
    ensures some { IfSome result (λ place. without_seat session seats.now ≡ remove seats.now place) }
    ensures none { IfNone result (without_seat session seats.now ≡ seats.now) }
{
    for (place, seat) in seats.iter().enumerate() {
        if seat.session == session {
            return Some(place);
        }
    }
    None
}

/// The number in a seat.
fn number_in(seat: Option<Seat>) -> Option<Tx>
    ensures { result ≡ option_map (λ s. s.number) seat }
{
    match seat {
        None => None,
        Some(seat) => Some(seat.number),
    }
}

/// How a reply commits a short, or a batch, if it does.
fn way_by(short: bool, reply: &Reply) -> Option<Way>
    ensures { result ≡ way_by short reply.now }
{
    match reply {
        Reply::Committed { .. } => Some(if short { Way::Short } else { Way::Home }),
        Reply::CommittedBefore { .. } => Some(Way::Forwarded),
        _ => None,
    }
}

/// What a reply commits, where its entry stands at this place and its session has this seat.
fn commit_at(place: usize, seat: Option<Seat>, reply: &Reply) -> Option<Commit>
    ensures { result ≡ commit_at place seat reply.now }
{
    let seat = seat?;
    let way = way_by(seat.short, reply)?;
    Some(Commit {
        number: seat.number,
        way,
        place,
    })
}

/// Whether the reply answers the operation that the line asks.
fn is_answer(entry: &Entry) -> bool
    ensures { result ≡ is_answer entry.now }
{
    asks_operation(&entry.line) && is_reply_of_operation(&entry.reply)
}

/// Whether the line asks an operation.
fn asks_operation(line: &Line) -> bool
    ensures { result ≡ is_some (operation_of line.now) }
{
    matches!(line, Line::Good(Command::Ask(_, Verb::Do(_))))
}

/// Whether the reply answers an operation.
fn is_reply_of_operation(reply: &Reply) -> bool
    ensures { result ≡ is_answering (effect_of reply.now) }
{
    matches!(
        reply,
        Reply::Found { .. } | Reply::Absent | Reply::Rows { .. } | Reply::Done
    )
}

impl Seats {
    /// Nothing is open.
    pub fn new(alloc: Global) -> Seats
        ensures { result ≡ first_desk }
    {
        Seats {
            seats: Vec::new(alloc),
            last: 0,
        }
    }

    /// The transaction of a session ends.
    fn end(&mut self, session: Session)
        ensures { self.new ≡ ends session self.old }
    {
        if let Some(place) = place_of(&self.seats, session) {
            let _ = self.seats.remove(place);
        }
    }

    /// A transaction begins in a session.
    fn begin(&mut self, session: Session, number: Tx, short: bool) -> Result<(), NoMemory>
        ensures { OnOk result (self.new ≡ begins session number short self.old) }
    {
        self.end(session);
        self.seats.push(Seat {
            session,
            number,
            short,
        })?;
        self.last = self.last.max(number.number());
        Ok(())
    }

    /// Takes a reply in a session.
    fn take_reply(&mut self, session: Session, reply: &Reply) -> Result<(), NoMemory>
        ensures { OnOk result (self.new ≡ desk_after_reply session reply.now self.old) }
    {
        match reply {
            Reply::Begun { tx } => self.begin(session, *tx, true),
            Reply::BegunAt { tx, .. } => self.begin(session, *tx, false),
            Reply::Committed { .. }
            | Reply::CommittedBefore { .. }
            | Reply::Aborted
            | Reply::Preserved { .. }
            | Reply::Changed { .. }
            | Reply::Late { .. }
            | Reply::Contradicts { .. } => {
                self.end(session);
                Ok(())
            }
            _ => Ok(()),
        }
    }

    /// Takes an entry.
    pub fn take(&mut self, entry: &Entry) -> Result<(), NoMemory>
        ensures { OnOk result (self.new ≡ desk_after self.old entry.now) }
    {
        match session_of(&entry.line) {
            None => Ok(()),
            Some(session) => self.take_reply(session, &entry.reply),
        }
    }

    /// The number of the transaction that an entry commits.
    pub fn committed_by(&self, entry: &Entry) -> Option<Tx>
        ensures { result ≡ committed_number self.now entry.now }
    {
        let Some(session) = session_of(&entry.line) else {
            return None;
        };
        match &entry.reply {
            Reply::Committed { .. } | Reply::CommittedBefore { .. } => {
                number_in(seat_of(&self.seats, session))
            }
            _ => None,
        }
    }

    /// The commit of an entry at a place.
    pub fn commit_by(&self, place: usize, entry: &Entry) -> Option<Commit>
        ensures { result ≡ commit_by place self.now entry.now }
    {
        let Some(session) = session_of(&entry.line) else {
            return None;
        };
        commit_at(place, seat_of(&self.seats, session), &entry.reply)
    }

    /// The number of the transaction in which an entry is answered.
    pub fn answered_by(&self, entry: &Entry) -> Option<Tx>
        ensures { result ≡ answered_number self.now entry.now }
    {
        let Some(session) = session_of(&entry.line) else {
            return None;
        };
        if is_answer(entry) {
            number_in(seat_of(&self.seats, session))
        } else {
            None
        }
    }

    /// Whether the reply may not stand in a session.
    fn misplaces(&self, session: Session, reply: &Reply) -> bool
        ensures { result ≡ is_misplaced (seat_of self.now.seats session) self.now.last reply.now }
    {
        let seat = seat_of(&self.seats, session);
        match reply {
            Reply::Begun { tx } | Reply::BegunAt { tx, .. } => {
                seat.is_some() || tx.number() <= self.last
            }
            Reply::Found { .. }
            | Reply::Absent
            | Reply::Rows { .. }
            | Reply::Done
            | Reply::Committed { .. }
            | Reply::Aborted
            | Reply::Preserved { .. }
            | Reply::Changed { .. }
            | Reply::Late { .. }
            | Reply::Contradicts { .. } => seat.is_none(),
            Reply::CommittedBefore { .. } => match seat {
                None => true,
                Some(seat) => seat.short,
            },
            _ => false,
        }
    }

    /// Whether the entry may not stand here.
    fn refuses(&self, entry: &Entry) -> bool
        ensures { result ≡ is_open_fault self.now entry.now }
    {
        if !gives(asked_by(&entry.line), &entry.reply) {
            return true;
        }
        match session_of(&entry.line) {
            None => false,
            Some(session) => self.misplaces(session, &entry.reply),
        }
    }
}

/// The number of the first entry that may not stand where it does, counted from 1.
pub(crate) fn first_open_fault(alloc: Global, entries: &[Entry]) -> Result<Option<u64>, NoMemory>
    ensures { IfOk result (λ found. FindsOpenFault entries.now found) }
{
    let mut seats = Seats::new(alloc);
    for (place, entry) in entries.iter().enumerate() {
        if seats.refuses(entry) {
            return Ok(Some(place as u64 + 1));
        }
        seats.take(entry)?;
    }
    Ok(None)
}
