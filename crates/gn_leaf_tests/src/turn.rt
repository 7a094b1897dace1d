//! Books that threads write in turns: each note arrives, in an order that each seat agrees with.
ghost use Rattle.std.specs.Prelude.{◌≡◌, ◌<◌, ◌≤◌, [], ◌∷◌, ◌++◌, All, IfOk, length, map};
ghost use Rattle.gn_turn.specs.History.{AddsOwn};
ghost use Rattle.gn_turn.specs.Turns.{AreNewSeats, AreInOrder, IsSeatOf, IsIdle, IsSameSeat, seat_count};

use gn_turn::{Kept, Seat, Turn};
use std::alloc::{AllocError, Global};
use std::sync::Wait;
use std::test::Fail;
use std::thread;
use std::thread::Threads;

// Who wrote the note, which of its own it is, and how many notes the writer saw before it.
#[derive(Clone, Copy, Drop)]
struct Note {
    by: u32,
    mark: u64,
    before: usize,
}

// A book that takes notes.
trait Book: Kept {
    // How many notes it has.
    fn count(&self) -> usize;

    // The note at a place.
    fn note_at(&self, place: usize) -> Option<Note>;

    // Writes a note, or nothing where there is no memory.
    fn note(&mut self, note: Note)
        ensures basis { Self.basis self.new ≡ Self.basis self.old }
        ensures adds { AddsOwn Self.number note.by (Self.history self.old) (Self.history self.new) };
}

// A book of notes.
#[derive(Drop)]
struct Journal {
    title: u64,
    notes: Vec<Note>,
}

impl Kept for Journal {
    type Entry = Note;

    type Basis = u64;

    ghost basis = { λ j. j.title };

    ghost history = { λ j. j.notes.items };

    ghost number = { λ n. n.by };
}

impl Book for Journal {
    fn count(&self) -> usize {
        self.notes.len()
    }

    fn note_at(&self, place: usize) -> Option<Note> {
        self.notes.get(place).copied()
    }

    fn note(&mut self, note: Note) {
        let _ = self.notes.push(note);
    }
}

// What a log keeps of a note: its writer, and what the writer counted.
#[derive(Clone, Copy, Drop)]
struct Event {
    writer: u32,
    counts: (u64, usize),
}

// A book of events, from which its notes are made.
#[derive(Drop)]
struct Log {
    title: u64,
    events: Vec<Event>,
}

impl Kept for Log {
    type Entry = Note;

    type Basis = u64;

    ghost basis = { λ l. l.title };

    ghost history = { λ l. map (λ e. record { by = e.writer; mark = e.counts.0; before = e.counts.1 }) l.events.items };

    ghost number = { λ n. n.by };
}

impl Book for Log {
    fn count(&self) -> usize {
        self.events.len()
    }

    fn note_at(&self, place: usize) -> Option<Note> {
        let event = self.events.get(place)?;
        Some(Note {
            by: event.writer,
            mark: event.counts.0,
            before: event.counts.1,
        })
    }

    fn note(&mut self, note: Note) {
        let _ = self.events.push(Event {
            writer: note.by,
            counts: (note.mark, note.before),
        });
    }
}

// Writes notes, each in a turn of its own.
fn write<R: Wait, B: Book + Drop>(rt: &R, turn: &Turn<B>, seat: &mut Seat<B>, times: u64)
    requires own { IsSeatOf turn.now seat.old }
    requires idle { IsIdle seat.old }
    ensures same { IsSameSeat seat.old seat.new }
    ensures idle { IsIdle seat.new }
{
    let by = seat.number();
    for mark in 0..times {
        let mut held = turn.take(rt, seat);
        let before = held.kept().count();
        held.kept_mut().note(Note { by, mark, before });
        turn.give(seat, held);
    }
}

// Each seat writes its notes, in a thread of its own where one can be made.
fn write_in_threads<R: Threads + Wait + Sync, B: Book + Drop + Send>(
    rt: &R,
    turn: &Turn<B>,
    seats: &mut Vec<Seat<B>>,
    times: u64,
)
    requires count { length seats.old.items ≡ seat_count turn.now }
    requires new { AreNewSeats turn.now seats.old.items }
    ensures count { length seats.new.items ≡ seat_count turn.now }
    ensures order { AreInOrder seats.new.items }
    ensures idle { All (λ s. IsSeatOf turn.now s × IsIdle s) seats.new.items }
{
    let threads = seats.len().max(1);
    thread::for_each_mut(
        rt,
        seats.as_mut_slice(),
        threads,
        &|_, seat| write(rt, turn, seat, times),
    );
}

// The book after all seats wrote their notes.
fn write_all<R: Threads + Wait + Sync, B: Book + Drop + Send>(
    rt: &R,
    alloc: Global,
    book: B,
    count: u32,
    times: u64,
) -> Result<B, AllocError>
    requires count { (0 < count) × (count ≤ 64) }
    requires empty { B.history book ≡ [] }
    ensures basis { IfOk result (λ b. B.basis b ≡ B.basis book) }
    ensures numbers { IfOk result (λ b. All (λ n. B.number n < count) (B.history b)) }
{
    let (turn, mut seats) = Turn::new(alloc, book, count)?;
    write_in_threads(rt, &turn, &mut seats, times);
    turn.finish(seats)
}

// A journal after all seats wrote their notes.
fn written_journal<R: Threads + Wait + Sync>(
    rt: &R,
    alloc: Global,
    count: u32,
    times: u64,
) -> Result<Journal, AllocError>
    requires count { (0 < count) × (count ≤ 64) }
    ensures title { IfOk result (λ j. j.title ≡ 7) }
    ensures numbers { IfOk result (λ j. All (λ n. n.by < count) j.notes.items) }
{
    let journal = Journal {
        title: 7,
        notes: Vec::new(alloc),
    };
    write_all(rt, alloc, journal, count, times)
}

// A log after all seats wrote their notes.
fn written_log<R: Threads + Wait + Sync>(
    rt: &R,
    alloc: Global,
    count: u32,
    times: u64,
) -> Result<Log, AllocError>
    requires count { (0 < count) × (count ≤ 64) }
    ensures title { IfOk result (λ l. l.title ≡ 8) }
{
    let log = Log {
        title: 8,
        events: Vec::new(alloc),
    };
    write_all(rt, alloc, log, count, times)
}

// Whether the note is its writer's next, and stands where the writer saw the book end.
fn is_next(note: Note, place: usize, next: &mut [u64]) -> bool {
    let Some(mark) = next.get_mut(note.by as usize) else {
        return false;
    };
    if *mark != note.mark || *mark == u64::MAX || note.before != place {
        return false;
    }
    *mark += 1;
    true
}

// Whether each seat's notes stand in the order in which it wrote them.
fn is_in_order<B: Book>(book: &B, next: &mut [u64]) -> bool {
    for place in 0..book.count() {
        let Some(note) = book.note_at(place) else {
            return false;
        };
        if !is_next(note, place, next) {
            return false;
        }
    }
    true
}

fn are_all(next: &[u64], times: u64) -> bool {
    next.iter().all(|&mark| mark == times)
}

// Whether each seat wrote so many notes, in order.
fn is_written<B: Book>(alloc: Global, book: &B, row: &(u32, u64)) -> Result<bool, AllocError> {
    let mut next = vec![in alloc; 0; row.0 as usize]?;
    Ok(is_in_order(book, next.as_mut_slice()) && are_all(&next, row.1))
}

// How many seats write how many notes each.
const WRITERS: [(u32, u64); 4] = [(1, 3), (2, 1000), (8, 1000), (64, 50)];

fn arrive_in_journal<R: Threads + Wait + Sync>(
    rt: &R,
    alloc: Global,
    row: &(u32, u64),
) -> Result<bool, AllocError> {
    let count = row.0;
    if count == 0 || count > 64 {
        return Ok(false);
    }
    let journal = written_journal(rt, alloc, count, row.1)?;
    Ok(journal.title == 7 && is_written(alloc, &journal, row)?)
}

#[test]
fn each_note_arrives_in_a_journal(rt: HostRuntime) -> Result<(), Fail> {
    for row in &WRITERS {
        assert!(rt; arrive_in_journal(&rt, rt.alloc(), row)?, "{} seats", row.0);
    }
    Ok(())
}

fn arrive_in_log<R: Threads + Wait + Sync>(
    rt: &R,
    alloc: Global,
    row: &(u32, u64),
) -> Result<bool, AllocError> {
    let count = row.0;
    if count == 0 || count > 64 {
        return Ok(false);
    }
    let log = written_log(rt, alloc, count, row.1)?;
    Ok(log.title == 8 && is_written(alloc, &log, row)?)
}

#[test]
fn each_note_arrives_in_a_log(rt: HostRuntime) -> Result<(), Fail> {
    for row in &WRITERS {
        assert!(rt; arrive_in_log(&rt, rt.alloc(), row)?, "{} seats", row.0);
    }
    Ok(())
}
