// The book: what is claimed, blocked and filed.

ghost use Rattle.std.specs.Prelude.{◌≡◌, ◌<◌, ◌≤◌, ◌+◌, [], ◌∷◌, ◌++◌, None, Some, IfOk, IfErr, OnOk, OnErr, length, slice_get, option_map, ◌↔◌, Bool, true, if◌then◌else◌, false, vec_len, vec_capacity};
ghost use Rattle.gn_core.specs.Machine.{Claim as claimed, File as filed, Stop as stopping};
ghost use Rattle.gn_book.specs.declared.book.Claim.{Claim};
ghost use Rattle.gn_book.specs.declared.book.Blocked.TheVariants.{Work, Wait, Cyclic};
ghost use Rattle.gn_book.specs.Blocks.{LeadsBack, BlocksAs};
ghost use Rattle.gn_book.specs.Keys.{key_of};
ghost use Rattle.gn_book.specs.Logs.{Log, KeysDiffer, state_of, with_key, with_event, block_event, key_at, events_by, IsFree, cause_in, HasKeys, has_stopped, earlier, first_cause};
ghost use Rattle.gn_book.specs.Next.{HasNoClaim, NextIs};
ghost use Rattle.gn_book.specs.Graphs.{is_unit, IsNew, IsGraphOf, with_answer, UnitsHaveNumbers, HasMoreKeys, OnlyUnitsAreNew};
ghost use Rattle.gn_closure.specs.Computed.{is_too_large};
ghost use Rattle.gn_core.specs.Keys.{units};
ghost use Rattle.gn_graph.specs.Needs.{home};
ghost use Rattle.gn_graph.specs.Numbers.{IsMore};

use crate::answer::Answer;
use crate::closed::Closed;
use crate::event::{Block, Cause, Event, KeyId};
use crate::next::{Next, next_by};
use crate::reached::{add_answer, number_facts};
use crate::roster::Roster;
use crate::status::Holder;
use gn_graph::{Graph, more_answers_reach_more, start_graph};
use gn_items::Key;
use gn_paths::Place;
use std::alloc::{AllocError, Global};
use std::marker::Model;

/// The leave to find out what a key names. It can't be copied: who has it alone may file the answer.
#[derive(Debug, Drop)]
pub struct Claim {
    /// What is to be found out.
    pub key: Key,
    /// The seat that has the claim.
    pub seat: u32,
    /// The number of the key.
    pub number: KeyId,
}

// Makes room for one more event, and for the stops that may follow.
fn make_room(log: &mut Vec<Event>, left: u32) -> Result<(), AllocError>
    ensures items { log.new.items ≡ log.old.items }
    ensures len { vec_len log.new ≡ vec_len log.old }
    ensures room { OnOk result (vec_len log.new + 1 + left ≤ vec_capacity log.new) }
    ensures kept { vec_capacity log.old ≤ vec_capacity log.new }
{
    log.reserve(left as usize + 1)
}

// Makes room for the event of an answer, and adds the answer to the graph. After want of memory the graph is as it was.
fn take_in<A: Answer>(
    alloc: Global,
    log: &mut Vec<Event>,
    left: u32,
    graph: &mut Graph,
    key: &Key,
    answer: &A,
) -> Result<(), AllocError>
    requires { IsNew graph.old.replies (key_of key.now) }
    ensures items { log.new.items ≡ log.old.items }
    ensures len { vec_len log.new ≡ vec_len log.old }
    ensures room { OnOk result (vec_len log.new + 1 + left ≤ vec_capacity log.new) }
    ensures kept { vec_capacity log.old ≤ vec_capacity log.new }
    ensures ok { OnOk result (graph.new.replies ≡ with_answer graph.old.replies (key_of key.now) (A.meaning answer.now)) }
    ensures found { OnOk result (IsMore graph.old.found graph.new.found) }
    ensures err { OnErr result (graph.new ≡ graph.old) }
{
    make_room(log, left)?;
    add_answer(alloc, graph, key, answer)
}

// Puts an event behind the others; there is room for it.
fn note(log: &mut Vec<Event>, event: Event)
    requires { vec_len log.old < vec_capacity log.old }
    ensures items { log.new.items ≡ log.old.items ++ event ∷ [] }
    ensures len { vec_len log.new ≡ vec_len log.old + 1 }
    ensures capacity { vec_capacity log.old ≤ vec_capacity log.new }
{
    let _ = log.push(event);
}

// The first cause stays.
fn set_first(stop: &mut Option<Cause>, cause: Cause)
    ensures { stop.new ≡ earlier stop.old (Some cause) }
{
    if stop.is_none() {
        *stop = Some(cause);
    }
}

impl Claim {
    fn spend(self) {}
}

/// What comes of a key's waiting for another.
#[derive(Debug, Drop)]
pub enum Blocked {
    /// The other key has its answer.
    Ready,
    /// Nobody had claimed the other key: now the seat has.
    Work(Claim),
    /// This seat has claimed the other key.
    Wait(u32),
    /// The chain of keys that wait, from the other key on, leads back to the key that begins to wait.
    Cyclic,
}

// What comes of a wait for a key that a seat has claimed.
fn wait_or_cycle(closes: bool, seat: u32) -> Blocked
    ensures { result ≡ (if closes then Cyclic else Wait seat) }
{
    if closes {
        Blocked::Cyclic
    } else {
        Blocked::Wait(seat)
    }
}

/// The book of loading. Contracts see its keys, each at its number, and its log: the list of all events. What is claimed,
/// blocked and filed is what that log leaves. It keeps the graph of the units that are reached over what is filed.
#[derive(Drop)]
pub struct Book<A: Answer> {
    alloc: Global,
    seats: u32,
    // How many seats haven't stopped.
    left: u32,
    // The keys, and how each stands.
    roster: Roster<A>,
    log: Vec<Event>,
    // The cause of the first stop.
    stop: Option<Cause>,
    // What is reached over the answers that are filed.
    graph: Graph,
    // How many facts of the graph were looked at: the units that they reach have numbers.
    seen: usize,
}

impl<A: Answer> Model for Book<A> {
    ghost use Rattle.std.specs.Prelude.{vec_len, vec_capacity};
    ghost use Rattle.gn_book.specs.Logs.{Log};
    ghost use Rattle.gn_book.specs.Books.{log_in, IsWhole};
    ghost use Rattle.gn_book.specs.Graphs.{IsGraphed};
    ghost use Rattle.std.specs.Coded.{codes};
    ghost use Rattle.gn_items.specs.Codes.{effects_code};
    ghost use Rattle.gn_definitions.specs.ImportedCode.{import_code};

    ghost Value = { Log };

    ghost coded = { Prim.hlevel (codes, import_code, effects_code) };

    ghost view = { λ b. log_in b.seats b.roster.keys b.roster.standings b.log.items };

    ghost invariant = { λ b. IsWhole b.seats b.left b.stop b.roster.keys b.roster.standings b.log.items (vec_len b.log) (vec_capacity b.log)
        × IsGraphed (log_in b.seats b.roster.keys b.roster.standings b.log.items) b.graph b.seen };
}

impl<A: Answer> Book<A> {
    /// A book with no events, for so many seats. Room for their stops is taken here.
    pub fn new(alloc: Global, seats: u32) -> Result<Book<A>, AllocError>
        ensures { IfOk result (λ book. book ≡ record { seats = seats; keys = []; events = [] }) }
    {
        let mut log = Vec::new(alloc);
        log.reserve(seats as usize)?;
        match start_graph(alloc) {
            Ok(graph) => Ok(Book {
                alloc,
                seats,
                left: seats,
                roster: Roster::new(alloc),
                log,
                stop: None,
                graph,
                seen: 0,
            }),
            Err(error) => {
                drop(log);
                Err(error)
            }
        }
    }

    /// How many keys have numbers: the numbers are those below. It takes no memory.
    pub fn len(&self) -> usize
        ensures { result ≡ length self.now.keys }
    {
        self.roster.len()
    }

    /// What is reached and generated over what is filed: its answers are those of the units that are filed. It takes no memory.
    pub fn graph(&self) -> &Graph
        ensures { IsGraphOf result.now.replies (state_of self.now).filed }
    {
        &self.graph
    }

    /// The key of a number. It takes no memory.
    pub fn key(&self, key: KeyId) -> &Key
        requires { key < length self.now.keys }
        ensures { slice_get self.now.keys key ≡ Some (key_of result.now) }
    {
        self.roster.key(key)
    }

    /// No key has two numbers. It does nothing.
    pub fn keys_differ(&self)
        ensures { KeysDiffer self.now }
    {
        // Looking inside brings what holds of every book.
        let _seats = self.seats;
    }

    /// The answer of the key of a number. None comes exactly where none is filed. It takes no memory.
    pub fn answer(&self, key: KeyId) -> Option<&A>
        requires { key < length self.now.keys }
        ensures { option_map (λ answer. A.meaning answer.now) result ≡ (state_of self.now).filed (key_at self.now key) }
    {
        self.roster.answer(key)
    }

    /// The same book, to which nothing is added any longer. What is reached is let go.
    pub fn close(self) -> Closed<A>
        ensures { result ≡ self }
    {
        let Book {
            alloc: _,
            seats,
            left,
            roster,
            log,
            stop,
            graph,
            seen: _,
        } = self;
        drop(graph);
        Closed {
            seats,
            left,
            roster,
            log,
            stop,
        }
    }

    /// The answer of a key. None comes exactly where none is filed, also where the key has no number. It takes no memory.
    pub fn find(&self, key: &Key) -> Option<&A>
        ensures { option_map (λ answer. A.meaning answer.now) result ≡ (state_of self.now).filed (key_of key.now) }
    {
        self.roster.find(key)
    }

    /// Whether more build files, each counted under each of its toolchains, or more build configurations are reached over what
    /// is filed than a build may have. It takes no memory and no time.
    pub fn reaches_too_many(&self) -> bool
        ensures { result ≡ is_too_large home (units (state_of self.now).filed) }
    {
        self.graph.is_too_large()
    }

    /// All events, the first one first. The answer of a key that was filed is that of `answer`. It takes no memory.
    pub fn events(&self) -> &[Event]
        ensures { events_by self.now result.now ≡ self.now.events }
    {
        &self.log
    }

    /// The cause of the first stop. None comes exactly where no seat has stopped. It takes no memory.
    pub fn stopped(&self) -> Option<Cause>
        ensures { option_map (cause_in (key_at self.now)) result ≡ first_cause (state_of self.now).stops }
    {
        self.stop
    }

    /// What a seat that has no claim does next. `Stopped` comes exactly where a seat has stopped, with the cause of the first
    /// stop; `Work` exactly where else a key is ready: a unit or a label that has a number, that nobody has claimed and that has
    /// no answer. It is the first of them: build configurations come before build files, these before records, and each kind
    /// goes by path or label, then by toolchain. `Later` comes exactly where no key is ready and one is claimed: this one, by
    /// this other seat; `Quiet` where none is. It takes no memory.
    pub fn next(&self, seat: u32) -> Next
        requires { HasNoClaim self.now seat }
        ensures { NextIs self.now seat result }
    {
        match self.stop {
            Some(cause) => Next::Stopped(cause),
            None => next_by(self.roster.first_ready(), self.roster.first_held()),
        }
    }

    /// The number of a key that isn't a unit. A key that has none gets the next one; a label is ready from then on. After want of
    /// memory nothing is changed, and the key is dropped.
    pub fn number(&mut self, key: Key) -> Result<KeyId, AllocError>
        requires { is_unit (key_of key) ≡ false }
        ensures number { IfOk result (λ number. slice_get self.new.keys number ≡ Some (key_of key)) }
        ensures ok { OnOk result (self.new ≡ with_key self.old (key_of key)) }
        ensures err { OnErr result (self.new ≡ self.old) }
    {
        self.roster.number(key)
    }

    /// Each unit that is reached over what is filed gets a number, if it has none, and is ready from then on; no other unit has a
    /// number. After want of memory some may still have none: the next call goes on.
    pub fn number_reached(&mut self) -> Result<(), AllocError>
        ensures ok { OnOk result (UnitsHaveNumbers self.new) }
        ensures keys { HasMoreKeys self.old self.new }
        ensures units { OnlyUnitsAreNew self.old self.new }
    {
        number_facts(self.alloc, &mut self.roster, &self.graph, &mut self.seen)
    }

    /// The seat claims a key that has no answer and that nobody has claimed. After want of memory nothing is changed.
    pub fn claim(&mut self, seat: u32, key: KeyId) -> Result<Claim, AllocError>
        requires number { key < length self.old.keys }
        requires free { IsFree (state_of self.old) (key_at self.old key) }
        ensures claim { IfOk result (λ c. (key_of c.key ≡ key_at self.old key) × (c.seat ≡ seat) × (c.number ≡ key)) }
        ensures ok { OnOk result (self.new ≡ with_event self.old (claimed seat (key_at self.old key))) }
        ensures err { OnErr result (self.new ≡ self.old) }
    {
        make_room(&mut self.log, self.left)?;
        let named = self.roster.claim(key, seat)?;
        note(&mut self.log, Event::Claim(seat, key));
        Ok(Claim {
            key: named,
            seat,
            number: key,
        })
    }

    /// Files the answer of a key that the seat of the claim has claimed: units that are reached by it get their numbers by
    /// `number_reached`. After want of memory nothing is changed, and the claim
    /// and the answer come back.
    pub fn file(&mut self, claim: Claim, answer: A) -> Result<(), (Claim, A)>
        requires number { claim.number < length self.old.keys }
        requires claimed { (state_of self.old).claims (key_at self.old claim.number) ≡ Some claim.seat }
        ensures ok { OnOk result (self.new ≡ with_event self.old (filed claim.seat (key_at self.old claim.number) (A.meaning answer))) }
        ensures err { OnErr result (self.new ≡ self.old) }
        ensures back { IfErr result (λ back. back ≡ (claim, answer)) }
    {
        match take_in(
            self.alloc,
            &mut self.log,
            self.left,
            &mut self.graph,
            self.roster.key(claim.number),
            &answer,
        ) {
            Err(_) => Err((claim, answer)),
            Ok(()) => {
                let seat = claim.seat;
                let number = claim.number;
                claim.spend();
                self.roster.file(number, answer);
                more_answers_reach_more();
                note(&mut self.log, Event::File(seat, number));
                Ok(())
            }
        }
    }

    /// The seat, which hasn't stopped, stops. It takes no memory.
    pub fn stop(&mut self, seat: u32, cause: Cause)
        requires seat { seat < self.old.seats }
        requires first { has_stopped self.old.events seat ≡ false }
        requires cause { HasKeys self.old cause }
        ensures { self.new ≡ with_event self.old (stopping seat (cause_in (key_at self.old) cause)) }
    {
        self.left -= 1;
        set_first(&mut self.stop, cause);
        note(&mut self.log, Event::Stop(seat, cause));
    }
    // The key of a claim waits for one that nobody has claimed: the seat claims that too.
    fn block_free(&mut self, claim: &Claim, on: KeyId, place: Place) -> Result<Blocked, AllocError>
        requires numbers { (claim.now.number < length self.old.keys) × (on < length self.old.keys) }
        requires claimed { (state_of self.old).claims (key_at self.old claim.now.number) ≡ Some claim.now.seat }
        requires free { IsFree (state_of self.old) (key_at self.old on) }
        ensures claim { IfOk result (λ blocked. (c : Claim) × (blocked ≡ Work c) × (key_of c.key ≡ key_at self.old on) × (c.seat ≡ claim.now.seat) × (c.number ≡ on)) }
        ensures ok { OnOk result (self.new ≡ with_event self.old (block_event self.old claim.now.seat claim.now.number on place false)) }
        ensures err { OnErr result (self.new ≡ self.old) }
    {
        make_room(&mut self.log, self.left)?;
        let named = self.roster.claim(on, claim.seat)?;
        self.roster.block(claim.number, claim.seat, on);
        let block = Block {
            on,
            place,
            closes: false,
        };
        note(&mut self.log, Event::Block(claim.seat, claim.number, block));
        Ok(Blocked::Work(Claim {
            key: named,
            seat: claim.seat,
            number: on,
        }))
    }

    // The key of a claim waits for one that a seat has claimed.
    fn block_held(
        &mut self,
        claim: &Claim,
        on: KeyId,
        place: Place,
        seat: u32,
    ) -> Result<Blocked, AllocError>
        requires numbers { (claim.now.number < length self.old.keys) × (on < length self.old.keys) }
        requires claimed { (state_of self.old).claims (key_at self.old claim.now.number) ≡ Some claim.now.seat }
        requires held { (state_of self.old).claims (key_at self.old on) ≡ Some seat }
        ensures ok { IfOk result (λ blocked. (closes : Bool) × (blocked ≡ (if closes then Cyclic else Wait seat))
            × ((closes ≡ true) ↔ LeadsBack self.old on claim.now.number)
            × (self.new ≡ with_event self.old (block_event self.old claim.now.seat claim.now.number on place closes))) }
        ensures err { OnErr result (self.new ≡ self.old) }
    {
        make_room(&mut self.log, self.left)?;
        let closes = self.roster.leads(on, claim.number);
        let block = Block { on, place, closes };
        self.roster.block(claim.number, claim.seat, on);
        note(&mut self.log, Event::Block(claim.seat, claim.number, block));
        Ok(wait_or_cycle(closes, seat))
    }
    /// The key of a claim needs another, which a call at this place asks for. `Ready` comes exactly where the other key is filed,
    /// and then nothing is changed; `Work` exactly where it is neither filed nor claimed; `Cyclic` exactly where the chain of
    /// keys that wait, from the other key on, leads back to the key of the claim; `Wait` in the other cases. After want of
    /// memory nothing is changed.
    pub fn block(&mut self, claim: &Claim, on: KeyId, place: Place) -> Result<Blocked, AllocError>
        requires numbers { (claim.now.number < length self.old.keys) × (on < length self.old.keys) }
        requires claimed { (state_of self.old).claims (key_at self.old claim.now.number) ≡ Some claim.now.seat }
        ensures ok { IfOk result (BlocksAs self.old self.new claim.now.seat claim.now.number on place) }
        ensures err { OnErr result (self.new ≡ self.old) }
    {
        match self.roster.holder(on) {
            Holder::Done => Ok(Blocked::Ready),
            Holder::Nobody => self.block_free(claim, on, place),
            Holder::Seat(seat) => self.block_held(claim, on, place, seat),
        }
    }
}
