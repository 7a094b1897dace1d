// The keys that have numbers, and how each stands.

ghost use Rattle.std.specs.Prelude.{◌≡◌, ◌<◌, ◌+◌, ◌&&◌, ◌++◌, ◌∷◌, [], Some, IfOk, OnOk, OnErr, IsTrue, ◌↔◌, length, slice_get, slice_set, option_map, false, map, vec_len, vec_capacity};
ghost use Rattle.std.specs.List.{list_any};
ghost use Rattle.indexmap.specs.IndexSet.{spare};
ghost use Rattle.gn_core.specs.Keys.{same_key};
ghost use Rattle.gn_book.specs.Chains.{LeadsTo};
ghost use Rattle.gn_book.specs.Holders.{HoldsAs};
ghost use Rattle.gn_book.specs.Keys.{key_of};
ghost use Rattle.gn_book.specs.Rosters.{with_standing, with_key, with_number, IsNumberOf, IsHeld, IsFirstReady, IsFirstBelow, TellsReady, IsOneHeld};
ghost use Rattle.gn_book.specs.Tasks.{is_task};
ghost use Rattle.gn_book.specs.Standings.{standing_of, stands_open, is_open, is_claimed, is_blocked, is_filed, seat_in, answer_in, next_of, standing_at};
ghost use Rattle.gn_book.specs.declared.status.Status.TheVariants.{Open};

use crate::answer::Answer;
use crate::chain::leads_to;
use crate::event::KeyId;
use crate::held::{Held, first_held, hold, release};
use crate::ready::{Ready, first_ready, offer, withdraw};
use crate::status::{Holder, Status, status_at};
use crate::task::{Task, is_later, is_task};
use gn_items::Key;
use indexmap::IndexSet;
use std::alloc::{AllocError, Global};
use std::collections::BTreeMap;
use std::marker::Model;
use std::sync::atomic::AtomicUsize;
use std::sync::atomic::Ordering::SeqCst;

// A key stands otherwise.
fn stand<A: Drop>(statuses: &mut Vec<Status<A>>, key: KeyId, status: Status<A>)
    requires { key < length statuses.old.items }
    ensures { statuses.new.items ≡ slice_set statuses.old.items key status }
{
    statuses[key] = status;
}

// Makes room for one more key.
fn make_places<A>(keys: &mut IndexSet<Key>, statuses: &mut Vec<Status<A>>) -> Result<(), AllocError>
    ensures keys { keys.new.keys ≡ keys.old.keys }
    ensures statuses { statuses.new.items ≡ statuses.old.items }
    ensures spare { OnOk result (0 < spare keys.new) }
    ensures room { OnOk result (vec_len statuses.new < vec_capacity statuses.new) }
{
    statuses.reserve(1)?;
    keys.reserve(1)
}

// The number of a key, if it has one.
fn number_of(keys: &IndexSet<Key>, key: &Key) -> Option<KeyId>
    ensures { IsNumberOf (map key_of keys.now.keys) (key_of key.now) result }
{
    keys.get_index_of(key)
}

// The key of a number.
fn key_at(keys: &IndexSet<Key>, number: KeyId) -> &Key
    requires { number < length keys.now.keys }
    ensures { slice_get keys.now.keys number ≡ Some result.now }
{
    match keys.get_index(number) {
        Some(key) => key,
        None => unreachable!(),
    }
}

// A new key, for which there is room.
fn put_key(keys: &mut IndexSet<Key>, key: Key)
    requires room { 0 < spare keys.old }
    requires is_new { list_any (same_key (key_of key)) (map key_of keys.old.keys) ≡ false }
    ensures { map key_of keys.new.keys ≡ map key_of keys.old.keys ++ key_of key ∷ [] }
{
    match keys.insert_full(key) {
        Ok(_) => {}
        Err(_) => unreachable!(),
    }
}

// A new key is open; there is room for it.
fn put_open<A: Drop>(statuses: &mut Vec<Status<A>>)
    requires { vec_len statuses.old < vec_capacity statuses.old }
    ensures { statuses.new.items ≡ statuses.old.items ++ Open ∷ [] }
{
    let _ = statuses.push(Status::Open);
}

// Whether a key is a task that nobody has claimed and that has no answer.
fn is_ready<A: Answer>(status: &Status<A>, key: &Key) -> bool
    ensures { result ≡ (stands_open (standing_of A.meaning status.now) && is_task (key_of key.now)) }
{
    status.is_open() && is_task(key)
}

// The keys that have numbers, and how each stands. Contracts see these; which keys are ready and which are held is kept beside
// them.
#[derive(Drop)]
pub(crate) struct Roster<A: Answer> {
    alloc: Global,
    keys: IndexSet<Key>,
    // How each key stands, by its number.
    statuses: Vec<Status<A>>,
    // The tasks that are ready, of the numbers below `fresh`.
    ready: Ready,
    fresh: KeyId,
    // How many of the other numbers were looked at for the first task, since that map was last filled. Any number may stand
    // here.
    looks: AtomicUsize,
    held: Held,
}

impl<A: Answer> Model for Roster<A> {
    ghost use Rattle.std.specs.Prelude.{map};
    ghost use Rattle.std.specs.BTreeMap.{get};
    ghost use Rattle.std.specs.Ordering.{nat_cmp};
    ghost use Rattle.std.specs.Coded.{codes};
    ghost use Rattle.gn_items.specs.Codes.{effects_code};
    ghost use Rattle.gn_definitions.specs.ImportedCode.{import_code};
    ghost use Rattle.gn_book.specs.Keys.{key_of};
    ghost use Rattle.gn_book.specs.Standings.{standing_of};
    ghost use Rattle.gn_book.specs.Rosters.{Table, table_of, IsRoster};

    ghost Value = { Table };

    ghost coded = { Prim.hlevel (codes, import_code, effects_code) };

    ghost view = { λ r. table_of (map key_of r.keys.keys) (map (standing_of A.meaning) r.statuses.items) };

    ghost invariant = { λ r. IsRoster (map key_of r.keys.keys) (map (standing_of A.meaning) r.statuses.items) (get ⟦<Task as Ord>⟧.cmp r.ready) (get nat_cmp r.held) r.fresh };
}

impl<A: Answer> Roster<A> {
    // No key has a number. It takes no memory.
    pub(crate) fn new(alloc: Global) -> Roster<A>
        ensures { result ≡ record { keys = []; standings = [] } }
    {
        Roster {
            alloc,
            keys: IndexSet::new(alloc),
            statuses: Vec::new(alloc),
            ready: BTreeMap::new(alloc),
            fresh: 0,
            looks: AtomicUsize::new(0),
            held: BTreeMap::new(alloc),
        }
    }

    // How many keys have numbers.
    pub(crate) fn len(&self) -> usize
        ensures { result ≡ length self.now.keys }
    {
        self.keys.len()
    }

    // The key of a number.
    pub(crate) fn key(&self, number: KeyId) -> &Key
        requires { number < length self.now.keys }
        ensures { slice_get self.now.keys number ≡ Some (key_of result.now) }
    {
        match self.keys.get_index(number) {
            Some(named) => named,
            None => unreachable!(),
        }
    }

    // The answer of the key of a number, if it has one.
    pub(crate) fn answer(&self, number: KeyId) -> Option<&A>
        requires { number < length self.now.keys }
        ensures { option_map (λ answer. A.meaning answer.now) result ≡ answer_in (slice_get self.now.standings number) }
    {
        status_at(&self.statuses, number).answer()
    }

    // The answer of a key, if it has one.
    pub(crate) fn find(&self, key: &Key) -> Option<&A>
        ensures { option_map (λ answer. A.meaning answer.now) result ≡ answer_in (standing_at self.now.keys self.now.standings (key_of key.now)) }
    {
        match number_of(&self.keys, key) {
            None => None,
            Some(number) => self.answer(number),
        }
    }

    // Who has the key of a number.
    pub(crate) fn holder(&self, number: KeyId) -> Holder
        requires { number < length self.now.keys }
        ensures { HoldsAs (slice_get self.now.standings number) result }
    {
        status_at(&self.statuses, number).holder()
    }

    // Whether the chain of keys that wait leads from one to another.
    pub(crate) fn leads(&self, from: KeyId, to: KeyId) -> bool
        ensures { IsTrue result ↔ LeadsTo (next_of self.now.standings) from to }
    {
        leads_to(&self.statuses, from, to)
    }

    // Whether the key of a number is ready.
    fn tells_ready(&self, number: KeyId) -> bool
        requires { number < length self.now.keys }
        ensures { TellsReady self.now number result }
    {
        is_ready(status_at(&self.statuses, number), self.key(number))
    }

    // The first of a key that is ready and of the key of a number, if that is ready.
    fn sooner(&self, first: Option<KeyId>, number: KeyId) -> Option<KeyId>
        requires number { number < length self.now.keys }
        requires first { IsFirstBelow self.now number first }
        ensures { IsFirstBelow self.now (number + 1) result }
    {
        if !self.tells_ready(number) {
            return first;
        }
        match first {
            None => Some(number),
            Some(other) => {
                if is_later(self.key(other), self.key(number)) {
                    Some(number)
                } else {
                    Some(other)
                }
            }
        }
    }

    // The number of the first key that is ready.
    pub(crate) fn first_ready(&self) -> Option<KeyId>
        ensures { IsFirstReady self.now result }
    {
        self.looks
            .fetch_add(self.keys.len().saturating_sub(self.fresh), SeqCst);
        let mut first = first_ready(&self.ready);
        for number in self.fresh..self.keys.len() {
            first = self.sooner(first, number);
        }
        first
    }

    // A key that a seat has claimed, if there is one.
    pub(crate) fn first_held(&self) -> Option<(KeyId, u32)>
        ensures { IsOneHeld self.now result }
    {
        first_held(&self.held)
    }

    // The number of a key. One that has none gets the next one. After want of memory nothing is changed.
    pub(crate) fn number(&mut self, key: Key) -> Result<KeyId, AllocError>
        ensures number { IfOk result (λ number. slice_get self.new.keys number ≡ Some (key_of key)) }
        ensures ok { OnOk result (self.new ≡ with_number self.old (key_of key)) }
        ensures err { OnErr result (self.new ≡ self.old) }
    {
        match number_of(&self.keys, &key) {
            Some(number) => {
                drop(key);
                Ok(number)
            }
            None => self.add(key),
        }
    }

    // A key that has no number gets the next one, and is ready if it is a task. After want of memory nothing is changed.
    fn add(&mut self, key: Key) -> Result<KeyId, AllocError>
        requires { list_any (same_key (key_of key)) self.old.keys ≡ false }
        ensures number { IfOk result (λ number. slice_get self.new.keys number ≡ Some (key_of key)) }
        ensures ok { OnOk result (self.new ≡ with_key self.old (key_of key)) }
        ensures err { OnErr result (self.new ≡ self.old) }
    {
        match make_places(&mut self.keys, &mut self.statuses) {
            Ok(()) => {}
            Err(error) => {
                drop(key);
                return Err(error);
            }
        }
        let number = self.keys.len();
        put_key(&mut self.keys, key);
        put_open(&mut self.statuses);
        Ok(number)
    }

    // The number `fresh` is passed, if its key isn't open. Contracts see no difference, here and in the next calls.
    fn skip(&mut self) -> bool
        ensures { self.new ≡ self.old }
    {
        if self.fresh < self.keys.len() && !status_at(&self.statuses, self.fresh).is_open() {
            self.fresh += 1;
            true
        } else {
            false
        }
    }

    // The number `fresh` is passed, if its key is open: the map has that key then, if it is a task.
    fn offer_next(&mut self) -> Result<(), AllocError>
        ensures { self.new ≡ self.old }
    {
        if self.fresh < self.keys.len() && status_at(&self.statuses, self.fresh).is_open() {
            offer(
                self.alloc,
                &mut self.ready,
                key_at(&self.keys, self.fresh),
                self.fresh,
            )?;
            self.fresh += 1;
            return Ok(());
        }
        Ok(())
    }

    // The number `fresh` is passed.
    fn pass(&mut self) -> Result<(), AllocError>
        ensures { self.new ≡ self.old }
    {
        if self.skip() {
            Ok(())
        } else {
            self.offer_next()
        }
    }

    // Numbers are passed up to the first one whose key is open.
    fn skip_all(&mut self)
        ensures { self.new ≡ self.old }
    {
        for _step in self.fresh..self.keys.len() {
            if !self.skip() {
                return;
            }
        }
    }

    // All numbers are passed.
    fn pass_all(&mut self) -> Result<(), AllocError>
        ensures { self.new ≡ self.old }
    {
        for _step in self.fresh..self.keys.len() {
            self.pass()?;
        }
        self.looks.store(0, SeqCst);
        Ok(())
    }

    // The map is filled where the numbers that it lacks were looked at again and again. So a key that is looked at costs no more than
    // it would cost in the map, up to a few looks.
    fn settle(&mut self) -> Result<(), AllocError>
        ensures { self.new ≡ self.old }
    {
        self.skip_all();
        let few = self.keys.len().saturating_sub(self.fresh);
        if self.looks.load(SeqCst) / 4 > few.saturating_add(16) {
            self.pass_all()
        } else {
            Ok(())
        }
    }

    // A seat claims an open key, of which a copy is given out. After want of memory nothing is changed.
    pub(crate) fn claim(&mut self, number: KeyId, seat: u32) -> Result<Key, AllocError>
        requires number { number < length self.old.keys }
        requires is_open { slice_get self.old.standings number ≡ Some is_open }
        ensures key { IfOk result (λ key. slice_get self.old.keys number ≡ Some (key_of key)) }
        ensures ok { OnOk result (self.new ≡ with_standing self.old number (is_claimed seat)) }
        ensures err { OnErr result (self.new ≡ self.old) }
    {
        self.settle()?;
        self.claim_open(number, seat)
    }

    // The same, whatever was looked at.
    fn claim_open(&mut self, number: KeyId, seat: u32) -> Result<Key, AllocError>
        requires number { number < length self.old.keys }
        requires is_open { slice_get self.old.standings number ≡ Some is_open }
        ensures key { IfOk result (λ key. slice_get self.old.keys number ≡ Some (key_of key)) }
        ensures ok { OnOk result (self.new ≡ with_standing self.old number (is_claimed seat)) }
        ensures err { OnErr result (self.new ≡ self.old) }
    {
        let named = self.key(number).copy(self.alloc)?;
        match hold(&mut self.held, number, seat) {
            Ok(()) => {
                stand(&mut self.statuses, number, Status::Claimed(seat));
                Ok(withdraw(&mut self.ready, named))
            }
            Err(error) => {
                drop(named);
                Err(error)
            }
        }
    }

    // A key that a seat has claimed waits for another.
    pub(crate) fn block(&mut self, number: KeyId, seat: u32, on: KeyId)
        requires number { number < length self.old.keys }
        requires claimed { seat_in (slice_get self.old.standings number) ≡ Some seat }
        ensures { self.new ≡ with_standing self.old number (is_blocked seat on) }
    {
        stand(&mut self.statuses, number, Status::Blocked(seat, on));
    }

    // A key that a seat has claimed gets its answer.
    pub(crate) fn file(&mut self, number: KeyId, answer: A)
        requires number { number < length self.old.keys }
        requires claimed { IsHeld self.old number }
        ensures { self.new ≡ with_standing self.old number (is_filed (A.meaning answer)) }
    {
        release(&mut self.held, number);
        stand(&mut self.statuses, number, Status::Filed(answer));
    }
}
