//! The turn: a lock whose word counts the history of what lies behind it.
ghost use Rattle.std.specs.Prelude.{◌≡◌, ℕ, ◌<◌, ◌≤◌, ◌^◌, ◌/◌, ◌⊎◌, false, true, [], ◌∷◌, ◌++◌, length, suc, Some, None, IfSome, IfNone, All, slice_index_or};
ghost use Rattle.turn_lock.specs.History.{IsNext};
ghost use Rattle.turn_lock.specs.Inside.Steps.{IsPrepared, having_stored};
ghost use Rattle.turn_lock.specs.Turns.{with_turn, after_turn, after_count, after_front, after_rest, after_join, Continues, HasAll};

use crate::held::{Held, Taken};
use crate::pass::Pass;
use crate::pause::pause;
use crate::rule::{OneHistory, Opening};
use crate::steps::{Acquire, Count, Read, Release, See, Store, TakeIn};
use crate::told::Told;
use crate::view::View;
use atomic_table::{Seat, Table};
use std::alloc::Global;
use std::marker::Model;
use std::sync::Wait;
use std::time::{Clock, Duration};

/// How long a pass that rests sleeps if nobody wakes it, in milliseconds.
const NAP_MILLIS: u64 = 100;

/// The seat of a pass at the turn's table.
pub(crate) type PassSeat<T> = Seat<Option<T>, View<<T as Told>::Name, <T as Told>::Entry>>;

/// The turn's table.
pub(crate) type TurnTable<T> = Table<
    Option<T>,
    View<<T as Told>::Name, <T as Told>::Entry>,
    Opening<T>,
    OneHistory,
    Global,
>;

/// A state that passes take turns at. Anyone with a pass reads its count and its fronts without waiting.
#[derive(Drop)]
pub struct Turn<T: Told> {
    pub(crate) table: Table<Option<T>, View<T::Name, T::Entry>, Opening<T>, OneHistory, Global>,
    pub(crate) fronts: usize,
}

impl<T: Told> Model for Turn<T> {
    ghost use Rattle.std.specs.Prelude.{◌≡◌, ◌<◌, ◌^◌, suc};
    ghost use Rattle.turn_lock.specs.Turns.{TurnId};

    ghost Value = { TurnId T.Name };

    ghost view = { λ t. record {
      table = t.table.shared.table_id;
      name = T.name t.table.shared.key.first.value;
      passes = t.table.shared.key.passes;
    } };

    ghost invariant = { λ t. (t.table.shared.table_id.words ≡ suc t.fronts) × (t.table.shared.table_id.slots ≡ 1)
        × (t.fronts ≡ T.width (T.name t.table.shared.key.first.value)) × (suc t.fronts < 2 ^ 64) };
}

impl<T: Told> Turn<T> {
    /// Takes the turn, with the state as the turn before left it: no other turn begins until this one is released.
    ///
    /// The pass then has seen the whole history, and the fronts are at least what it was told of them before. It waits for the pass that holds the
    /// turn, which is another one.
    pub fn acquire<R: Wait + Clock>(&self, wait: &R, pass: &mut Pass<T>) -> Held<T>
        requires pass { pass.old.turn ≡ self.now }
        requires idle { pass.old.holds ≡ false }
        ensures pass { pass.new ≡ with_turn pass.old (T.entries result.value) }
        ensures name { T.name result.value ≡ self.now.name }
        ensures continues { Continues pass.old (T.entries result.value) }
        ensures fronts { All (λ t. t.1 ≤ T.front_of self.now.name (T.entries result.value) t.0) pass.old.told }
    {
        let mut pauses = 0;
        for _ in wait.forever() {
            if let Some(held) = self.try_acquire(pass) {
                return held;
            }
            pauses = pause(wait, pass.number, pauses);
        }
        unreachable!()
    }

    /// Takes the turn if it is free and no other pass is faster; else nothing changes. It looks first whether the turn is
    /// free, by a load that tells the pass nothing, and tries the exchange only then. An exchange that was lost tells the
    /// pass nothing either.
    fn try_acquire(&self, pass: &mut Pass<T>) -> Option<Held<T>>
        requires { pass.old.turn ≡ self.now }
        ensures pass { IfSome result (λ h. pass.new ≡ with_turn pass.old (T.entries h.value)) }
        ensures name { IfSome result (λ h. T.name h.value ≡ self.now.name) }
        ensures continues { IfSome result (λ h. Continues pass.old (T.entries h.value)) }
        ensures fronts { IfSome result
            (λ h. All (λ t. t.1 ≤ T.front_of self.now.name (T.entries h.value) t.0) pass.old.told) }
        ensures none { IfNone result (pass.new ≡ pass.old) }
    {
        let shared = &self.table.shared;
        let word = shared.peek(0);
        if word % 2 == 1 {
            return None;
        }
        let found = shared.compare_exchange::<Acquire>(&mut pass.seat, 0, word, word + 1);
        if found != word {
            return None;
        }
        let Some(value) = shared.exchange(&mut pass.seat, 0, None) else {
            unreachable!()
        };
        pass.count = value.length();
        Some(Held {
            value,
            taken: Taken,
        })
    }

    /// Ends the turn with the state as it is now.
    ///
    /// The state has the name that it had, and the entries that it had, with at most one more behind them, of this pass's number. No front is
    /// less. The history with the new entry counts from the one store that frees the turn.
    pub fn release(&self, pass: &mut Pass<T>, held: Held<T>)
        requires pass { pass.old.turn ≡ self.now }
        requires holds { pass.old.holds ≡ true }
        requires name { T.name held.value ≡ self.now.name }
        requires entries { IsNext pass.old.number pass.old.seen (T.entries held.value) }
        requires fronts { (i : ℕ) → i < T.width self.now.name →
            T.front_of self.now.name pass.old.seen i ≤ T.front_of self.now.name (T.entries held.value) i }
        requires room { length (T.entries held.value) < 2 ^ 62 }
        ensures pass { pass.new ≡ after_turn pass.old (T.entries held.value) }
        ensures no_entry { T.entries held.value ≡ pass.old.seen → pass.new.own ≡ pass.old.own }
        ensures one_entry { (e : T.Entry) → T.entries held.value ≡ pass.old.seen ++ (pass.old.number, e) ∷ [] →
            pass.new.own ≡ pass.old.own ++ e ∷ [] }
    {
        let Held {
            value,
            taken: Taken,
        } = held;
        let count = value.length();
        self.settle_fronts(&mut pass.seat, &value, count > pass.count);
        let shared = &self.table.shared;
        let empty = shared.exchange(&mut pass.seat, 0, Some(value));
        let None = empty else { unreachable!() };
        shared.store::<Release>(&mut pass.seat, 0, 2 * count);
        pass.count = count;
    }

    /// Stores the fronts of the state if its history has grown. Then each front word is the state's.
    fn settle_fronts(&self, seat: &mut PassSeat<T>, value: &T, grown: bool)
        requires table { seat.old.table_id ≡ self.now.table }
        requires named { seat.old.me.0.name ≡ Some self.now.name }
        requires name { T.name value.now ≡ self.now.name }
        requires holds { seat.old.me.0.holds ≡ true }
        requires none { seat.old.me.0.stored ≡ [] }
        requires entries { IsNext seat.old.me.0.number seat.old.me.0.seen (T.entries value.now) }
        requires grown { grown ≡ false → T.entries value.now ≡ seat.old.me.0.seen }
        requires fronts { (i : ℕ) → i < T.width self.now.name →
            T.front_of self.now.name seat.old.me.0.seen i ≤ T.front_of self.now.name (T.entries value.now) i }
        ensures table { seat.new.table_id ≡ seat.old.table_id }
        ensures same { seat.new.me ≡ (having_stored seat.old.me.0 seat.new.me.0.stored, seat.old.me.1) }
        ensures settled { (i : ℕ) → i < T.width self.now.name →
            slice_index_or seat.new.me.0.stored i (T.front_of self.now.name seat.old.me.0.seen i)
            ≡ T.front_of self.now.name (T.entries value.now) i }
    {
        if grown {
            self.store_fronts(seat, value);
        }
    }

    /// Stores the fronts of the state, by index, where this turn has stored none yet.
    fn store_fronts(&self, seat: &mut PassSeat<T>, value: &T)
        requires table { seat.old.table_id ≡ self.now.table }
        requires named { seat.old.me.0.name ≡ Some self.now.name }
        requires name { T.name value.now ≡ self.now.name }
        requires holds { seat.old.me.0.holds ≡ true }
        requires none { seat.old.me.0.stored ≡ [] }
        requires entries { IsNext seat.old.me.0.number seat.old.me.0.seen (T.entries value.now) }
        requires fronts { (i : ℕ) → i < T.width self.now.name →
            T.front_of self.now.name seat.old.me.0.seen i ≤ T.front_of self.now.name (T.entries value.now) i }
        ensures table { seat.new.table_id ≡ seat.old.table_id }
        ensures same { seat.new.me ≡ (having_stored seat.old.me.0 seat.new.me.0.stored, seat.old.me.1) }
        ensures all { length seat.new.me.0.stored ≡ T.width self.now.name }
        ensures stored { IsPrepared (T.front_of self.now.name) seat.new.me.0.stored (T.entries value.now) }
    {
        for i in 0..self.fronts {
            let n = value.front(i);
            self.table.shared.store::<Store>(seat, i + 1, n);
        }
    }

    /// The front number of index `i`, from 0, and never less than before. It waits for nobody.
    ///
    /// It is that of the history, or of the history with the one entry that a turn is adding.
    pub fn front(&self, pass: &mut Pass<T>, i: usize) -> u64
        requires pass { pass.old.turn ≡ self.now }
        requires index { i < T.width self.now.name }
        ensures pass { pass.new ≡ after_front pass.old pass.new.latest i result }
        ensures continues { Continues pass.old pass.new.latest }
        ensures exact { (result ≡ T.front_of self.now.name pass.new.latest i)
            ⊎ ((e : ℕ × T.Entry) × (result ≡ T.front_of self.now.name (pass.new.latest ++ e ∷ []) i)) }
        ensures seen { T.front_of self.now.name pass.old.seen i ≤ result }
        ensures latest { T.front_of self.now.name pass.old.latest i ≤ result }
        ensures told { All (λ t. t.0 ≡ i → t.1 ≤ result) pass.old.told }
    {
        self.table.shared.load::<Read>(&mut pass.seat, i + 1)
    }

    /// How many entries the history has, and never less than before. It waits for nobody.
    pub fn count(&self, pass: &mut Pass<T>) -> u64
        requires { pass.old.turn ≡ self.now }
        ensures pass { pass.new ≡ after_count pass.old pass.new.latest }
        ensures continues { Continues pass.old pass.new.latest }
        ensures count { result ≡ length pass.new.latest }
        ensures seen { length pass.old.seen ≤ result }
        ensures latest { length pass.old.latest ≤ result }
    {
        self.table.shared.load::<Count>(&mut pass.seat, 0) / 2
    }

    /// Waits until the history has more entries than the pass saw in its last turn, rest or join. Then it has seen these.
    ///
    /// What `count` told it since does not matter here. A pass that rests looks when it is woken, by `wake_one` or `wake_all`, and some ten
    /// times a second by itself.
    pub fn rest<R: Wait + Clock>(&self, wait: &R, pass: &mut Pass<T>)
        requires pass { pass.old.turn ≡ self.now }
        requires idle { pass.old.holds ≡ false }
        ensures pass { pass.new ≡ after_rest pass.old pass.new.seen }
        ensures continues { Continues pass.old pass.new.seen }
        ensures more { length pass.old.seen < length pass.new.seen }
    {
        let _count = pass.count; // What is known of a pass, which proofs learn here.
        for _ in wait.forever() {
            let word = self.table.shared.peek(0);
            if self.sees_more(pass) {
                return;
            }
            self.nap(wait, word);
        }
        unreachable!()
    }

    /// Sleeps until it is woken, or for the longest nap; and not at all if a turn began or ended since word 0 was this one.
    fn nap<R: Wait>(&self, wait: &R, word: u64) {
        let low_bits = (word & 0xffff_ffff) as u32;
        let longest = Duration::from_millis(NAP_MILLIS);
        self.table.shared.park_timeout(wait, 0, low_bits, longest);
    }

    /// Wakes one pass that rests, if there is one.
    pub fn wake_one(&self) {
        self.table.shared.wake_one(0);
    }

    /// Wakes all passes that rest.
    pub fn wake_all(&self) {
        self.table.shared.wake_all(0);
    }

    /// Whether the history has more entries than the pass saw in its last turn, rest or join. It has then seen them.
    fn sees_more(&self, pass: &mut Pass<T>) -> bool
        requires pass { pass.old.turn ≡ self.now }
        requires idle { pass.old.holds ≡ false }
        ensures pass { pass.new ≡ after_rest pass.old pass.new.seen }
        ensures continues { Continues pass.old pass.new.seen }
        ensures more { result ≡ true → length pass.old.seen < length pass.new.seen }
        ensures all { result ≡ false → length pass.new.seen ≡ length pass.old.seen }
    {
        let seen = pass.count;
        self.see(pass) > seen
    }

    /// How many entries the history has. The pass has then seen them, as in a turn.
    fn see(&self, pass: &mut Pass<T>) -> u64
        requires pass { pass.old.turn ≡ self.now }
        requires idle { pass.old.holds ≡ false }
        ensures pass { pass.new ≡ after_rest pass.old pass.new.seen }
        ensures continues { Continues pass.old pass.new.seen }
        ensures count { result ≡ length pass.new.seen }
    {
        let count = self.table.shared.load::<See>(&mut pass.seat, 0) / 2;
        pass.count = count;
        count
    }

    /// Takes in the other pass: its number with its entries, all that it was told, and the numbers that were joined into it.
    ///
    /// The pass has then seen a history that goes on from what both had seen.
    pub fn join(&self, pass: &mut Pass<T>, other: Pass<T>)
        requires pass { pass.old.turn ≡ self.now }
        requires other { other.turn ≡ self.now }
        requires idle { pass.old.holds ≡ false }
        requires other_idle { other.holds ≡ false }
        ensures pass { pass.new ≡ after_join pass.old other pass.new.seen }
        ensures continues { Continues pass.old pass.new.seen }
        ensures other_continues { Continues other pass.new.seen }
    {
        let Pass {
            seat,
            of: _,
            number: _,
            count: _,
        } = other;
        let shared = &self.table.shared;
        shared.join_seat::<TakeIn>(&mut pass.seat, seat);
        // Joining alone tells the seat nothing of the words.
        pass.count = shared.load::<See>(&mut pass.seat, 0) / 2;
    }

    /// Ends the turn with the pass that all others were joined into, and gives the state back, with the whole history: it has the
    /// entries of this pass and of those that were joined into it, and no others.
    pub fn close(self, pass: Pass<T>) -> T
        requires pass { pass.turn ≡ self }
        requires idle { pass.holds ≡ false }
        requires joined { HasAll pass }
        ensures name { T.name result ≡ self.name }
        ensures whole { T.entries result ≡ pass.seen }
        ensures continues { Continues pass (T.entries result) }
        ensures only { All (λ e. e.0 < self.passes) (T.entries result) }
        ensures fronts { All (λ t. t.1 ≤ T.front_of self.name (T.entries result) t.0) pass.told }
    {
        let Turn { table, fronts: _ } = self;
        let Pass {
            seat,
            of: _,
            number: _,
            count: _,
        } = pass;
        let mut closed = table.close_with(seat);
        let Some(state) = closed.take(0) else {
            unreachable!()
        };
        closed.free();
        state
    }
}
