//! How a turn is made.
ghost use Rattle.std.specs.Prelude.{◌≡◌, ℕ, ◌<◌, ◌≤◌, [], ◌∷◌, length, suc, Some, IfOk, IfErr, slice_index, slice_get, vec_capacity};
ghost use Rattle.turn_lock.specs.Inside.Rule.{first_view};
ghost use Rattle.turn_lock.specs.Turns.{new_pass};

use crate::pass::Pass;
use crate::rule::Opening;
use crate::steps::Make;
use crate::told::Told;
use crate::turn::{PassSeat, Turn, TurnTable};
use atomic_table::{Refused, Table};
use memory::Memory;
use std::alloc::Global;
use std::snapshot::Snapshot;

impl<T: Told> Turn<T> {
    /// A turn with the state behind it, which has no entry yet and `fronts` front numbers, and its passes, in order of their numbers from 0.
    ///
    /// This is the only call that takes memory: a word for each front, and room for the passes.
    ///
    /// # Errors
    /// `Memory` if allocation fails; the state comes back.
    pub fn new(
        alloc: Global,
        state: T,
        fronts: usize,
        passes: usize,
    ) -> Result<(Turn<T>, Vec<Pass<T>>), (Memory, T)>
        requires some { 0 < passes }
        requires empty { T.entries state ≡ [] }
        requires width { T.width (T.name state) ≡ fronts }
        ensures turn { IfOk result (λ made. (made.0.name ≡ T.name state) × (made.0.passes ≡ passes)) }
        ensures count { IfOk result (λ made. length made.1.items ≡ passes) }
        ensures passes { IfOk result (λ made. (i : ℕ) → i < passes →
            slice_get made.1.items i ≡ Some (new_pass made.0 i)) }
        ensures err { IfErr result (λ refused. refused.1 ≡ state) }
    {
        let Ok(words) = words_of(alloc, &state, fronts) else {
            return Err((Memory, state));
        };
        let mut row = Vec::new(alloc);
        if row.reserve(passes).is_err() {
            row.destroy_empty();
            return Err((Memory, state));
        }
        let opening = Opening {
            first: Snapshot::of(&state),
            passes,
        };
        match table_of(alloc, words.as_slice(), state, &opening) {
            Ok((table, seat)) => {
                let turn = Turn { table, fronts };
                make_passes(&turn, seat, &opening, &mut row);
                Ok((turn, row))
            }
            Err(state) => {
                row.destroy_empty();
                Err((Memory, state))
            }
        }
    }
}

/// The words of a state without entries: a count of 0, and then its fronts.
fn words_of<T: Told>(alloc: Global, state: &T, fronts: usize) -> Result<Vec<u64>, Memory>
    requires { T.width (T.name state.now) ≡ fronts }
    ensures size { IfOk result (λ words. length words.items ≡ suc fronts) }
    ensures count { IfOk result (λ words. slice_index words.items 0 ≡ 0) }
    ensures fronts { IfOk result (λ words. (i : ℕ) → i < fronts →
        slice_index words.items (suc i) ≡ T.front_of (T.name state.now) (T.entries state.now) i) }
{
    let mut words = Vec::new(alloc);
    words.push(0)?;
    for i in 0..fronts {
        words.push(state.front(i))?;
    }
    Ok(words)
}

/// The table with the state in its slot, and its first seat. Out of memory gives the state back.
fn table_of<T: Told>(
    alloc: Global,
    words: &[u64],
    state: T,
    opening: &Opening<T>,
) -> Result<(TurnTable<T>, PassSeat<T>), T>
    requires some { 0 < opening.now.passes }
    requires first { opening.now.first.value ≡ state }
    requires empty { T.entries state ≡ [] }
    requires size { length words.now ≡ suc (T.width (T.name state)) }
    requires count { slice_index words.now 0 ≡ 0 }
    requires fronts { (i : ℕ) → i < T.width (T.name state) →
        slice_index words.now (suc i) ≡ T.front_of (T.name state) (T.entries state) i }
    ensures counts { IfOk result (λ made. (made.0.shared.table_id.words ≡ length words.now)
        × (made.0.shared.table_id.slots ≡ 1)) }
    ensures key { IfOk result (λ made. made.0.shared.key ≡ opening.now) }
    ensures seat { IfOk result (λ made. (made.1.table_id ≡ made.0.shared.table_id) × (made.1.id ≡ 0)
        × (made.1.me ≡ (first_view (T.name state), []))) }
    ensures err { IfErr result (λ back. back ≡ state) }
{
    let mut slot = Vec::new(alloc);
    if slot.reserve(1).is_err() {
        slot.destroy_empty();
        return Err(state);
    }
    slot.push_reserved(Some(state));
    match Table::new(alloc, words, slot, opening) {
        Ok(made) => Ok(made),
        Err(Refused { slots }) => Err(only(slots)),
    }
}

/// The state in the one slot of a table that was not made.
fn only<T>(mut slots: Vec<Option<T>>) -> T
    requires { (x : T) × (slots.items ≡ Some x ∷ []) }
    ensures { slots.items ≡ Some result ∷ [] }
{
    match slots.pop() {
        Some(Some(state)) => {
            slots.destroy_empty();
            state
        }
        _ => unreachable!(),
    }
}

/// Makes all passes out of the first seat, in order of their numbers. There is room for them.
fn make_passes<T: Told>(
    turn: &Turn<T>,
    mut seat: PassSeat<T>,
    opening: &Opening<T>,
    row: &mut Vec<Pass<T>>,
)
    requires seat { (seat.table_id ≡ turn.now.table) × (seat.id ≡ 0) × (seat.me ≡ (first_view turn.now.name, [])) }
    requires opening { (T.name opening.now.first.value ≡ turn.now.name) × (opening.now.passes ≡ turn.now.passes) }
    requires some { 0 < opening.now.passes }
    requires row { row.old.items ≡ [] }
    requires room { opening.now.passes ≤ vec_capacity row.old }
    ensures count { length row.new.items ≡ opening.now.passes }
    ensures passes { (i : ℕ) → i < opening.now.passes → slice_get row.new.items i ≡ Some (new_pass turn.now i) }
{
    for i in 1..opening.passes {
        let made = turn.table.shared.split_seat::<Make>(&mut seat);
        row.push_reserved(Pass {
            seat: made,
            of: Snapshot::of(opening),
            number: i as u64,
            count: 0,
        });
    }
    row.push_reserved(Pass {
        seat,
        of: Snapshot::of(opening),
        number: 0,
        count: 0,
    });
    row.rotate_right(1);
}
