//! What a pass does between two looks at the turn.

use std::thread;
use std::time::{Clock, Duration};

/// So often a pass that waits only yields its thread. Then it sleeps between two looks, so that it burns no processor.
const YIELDS: u32 = 20;

/// How long the passes of the lowest numbers sleep, in microseconds: less than most squares take.
const NAP: u64 = 50;

/// How many passes sleep so long. The next ones of this number sleep twice as long, the next three times, and so on: many passes that
/// wait together look little more often than few.
const SHORT_SLEEPERS: u64 = 4;

/// Lets others go on, after so many pauses of the pass of this number. It gives how many they are with this one, as far as it matters.
pub(crate) fn pause<C: Clock>(clock: &C, number: u64, pauses: u32) -> u32 {
    if pauses < YIELDS {
        thread::yield_now();
        pauses + 1
    } else {
        let micros = (number / SHORT_SLEEPERS)
            .saturating_add(1)
            .saturating_mul(NAP);
        thread::sleep(clock, Duration::from_micros(micros));
        pauses
    }
}
