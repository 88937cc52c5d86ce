//! The dispatcher's turns at the latch.
ghost use Rattle.std.specs.Prelude.{◌≡◌, true};
ghost use Rattle.iso_director.specs.Director.{HasTaken};
ghost use Rattle.iso_director.specs.declared.director.Led.TheVariants as turns;
ghost use Rattle.iso_history.specs.After.{world};
ghost use Rattle.iso_latch.specs.Told.{seen_of, voices_of};
ghost use Rattle.iso_script.specs.Sound.{IsSound};
ghost use Rattle.iso_threads.specs.Kept.{AllKeep};
ghost use Rattle.iso_threads.specs.Passes.{IsHostPass};

use iso_agent::{Wakes, able_behind};
use iso_director::{Director, Led};
use iso_latch::{Latch, Pass};
use iso_script::Script;
use iso_state::State;
use std::sync::Wait;

/// One hold of the latch with at most one entry of the dispatcher, and whom that has made able. It may wait. Its cost is that of a
/// hold, of `make`, and of `able_behind`.
pub fn lead_once<R: Wait>(
    director: &mut Director,
    rt: &R,
    latch: &Latch<State>,
    pass: Pass<State>,
    script: &Script,
) -> (Pass<State>, Led, Wakes)
    requires sound { IsSound script.now }
    requires pass { IsHostPass latch.now.table.shared.table_id script.now pass }
    requires keep { AllKeep script.now (voices_of pass.seat) (seen_of pass.seat) }
    requires taken { HasTaken script.now (seen_of pass.seat) director.old }
    ensures pass { IsHostPass latch.now.table.shared.table_id script.now result.0 }
    ensures voices { voices_of result.0.seat ≡ voices_of pass.seat }
    ensures keep { AllKeep script.now (voices_of result.0.seat) (seen_of result.0.seat) }
    ensures taken { HasTaken script.now (seen_of result.0.seat) director.new }
    ensures finished { result.1 ≡ turns.Ended → (world script.now.head (seen_of result.0.seat)).pace.finished ≡ true }
{
    let (turn, state) = latch.enter(rt, pass);
    let before = state.able();
    let mut parts = state.into_parts();
    let led = director.make(script, &mut parts);
    let able = able_behind(&parts, before);
    let wakes = Wakes::led(before, able);
    (latch.leave(turn, State::over(parts, able)), led, wakes)
}
