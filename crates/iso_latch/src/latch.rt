//! The calls of the latch.
ghost use Rattle.std.specs.Prelude.{◌≡◌, ℕ, ◌+◌, ◌%◌, ◌^◌, ◌<◌, Bool, true, false, List, [], ◌∷◌, ◌++◌, length, drop, IfOk, Some, None};
ghost use Rattle.iso_latch.specs.declared.view.Stage.TheVariants.{Idle, Waits};
ghost use Rattle.iso_latch.specs.Seen.{has, own, Mine, Continues, longer, without, below};
ghost use Rattle.iso_latch.specs.Rule.{modulo};
ghost use Rattle.iso_latch.specs.Told.{seen_of, voices_of, head_of, own_of, is_inside, ticket_of, Takes, IsSameSeat, keeper, taker};

use crate::pass::{Latch, Pass, Turn};
use crate::plays::{Cut, Door, Draw, Glue, Grow, Look, Note, Serve, Voice};
use crate::view::{About, View};
use atomic_table::{Seat, Table};
use crossbeam_utils::Backoff;
use iso_history::Chronicle;
use iso_types::Memory;
use std::alloc::Global;
use std::marker::Brand;
use std::snapshot::Snapshot;
use std::sync::Wait;

// The door: nobody is behind it, somebody is, or somebody is and others may sleep before it.
const OPEN: u64 = 0;

const SHUT: u64 = 1;

const AWAITED: u64 = 2;

impl<S: Chronicle> Latch<S> {
    /// A latch over the first state, and its only pass, which has the voices from 0 to `seats` - 1 and has seen nothing.
    /// `Memory`: there is no room for the table; the state is let go.
    pub fn new(alloc: Global, first: S, seats: u32) -> Result<(Latch<S>, Pass<S>), Memory>
    where
        S: Drop,
        requires seats { 0 < seats }
        requires empty { S.history first ≡ [] }
        ensures of { IfOk result (λ r. r.1.seat.table_id ≡ r.0.table.shared.table_id) }
        ensures seats { IfOk result (λ r. r.0.table.shared.key.seats ≡ seats) }
        ensures head { IfOk result (λ r. head_of r.1.seat ≡ Some (S.head first)) }
        ensures seen { IfOk result (λ r. seen_of r.1.seat ≡ []) }
        ensures voices { IfOk result (λ r. voices_of r.1.seat ≡ below seats) }
        ensures all { IfOk result (λ r. (x : ℕ) → x < seats → has x (voices_of r.1.seat) ≡ true) }
    {
        let about = About {
            seats,
            first: Snapshot::of(&first),
        };
        let mut slots = Vec::with_capacity(alloc, 1)?;
        slots.push(Some(first))?;
        let Ok((table, seat)) = Table::new(alloc, &[0, 0, 0, OPEN], slots, &about) else {
            return Err(Memory);
        };
        Ok((Latch { table }, Pass { seat }))
    }

    /// Goes in by the door, which lets one in at a time, whoever finds it open; others sleep until it opens.
    fn go_in<R: Wait>(&self, rt: &R, seat: &mut Seat<Option<S>, View>)
        requires of { seat.old.table_id ≡ self.now.table.shared.table_id }
        ensures same { IsSameSeat seat.old seat.new × (seat.new.me ≡ seat.old.me) }
    {
        let shared = &self.table.shared;
        if shared.compare_exchange::<Door>(seat, 3, OPEN, SHUT) == OPEN {
            return;
        }
        for _ in rt.forever() {
            if shared.swap::<Door>(seat, 3, AWAITED) == OPEN {
                return;
            }
            shared.park(rt, 3, AWAITED as u32);
        }
        unreachable!()
    }

    /// Opens the door, and wakes one that sleeps before it, where there may be one.
    fn go_out(&self, seat: &mut Seat<Option<S>, View>)
        requires of { seat.old.table_id ≡ self.now.table.shared.table_id }
        ensures same { IsSameSeat seat.old seat.new × (seat.new.me ≡ seat.old.me) }
    {
        let shared = &self.table.shared;
        if shared.swap::<Door>(seat, 3, OPEN) == AWAITED {
            shared.wake_one(3);
        }
    }

    /// Draws the next ticket.
    fn draw(&self, seat: &mut Seat<Option<S>, View>) -> u64
        requires of { seat.old.table_id ≡ self.now.table.shared.table_id }
        requires idle { (seat.old.me.0.stage ≡ Idle) × (0 < length seat.old.me.0.voices) }
        ensures same { IsSameSeat seat.old seat.new }
        ensures drawn { (t : ℕ) × (modulo t ≡ result) × (seat.new.me ≡ (record seat.old.me.0 { stage = Waits t }, seat.old.me.1)) }
    {
        self.table.shared.fetch_add::<Draw>(seat, 0, 1)
    }

    /// Waits until the ticket is served, and takes the slot. Who came in by the door finds it served at the first look.
    fn wait<R: Wait>(&self, rt: &R, seat: &mut Seat<Option<S>, View>, ticket: u64)
        requires of { seat.old.table_id ≡ self.now.table.shared.table_id }
        requires waits { (t : ℕ) × (modulo t ≡ ticket) × (seat.old.me.0.stage ≡ Waits t) }
        ensures same { IsSameSeat seat.old seat.new }
        ensures taken { Takes S.head S.history seat.old.me seat.new.me }
    {
        let backoff = Backoff::new();
        for _ in rt.forever() {
            let found = self.table.shared.load::<Look>(seat, 1);
            if found == ticket {
                return;
            }
            backoff.snooze();
        }
        unreachable!()
    }

    /// The state out of the slot that the seat holds.
    fn take(&self, seat: &mut Seat<Option<S>, View>) -> S
        requires of { seat.old.table_id ≡ self.now.table.shared.table_id }
        requires held { (x : S) × (seat.old.me.1 ≡ (0, Some x) ∷ []) }
        ensures same { IsSameSeat seat.old seat.new }
        ensures taken { (seat.old.me.1 ≡ (0, Some result) ∷ []) × (seat.new.me ≡ (seat.old.me.0, (0, None) ∷ [])) }
    {
        match self.table.shared.exchange(seat, 0, None) {
            Some(x) => x,
            None => unreachable!(),
        }
    }

    /// The state into the slot that the seat holds.
    fn put(&self, seat: &mut Seat<Option<S>, View>, state: S)
        requires of { seat.old.table_id ≡ self.now.table.shared.table_id }
        requires held { seat.old.me.1 ≡ (0, None) ∷ [] }
        ensures same { IsSameSeat seat.old seat.new }
        ensures put { seat.new.me ≡ (seat.old.me.0, (0, Some state) ∷ []) }
    {
        let before = self.table.shared.exchange(seat, 0, Some(state));
        let None = before else { unreachable!() };
    }

    /// Waits for the turn, and takes the state. Its history begins with all that the pass has seen, and every entry of
    /// the pass's voices in it is the pass's own. It may wait; without rivals it costs three atomic steps.
    pub fn enter<R: Wait>(&self, rt: &R, pass: Pass<S>) -> (Turn<S>, S)
        requires { pass.seat.table_id ≡ self.now.table.shared.table_id }
        ensures of { result.0.seat.table_id ≡ pass.seat.table_id }
        ensures kept { (voices_of result.0.seat ≡ voices_of pass.seat) × (head_of result.0.seat ≡ head_of pass.seat) }
        ensures value { (head_of result.0.seat ≡ Some (S.head result.1)) × (seen_of result.0.seat ≡ S.history result.1) }
        ensures begins { Continues (voices_of pass.seat) (seen_of pass.seat) (seen_of result.0.seat) }
        ensures own { own (voices_of pass.seat) (seen_of result.0.seat) ≡ own (voices_of pass.seat) (seen_of pass.seat) }
    {
        let Pass { mut seat } = pass;
        self.go_in(rt, &mut seat);
        let ticket = self.draw(&mut seat);
        self.wait(rt, &mut seat, ticket);
        let state = self.take(&mut seat);
        let len = state.entries();
        (Turn { seat, len }, state)
    }

    /// Gives the state back, whose history may have grown by entries of the turn's voices. These become the pass's own,
    /// each once, and seen. It neither waits nor takes memory, and costs three atomic steps; where others may sleep, it
    /// wakes one of them.
    pub fn leave(&self, turn: Turn<S>, state: S) -> Pass<S>
        requires of { turn.seat.table_id ≡ self.now.table.shared.table_id }
        requires head { head_of turn.seat ≡ Some (S.head state) }
        requires grown { (new : List _) × (S.history state ≡ seen_of turn.seat ++ new) × Mine (voices_of turn.seat) new }
        ensures of { result.seat.table_id ≡ turn.seat.table_id }
        ensures kept { (voices_of result.seat ≡ voices_of turn.seat) × (head_of result.seat ≡ head_of turn.seat) }
        ensures seen { seen_of result.seat ≡ S.history state }
        ensures own { own_of result.seat ≡ own_of turn.seat ++ drop (length (seen_of turn.seat)) (S.history state) }
    {
        let Turn { mut seat, len } = turn;
        let added = state.entries() - len;
        self.put(&mut seat, state);
        self.table
            .shared
            .fetch_add::<Grow>(&mut seat, 2, added as u64);
        self.table.shared.fetch_add::<Serve>(&mut seat, 1, 1);
        self.go_out(&mut seat);
        Pass { seat }
    }

    /// The seat of the voice that is picked.
    fn cut<K: Voice>(&self, seat: &mut Seat<Option<S>, View>, voice: u32) -> Seat<Option<S>, View>
        requires of { seat.old.table_id ≡ self.now.table.shared.table_id }
        requires voice { (voice ≡ K.voice) × (seat.old.me.0.stage ≡ Idle) × (has voice seat.old.me.0.voices ≡ true) }
        ensures same { IsSameSeat seat.old seat.new × (result.table_id ≡ seat.old.table_id) }
        ensures kept { seat.new.me ≡ (keeper voice seat.old.me.0, seat.old.me.1) }
        ensures given { result.me ≡ (taker voice seat.old.me.0, []) }
    {
        self.table.shared.split_seat::<Cut<K>>(seat)
    }

    /// Cuts one voice off. The first pass keeps the others; the second has this one alone, and has seen the same. Own
    /// entries go with their voice. No memory is taken.
    pub fn split(&self, pass: Pass<S>, voice: u32) -> (Pass<S>, Pass<S>)
        requires of { pass.seat.table_id ≡ self.now.table.shared.table_id }
        requires voice { has voice (voices_of pass.seat) ≡ true }
        requires other { 0 < length (without voice (voices_of pass.seat)) }
        ensures of { (result.0.seat.table_id ≡ pass.seat.table_id) × (result.1.seat.table_id ≡ pass.seat.table_id) }
        ensures head { (head_of result.0.seat ≡ head_of pass.seat) × (head_of result.1.seat ≡ head_of pass.seat) }
        ensures seen { (seen_of result.0.seat ≡ seen_of pass.seat) × (seen_of result.1.seat ≡ seen_of pass.seat) }
        ensures voices { (voices_of result.0.seat ≡ without voice (voices_of pass.seat)) × (voices_of result.1.seat ≡ voice ∷ []) }
    {
        let Pass { mut seat } = pass;
        let given = self.cut::<Brand>(&mut seat, voice);
        (Pass { seat }, Pass { seat: given })
    }

    /// Makes one pass of two, with the voices of both. It has seen the longer of the two histories, which begins with
    /// the other. No memory is taken.
    pub fn meet(&self, a: Pass<S>, b: Pass<S>) -> Pass<S>
        requires of { (a.seat.table_id ≡ self.now.table.shared.table_id) × (b.seat.table_id ≡ self.now.table.shared.table_id) }
        ensures of { (result.seat.table_id ≡ a.seat.table_id) × (head_of result.seat ≡ head_of a.seat) }
        ensures voices { voices_of result.seat ≡ voices_of a.seat ++ voices_of b.seat }
        ensures seen { seen_of result.seat ≡ longer (seen_of a.seat) (seen_of b.seat) }
        ensures first { Continues (voices_of a.seat) (seen_of a.seat) (seen_of result.seat) }
        ensures second { Continues (voices_of b.seat) (seen_of b.seat) (seen_of result.seat) }
    {
        let Pass { mut seat } = a;
        let Pass { seat: other } = b;
        self.table.shared.join_seat::<Glue>(&mut seat, other);
        self.table.shared.load::<Note>(&mut seat, 0);
        Pass { seat }
    }

    /// Ends the latch, for a pass that has all voices, and gives the state. Its history is what the pass has seen, and
    /// every entry is the pass's own. No memory is taken; the table's is given back.
    pub fn close(self, pass: Pass<S>) -> S
        requires of { pass.seat.table_id ≡ self.table.shared.table_id }
        requires all { (x : ℕ) → x < self.table.shared.key.seats → has x (voices_of pass.seat) ≡ true }
        ensures head { head_of pass.seat ≡ Some (S.head result) }
        ensures history { S.history result ≡ seen_of pass.seat }
        ensures own { own_of pass.seat ≡ S.history result }
    {
        let Latch { table } = self;
        let Pass { seat } = pass;
        let mut closed = table.close_with(seat);
        let slot = closed.take(0);
        closed.free();
        match slot {
            Some(x) => x,
            None => unreachable!(),
        }
    }
}
