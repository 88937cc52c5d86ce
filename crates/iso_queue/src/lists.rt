ghost use Rattle.std.specs.Prelude.{◌≡◌, ◌&&◌, ◌+◌, ◌≤◌, ◌<◌, ◌^◌, length, true, not, filter, map, if◌then◌else◌, vec_len};
ghost use Rattle.std.specs.List.{insert};
ghost use Rattle.std.specs.List.{list_any};
ghost use Rattle.iso_types.specs.Ids.{conn_eq};
ghost use Rattle.iso_modes.specs.Modes.{mode_eq};
ghost use Rattle.iso_modes.specs.Terms as terms;
ghost use Rattle.smallvec.specs.SmallVec.{small_vec_len, HasRoomFor};
ghost use Rattle.iso_queue.specs.Lines.{hold_of, is_holder, waiter_of, is_waiter, granted, raised, opposes, unheld, unqueued, before, queued, has_edge, has_edge_to, would_wait, bits_of, target_of, has_mode, is_granted, is_guarded_against, settled_hold};

use crate::types::{Hold, Waiter};
use iso_modes::{Mode, Term, compatible, joined};
use iso_types::Conn;
use smallvec::SmallVec;

/// The holders of a name: up to four in place, more in memory of their own.
pub type Holders = SmallVec<Hold, 4>;

/// The connection's hold.
pub fn find_hold(holders: &[Hold], conn: Conn) -> Option<Hold>
    ensures { result ≡ hold_of holders.now conn }
{
    holders.iter().copied().find(|hold| hold.conn == conn)
}

/// Whether the connection holds the name.
pub fn holds(holders: &[Hold], conn: Conn) -> bool
    ensures { result ≡ is_holder holders.now conn }
{
    find_hold(holders, conn).is_some()
}

/// The connection's wait.
pub fn find_waiter(waiters: &[Waiter], conn: Conn) -> Option<Waiter>
    ensures { result ≡ waiter_of waiters.now conn }
{
    waiters.iter().copied().find(|wait| wait.conn == conn)
}

/// Whether another connection holds the name in a mode that does not go with the target.
pub fn is_opposed(holders: &[Hold], conn: Conn, target: Mode) -> bool
    ensures { result ≡ list_any (opposes conn target) holders.now }
{
    holders
        .iter()
        .any(|hold| hold.conn != conn && !compatible(hold.mode, target))
}

/// Whether the connection's wait stands behind another.
pub fn is_behind(waiters: &[Waiter], conn: Conn) -> bool
    ensures { result ≡ list_any (λ _. true) (before waiters.now conn) }
{
    match waiters.first() {
        Some(first) => first.conn != conn,
        None => false,
    }
}

/// Whether the wait has an edge.
pub fn is_stuck(holders: &[Hold], waiters: &[Waiter], wait: Waiter) -> bool
    ensures { result ≡ has_edge holders.now waiters.now wait }
{
    is_opposed(holders, wait.conn, wait.target) || is_behind(waiters, wait.conn)
}

/// Whether the wait, once it stood in the queue, would stand behind another.
fn would_be_behind(holders: &[Hold], waiters: &[Waiter], wait: Waiter) -> bool
    ensures { result ≡ list_any (λ _. true) (before (queued holders.now wait waiters.now) wait.conn) }
{
    match waiters.first() {
        Some(first) => {
            first.conn != wait.conn && !(holds(holders, wait.conn) && !holds(holders, first.conn))
        }
        None => false,
    }
}

/// Whether the wait, once it stood in the queue, would have an edge.
pub fn would_be_stuck(holders: &[Hold], waiters: &[Waiter], wait: Waiter) -> bool
    ensures { result ≡ would_wait holders.now waiters.now wait }
{
    is_opposed(holders, wait.conn, wait.target) || would_be_behind(holders, waiters, wait)
}

/// Whether the connection stands in the queue before the other.
fn is_ahead(waiters: &[Waiter], conn: Conn, other: Conn) -> bool
    ensures { result ≡ list_any (λ w. conn_eq w.conn other) (before waiters.now conn) }
{
    for wait in waiters {
        if wait.conn == conn {
            return false;
        }
        if wait.conn == other {
            return true;
        }
    }
    false
}

/// Whether the connection holds the name in a mode that does not go with the wait's target.
fn is_opposed_by(holders: &[Hold], wait: Waiter, other: Conn) -> bool
    ensures { result ≡ list_any (λ h. conn_eq h.conn other && opposes wait.conn wait.target h) holders.now }
{
    holders.iter().any(|hold| {
        hold.conn == other && (hold.conn != wait.conn && !compatible(hold.mode, wait.target))
    })
}

/// Whether the wait has an edge to the connection.
pub fn is_stuck_on(holders: &[Hold], waiters: &[Waiter], wait: Waiter, other: Conn) -> bool
    ensures { result ≡ has_edge_to holders.now waiters.now wait other }
{
    is_opposed_by(holders, wait, other) || is_ahead(waiters, wait.conn, other)
}

/// The number with the bit set, where it is to be.
fn with_bit(bits: u32, at: u8, is_set: bool) -> u32
    requires at { at < 32 }
    requires bits { bits < 2 ^ at }
    ensures value { result ≡ bits + (if is_set then 2 ^ at else 0) }
    ensures small { result < 2 ^ (at + 1) }
{
    if is_set { bits + (1 << at) } else { bits }
}

/// The edges of the wait: bit d for connection d.
pub fn edge_bits(holders: &[Hold], waiters: &[Waiter], wait: Waiter) -> u32
    ensures { result ≡ bits_of (has_edge_to holders.now waiters.now wait) 32 }
{
    let mut bits: u32 = 0;
    for other in 0..32u8 {
        bits = with_bit(
            bits,
            other,
            is_stuck_on(holders, waiters, wait, Conn(other)),
        );
    }
    bits
}

fn is_kept(term: Term) -> bool
    ensures { result ≡ terms.is_kept term }
{
    term == Term::Kept
}

/// The joined mode, and the new term unless the hold was Kept.
fn raise(new: Hold, hold: Hold) -> Hold
    ensures { result ≡ raised new hold }
{
    Hold {
        conn: hold.conn,
        mode: joined(hold.mode, new.mode),
        term: if is_kept(hold.term) {
            Term::Kept
        } else {
            new.term
        },
    }
}

/// An own hold is raised; else the new hold is added, in the room that there is.
pub fn grant(holders: &mut Holders, new: Hold)
    requires { HasRoomFor holders.old 1 }
    ensures items { holders.new.items ≡ granted holders.old.items new }
    ensures len { small_vec_len holders.new ≤ small_vec_len holders.old + 1 }
    ensures capacity { holders.old.capacity ≤ holders.new.capacity }
{
    for at in 0..holders.len() {
        let hold = holders[at];
        if hold.conn == new.conn {
            holders[at] = raise(new, hold);
            return;
        }
    }
    holders.push_reserved(new);
}

/// The connection's hold goes.
pub fn unhold(holders: &mut Holders, conn: Conn)
    ensures items { holders.new.items ≡ unheld conn holders.old.items }
    ensures len { small_vec_len holders.new ≤ small_vec_len holders.old }
    ensures capacity { holders.new.capacity ≡ holders.old.capacity }
{
    holders.retain(|hold| hold.conn != conn);
}

/// Whether the term is Brief.
fn is_brief(term: Term) -> bool
    ensures { result ≡ terms.is_brief term }
{
    term == Term::Brief
}

/// A hold of the connection that is Fresh, and not spared, as Kept.
fn settle_hold(hold: Hold, conn: Conn, spared: bool) -> Hold
    ensures { result ≡ settled_hold conn spared hold }
{
    if hold.conn == conn && (hold.term == Term::Fresh && !spared) {
        Hold {
            term: Term::Kept,
            ..hold
        }
    } else {
        hold
    }
}

/// Each hold of the connection that is Fresh becomes Kept, where it is not spared.
fn settle_each(holders: &mut [Hold], conn: Conn, spared: bool)
    ensures { holders.new ≡ map (settled_hold conn spared) holders.old }
{
    for at in 0..holders.len() {
        let hold = holders[at];
        holders[at] = settle_hold(hold, conn, spared);
    }
}

/// The connection's Fresh hold becomes Kept where it is not spared, and its Brief hold goes.
pub fn settle(holders: &mut Holders, conn: Conn, spared: bool)
    ensures items { holders.new.items ≡ filter (λ h. not (conn_eq h.conn conn && terms.is_brief h.term)) (map (settled_hold conn spared) holders.old.items) }
    ensures len { small_vec_len holders.new ≤ small_vec_len holders.old }
    ensures capacity { holders.new.capacity ≡ holders.old.capacity }
{
    settle_each(holders.as_mut_slice(), conn, spared);
    holders.retain(|hold| !(hold.conn == conn && is_brief(hold.term)));
}

/// The connection's wait goes.
pub fn unqueue(waiters: &mut Vec<Waiter>, conn: Conn)
    ensures items { waiters.new.items ≡ unqueued conn waiters.old.items }
    ensures len { vec_len waiters.new ≤ vec_len waiters.old }
    ensures fewer { is_waiter waiters.old.items conn ≡ true → vec_len waiters.new + 1 ≤ vec_len waiters.old }
{
    waiters.retain(|wait| wait.conn != conn);
}

/// The place that the wait takes in the queue.
pub fn place_in_queue(holders: &[Hold], waiters: &[Waiter], wait: Waiter) -> usize
    ensures within { result ≤ length waiters.now }
    ensures place { insert waiters.now result wait ≡ queued holders.now wait waiters.now }
{
    if !holds(holders, wait.conn) {
        return waiters.len();
    }
    for at in 0..waiters.len() {
        if !holds(holders, waiters[at].conn) {
            return at;
        }
    }
    waiters.len()
}

/// What the connection holds once the mode is granted.
pub fn target(holders: &[Hold], conn: Conn, mode: Mode) -> Mode
    ensures { result ≡ target_of holders.now conn mode }
{
    match find_hold(holders, conn) {
        Some(hold) => joined(hold.mode, mode),
        None => mode,
    }
}

#[tactic(auto, unfolding(iso_modes::specs::Modes::mode_eq, iso_modes::specs::Modes::mode_number))]
fn same_mode(a: Mode, b: Mode) -> bool
    ensures { result ≡ mode_eq a b }
{
    a == b
}

/// Whether the connection holds the mode already.
fn holds_mode(holders: &[Hold], conn: Conn, mode: Mode) -> bool
    ensures { result ≡ has_mode holders.now conn mode }
{
    match find_hold(holders, conn) {
        Some(hold) => same_mode(joined(hold.mode, mode), hold.mode),
        None => false,
    }
}

/// Whether a request for the mode is granted at once.
pub fn grants(holders: &[Hold], waiters: &[Waiter], conn: Conn, mode: Mode) -> bool
    ensures { result ≡ is_granted (record { holders = holders.now; waiters = waiters.now }) conn mode }
{
    let wait = Waiter {
        conn,
        target: target(holders, conn, mode),
        term: Term::Kept,
    };
    holds_mode(holders, conn, mode) || !would_be_stuck(holders, waiters, wait)
}

/// Whether another connection holds S or NW.
pub fn is_guarded(holders: &[Hold], conn: Conn) -> bool
    ensures { result ≡ is_guarded_against holders.now conn }
{
    holders.iter().any(|hold| hold.conn != conn
        && (same_mode(hold.mode, Mode::S) || same_mode(hold.mode, Mode::Nw)))
}

/// Whether somebody holds the name.
pub fn is_held(holders: &[Hold]) -> bool
    ensures { result ≡ list_any (λ _. true) holders.now }
{
    match holders.first() {
        Some(_) => true,
        None => false,
    }
}

/// Whether somebody awaits the name.
pub fn is_awaited(waiters: &[Waiter]) -> bool
    ensures { result ≡ list_any (λ _. true) waiters.now }
{
    match waiters.first() {
        Some(_) => true,
        None => false,
    }
}
