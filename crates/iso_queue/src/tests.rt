use crate::{Asked, Claimed, Queue};
use iso_modes::{Mode, Term};
use iso_types::{Conn, Memory};
use std::alloc::Global;
use std::test::Fail;

const A: Conn = Conn(0);

const B: Conn = Conn(1);

const C: Conn = Conn(2);

const D: Conn = Conn(3);

/// Asks in this order, and says which were granted.
fn asks(queue: &mut Queue, requests: &[(Conn, Mode)]) -> Result<u32, Memory> {
    let mut granted: u32 = 0;
    for (conn, mode) in requests {
        if queue.ask(*conn, *mode, Term::Kept)? == Asked::Granted {
            granted = granted.wrapping_add(1);
        }
    }
    Ok(granted)
}

#[test]
fn waits_in_order(rt: HostRuntime) -> Result<(), Fail> {
    let mut queue = Queue::new(rt.alloc());
    let first = [(A, Mode::Ns), (B, Mode::U)];
    assert!(rt; asks(&mut queue, &first) == Ok(2));
    assert!(rt; asks(&mut queue, &[(B, Mode::X), (C, Mode::Ns)]) == Ok(0));
    queue.release(A);
    assert!(rt; queue.claim(C) == Claimed::NotYet);
    assert!(rt; queue.claim(B) == Claimed::Granted);
    assert!(rt; queue.claim(C) == Claimed::NotYet);
    assert!(rt; matches!(queue.hold(B), Some(hold) if hold.mode == Mode::X));
    queue.cancel(C);
    assert!(rt; queue.edges(C).0 == 0);
    Ok(())
}

#[test]
fn converts_before_new_requests(rt: HostRuntime) -> Result<(), Fail> {
    let mut queue = Queue::new(rt.alloc());
    let held = [(A, Mode::S), (B, Mode::Ns), (C, Mode::Ns)];
    assert!(rt; asks(&mut queue, &held) == Ok(3));
    assert!(rt; asks(&mut queue, &[(D, Mode::X), (B, Mode::X), (A, Mode::X)]) == Ok(0));
    for (conn, edges) in [(B, 0b101), (A, 0b110), (D, 0b111)] {
        assert!(rt; queue.edges(conn).0 == edges);
    }
    assert!(rt; queue.would_grant(C, Mode::Ns));
    assert!(rt; !queue.would_grant(C, Mode::S));
    assert!(rt; asks(&mut queue, &[(C, Mode::Ns)]) == Ok(1));
    Ok(())
}

#[test]
fn keeps_many_holders(rt: HostRuntime) -> Result<(), Fail> {
    let mut queue = Queue::new(rt.alloc());
    let few = [(A, Mode::Ns), (B, Mode::Ns), (C, Mode::Ns), (D, Mode::Ns)];
    assert!(rt; asks(&mut queue, &few) == Ok(4));
    let more = [(Conn(4), Mode::Ns), (Conn(5), Mode::Ns)];
    assert!(rt; asks(&mut queue, &more) == Ok(2));
    assert!(rt; queue.holders().len() == 6);
    queue.release(A);
    queue.release(C);
    assert!(rt; queue.hold(A).is_none());
    assert!(rt; matches!(queue.hold(Conn(5)), Some(hold) if hold.mode == Mode::Ns));
    assert!(rt; matches!(queue.hold(D), Some(hold) if hold.mode == Mode::Ns));
    Ok(())
}
