use crate::value::Conn;
use std::sync::Wait;

/// A place at which an agent calls the gate, outside the latch.
#[derive(Clone, Copy, PartialEq, Eq)]
pub enum Place {
    AfterPin,
    BeforeCondition,
    AfterReply,
}

/// Holds agents up at given places, so that a test can order them. It may wait.
pub trait Gate {
    fn at<R: Wait>(&self, rt: &R, who: Conn, place: Place);
}

/// A gate that lets everyone through.
#[derive(Clone, Copy)]
pub struct OpenGate;

impl Gate for OpenGate {
    fn at<R: Wait>(&self, _rt: &R, _who: Conn, _place: Place) {}
}
