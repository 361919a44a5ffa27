use std::collections::LinkedList;

/// Where a seat stands.
pub enum Position {
    /// It has no ticket.
    Out,
    /// It drew this ticket.
    Waits(u64),
    /// It has the turn with this ticket, and the value had these outs.
    Inside(u64, LinkedList<u64>),
}

/// What a seat knows. No value of it is made.
pub struct View<I, T> {
    /// The items that it had seen.
    pub front: LinkedList<I>,
    /// The items that it added, with their numbers.
    pub mine: LinkedList<(u64, I)>,
    /// What it has to bring back.
    pub owes: LinkedList<u64>,
    pub position: Position,
    pub stopped: bool,
    pub parts: u64,
    /// The parts of all seats of the gate.
    pub seats: u64,
    /// The items of the value that the gate was made of.
    pub opening: LinkedList<I>,
    /// The terms of the value that the gate was made of, None where the seat is spent.
    pub terms: Option<T>,
}
