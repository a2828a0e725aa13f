// What the parts of the reader answer.
use crate::tokens::Place;

// What was read, and the place after it.
#[derive(Clone, Copy)]
pub struct Parsed<T> {
    pub value: T,
    pub after: Place,
}

// An expression: its node, and whether it aggregates.
#[derive(Clone, Copy)]
pub struct Term {
    pub node: u16,
    pub aggregates: bool,
}

// An operand, with its level.
#[derive(Clone, Copy)]
pub struct Operand {
    pub level: u8,
    pub it: Term,
}

// A list of expressions: its first node, whether one of them aggregates, and whether it is the only one.
#[derive(Clone, Copy)]
pub struct Terms {
    pub first: u16,
    pub aggregates: bool,
    pub single: bool,
}

// The keys to sort by, if there are any, and whether one aggregates.
#[derive(Clone, Copy)]
pub struct Order {
    pub first: Option<u16>,
    pub aggregates: bool,
}

// The groups of a query, if it has any, and what is wanted of them.
#[derive(Clone, Copy)]
pub struct Grouping {
    pub by: Option<u16>,
    pub having: u16,
}

// A query: its node, and whether it has one column.
#[derive(Clone, Copy)]
pub struct Asked {
    pub node: u16,
    pub single: bool,
}

// Why a text was not read: it is no statement, or too long.
#[derive(Clone, Copy, PartialEq, Eq)]
pub enum Refusal {
    Unread,
    TooLong,
}
