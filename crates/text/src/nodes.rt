// The nodes of a read statement.
ghost use Rattle.std.specs.Prelude.{◌≡◌, vec_capacity};

use std::alloc::{AllocError, Global};

// A part of the statement's bytes.
// kept: (d) two numbers and no slice: nodes outlive the call that was lent the bytes
#[derive(Clone, Copy)]
pub struct Span {
    pub from: u16,
    pub len: u16,
}

#[derive(Clone, Copy)]
pub enum Op {
    Or,
    And,
    Equal,
    Below,
    AtMost,
    Plus,
    Minus,
    Concat,
    Times,
}

#[derive(Clone, Copy)]
pub enum Fold {
    Count,
    Sum,
    Min,
    Max,
}

// A query, its parts by their nodes.
#[derive(Clone, Copy)]
pub struct Question {
    pub distinct: bool,
    pub grouped: bool,
    pub out: u16,
    pub from: u16,
    pub wanted: u16,
    pub groups: Option<u16>,
    pub having: u16,
    pub keys: Option<u16>,
    pub limit: Option<u16>,
}

// A key to sort by, and whether downwards.
#[derive(Clone, Copy)]
pub struct Key {
    pub by: u16,
    pub down: bool,
}

// A table of a query; its alias is its own name where none is given.
#[derive(Clone, Copy)]
pub struct Table {
    pub name: Span,
    pub alias: Span,
}

// A column of a new table: whether it is a text, and whether it must be there.
#[derive(Clone, Copy)]
pub struct Col {
    pub name: Span,
    pub text: bool,
    pub must: bool,
}

// A row to insert, by the first of its expressions.
#[derive(Clone, Copy)]
pub struct Row {
    pub first: u16,
}

// A column that is set, and what to.
#[derive(Clone, Copy)]
pub struct Set {
    pub col: Span,
    pub to: u16,
}

// What a node says: others by their index, names and texts as parts of the statement's bytes.
// kept: (a) an arena of numbers: all memory is taken once, and a Box for each node would be taken at each statement
#[derive(Clone, Copy)]
pub enum Node {
    Null,
    Number(u64),
    // what stands between the quotes, with its quotes doubled
    Text(Span),
    // the source, where one is named, and the name
    Column(Option<Span>, Span),
    Both(Op, u16, u16),
    Negated(u16),
    Not(u16),
    IsNull(u16),
    RowCount,
    Folded(Fold, u16),
    Exists(u16),
    Scalar(u16),
    Query(Question),
    // at most so many rows, after so many
    Limit(u64, u64),
    // the items of lists, each with the node of the next
    Item(u16, Option<u16>),
    Key(Key, Option<u16>),
    Source(Table, Option<u16>),
    Name(Span, Option<u16>),
    Col(Col, Option<u16>),
    Row(Row, Option<u16>),
    Set(Set, Option<u16>),
}

// A read statement: names as parts of its bytes, expressions, queries and lists by their nodes.
#[derive(Clone, Copy)]
pub enum Statement {
    // the table, its columns
    CreateTable(Span, u16),
    DropTable(Span),
    // whether unique, the index, the table, the columns
    CreateIndex(bool, Span, Span, u16),
    DropIndex(Span),
    Insert(Span, u16),
    InsertFrom(Span, u16),
    // the table, what is set, which rows
    Update(Span, u16, u16),
    Delete(Span, u16),
    Select(u16),
    Begin,
    Commit,
    Rollback,
    Savepoint(Span),
    RollbackTo(Span),
    Release(Span),
}

// Room for the nodes of every statement, taken once: two for each of 4,096 bytes, and a few.
#[derive(Drop)]
pub struct Nodes {
    pub(crate) nodes: Vec<Node>,
    ghost room: { vec_capacity nodes ≡ 8200 },
}

impl Nodes {
    pub fn new(heap: Global) -> Result<Nodes, AllocError> {
        let nodes = Vec::with_capacity(heap, 8200)?;
        Ok(Nodes { nodes })
    }
}
