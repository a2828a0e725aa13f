// The reader of expressions.
//
// It climbs: `expr` reads an operand and then goes on with every operator of a wanted level, so that an opening bracket costs the frames
// of `expr`, `operand` and `bracket` alone. No text of 4,096 bytes nests deeper than 4,096 of these. Queries, which expressions hold and
// which are made of expressions, are read in `queries`.
ghost use Rattle.grammar.specs.Reader as reader;
ghost use Rattle.grammar.specs.Reader.{past, is_sign, folded as folded_of};
ghost use Rattle.text.specs.Cut.{tokens_at, name as name_of};
ghost use Rattle.text.specs.Stands.{folds as folds_to};
ghost use Rattle.text.specs.Found.{Ready, Further, ReadsExpr, ReadsPart, ReadsAfter, Tested};

use crate::building::{join, leaf};
use crate::nodes::{Fold, Node, Nodes, Span};
use crate::parts::{Operand, Parsed, Term};
use crate::tokens::{Place, Sign, Source, Tok};

pub mod queries;

use queries::question;

// A column, alone or of a source.
fn column(nodes: &mut Nodes, source: Source<'_>, name: Parsed<Span>) -> Option<Parsed<Operand>>
    requires { Ready source.bytes.now nodes.old name.after }
    ensures { ReadsAfter source.entry.bytes.now nodes.old nodes.new (tokens_at source.entry.bytes.now name.after) (reader.column (name_of source.entry.bytes.now name.value) (tokens_at source.entry.bytes.now name.after)) result }
{
    let Some(at) = source.take_sign(name.after, Sign::Dot) else {
        return Some(leaf(nodes, Node::Column(None, name.value), name.after));
    };
    let its = source.take_name(at)?;
    Some(leaf(nodes, Node::Column(Some(name.value), its.value), its.after))
}

// After `is`: null, or not null.
fn tested(nodes: &mut Nodes, source: Source<'_>, a: Operand, at: Place) -> Option<Parsed<Operand>>
    requires { Ready source.bytes.now nodes.old at }
    ensures { Tested source.entry.bytes.now nodes.old nodes.new (tokens_at source.entry.bytes.now at) a result }
{
    let not = source.take_key(at, b"not");
    let after = source.take_key(not.unwrap_or(at), b"null")?;
    let mut node = nodes.push(Node::IsNull(a.it.node));
    if not.is_some() {
        node = nodes.push(Node::Not(node));
    }
    Some(Parsed {
        value: Operand {
            level: 3,
            it: Term { node, ..a.it },
        },
        after,
    })
}

// An expression of a level. The number left falls with each call; one more than there are tokens is enough.
#[cycle(climb)]
pub fn expr(
    nodes: &mut Nodes,
    source: Source<'_>,
    at: Place,
    level: u8,
    left: usize,
) -> Option<Parsed<Term>>
    requires { Ready source.bytes.now nodes.old at }
    ensures { ReadsExpr source.entry.bytes.now nodes.old nodes.new (tokens_at source.entry.bytes.now at) (reader.expr left level (tokens_at source.entry.bytes.now at)) result }
{
    let left = left.checked_sub(1)?;
    let mut a = operand(nodes, source, at, level, left)?;
    for turns in (0..left).rev() {
        let Some(b) = further(nodes, source, a, level, turns)? else {
            return Some(Parsed {
                value: a.value.it,
                after: a.after,
            });
        };
        a = b;
    }
    None
}

// What goes on after an expression, by one operator; none where it ends there.
#[cycle(climb)]
fn further(
    nodes: &mut Nodes,
    source: Source<'_>,
    a: Parsed<Operand>,
    level: u8,
    left: usize,
) -> Option<Option<Parsed<Operand>>>
    requires { Ready source.bytes.now nodes.old a.after }
    ensures { Further source.entry.bytes.now nodes.old nodes.new level left a result }
{
    if let Some(after) = source.take_key(a.after, b"is") {
        if level > 3 || a.value.level < 4 {
            return Some(None);
        }
        let b = tested(nodes, source, a.value, after)?;
        return Some(Some(b));
    }
    let Some(link) = source.take_infix(a.after) else {
        return Some(None);
    };
    let of = link.value.level();
    let under = link.value.left();
    if level > of || under > a.value.level {
        return Some(None);
    }
    let b = expr(nodes, source, link.after, of + 1, left)?;
    let it = Term {
        node: join(nodes, link.value, a.value.it.node, b.value.node),
        aggregates: a.value.it.aggregates | b.value.aggregates,
    };
    Some(Some(Parsed {
        value: Operand { level: of, it },
        after: b.after,
    }))
}

#[cycle(climb)]
fn operand(
    nodes: &mut Nodes,
    source: Source<'_>,
    at: Place,
    level: u8,
    left: usize,
) -> Option<Parsed<Operand>>
    requires { Ready source.bytes.now nodes.old at }
    ensures { ReadsPart source.entry.bytes.now nodes.old nodes.new (tokens_at source.entry.bytes.now at) (reader.operand (reader.expr left) (reader.exprs left) (reader.keys left) left level (tokens_at source.entry.bytes.now at)) result }
{
    if let Some(name) = source.take_name(at) {
        return column(nodes, source, name);
    }
    if let Some(number) = source.take_number(at) {
        return Some(leaf(nodes, Node::Number(number.value), number.after));
    }
    if let Tok::Quoted(span) = at.tok {
        return Some(leaf(nodes, Node::Text(span), source.next(at.rest)));
    }
    if let Some(inside) = source.take_sign(at, Sign::Open) {
        return bracket(nodes, source, inside, left);
    }
    if let Some(after) = source.take_sign(at, Sign::Minus) {
        let a = expr(nodes, source, after, 6, left)?;
        let node = nodes.push(Node::Negated(a.value.node));
        return Some(Parsed {
            value: Operand {
                level: 6,
                it: Term { node, ..a.value },
            },
            after: a.after,
        });
    }
    keyed(nodes, source, at, level, left)
}

// After an opening bracket: a query of one column, or an expression.
#[cycle(climb)]
fn bracket(nodes: &mut Nodes, source: Source<'_>, at: Place, left: usize) -> Option<Parsed<Operand>>
    requires { Ready source.bytes.now nodes.old at }
    ensures { ReadsPart source.entry.bytes.now nodes.old nodes.new (tokens_at source.entry.bytes.now at) (reader.bracket (reader.expr left) (reader.exprs left) (reader.keys left) left (tokens_at source.entry.bytes.now at)) result }
{
    if source.has_key(at, b"select") {
        let q = question(nodes, source, at, left)?;
        let after = source.take_sign(q.after, Sign::Close)?;
        if !q.value.single {
            return None;
        }
        return Some(leaf(nodes, Node::Scalar(q.value.node), after));
    }
    let a = expr(nodes, source, at, 0, left)?;
    let after = source.take_sign(a.after, Sign::Close)?;
    Some(Parsed {
        value: Operand {
            level: 7,
            it: a.value,
        },
        after,
    })
}

// What begins with a keyword.
#[cycle(climb)]
fn keyed(
    nodes: &mut Nodes,
    source: Source<'_>,
    at: Place,
    level: u8,
    left: usize,
) -> Option<Parsed<Operand>>
    requires { Ready source.bytes.now nodes.old at }
    ensures { ReadsPart source.entry.bytes.now nodes.old nodes.new (tokens_at source.entry.bytes.now at) (reader.keyed (reader.expr left) (reader.exprs left) (reader.keys left) left level (tokens_at source.entry.bytes.now at)) result }
{
    if let Some(after) = source.take_key(at, b"null") {
        return Some(leaf(nodes, Node::Null, after));
    }
    if let Some(after) = source.take_key(at, b"not") {
        return negation(nodes, source, after, level, left);
    }
    if let Some(after) = source.take_key(at, b"exists") {
        return existence(nodes, source, after, left);
    }
    if let Some(after) = source.take_key(at, b"count") {
        return count(nodes, source, after, left);
    }
    if let Some(after) = source.take_key(at, b"sum") {
        return fold(nodes, source, after, Fold::Sum, left);
    }
    if let Some(after) = source.take_key(at, b"min") {
        return fold(nodes, source, after, Fold::Min, left);
    }
    if let Some(after) = source.take_key(at, b"max") {
        return fold(nodes, source, after, Fold::Max, left);
    }
    None
}

#[cycle(climb)]
fn negation(
    nodes: &mut Nodes,
    source: Source<'_>,
    at: Place,
    level: u8,
    left: usize,
) -> Option<Parsed<Operand>>
    requires { Ready source.bytes.now nodes.old at }
    ensures { ReadsAfter source.entry.bytes.now nodes.old nodes.new (tokens_at source.entry.bytes.now at) (reader.negation level (reader.expr left) (tokens_at source.entry.bytes.now at)) result }
{
    if level > 2 {
        return None;
    }
    let a = expr(nodes, source, at, 2, left)?;
    let node = nodes.push(Node::Not(a.value.node));
    Some(Parsed {
        value: Operand {
            level: 2,
            it: Term { node, ..a.value },
        },
        after: a.after,
    })
}

// After `exists`.
#[cycle(climb)]
fn existence(
    nodes: &mut Nodes,
    source: Source<'_>,
    at: Place,
    left: usize,
) -> Option<Parsed<Operand>>
    requires { Ready source.bytes.now nodes.old at }
    ensures { ReadsPart source.entry.bytes.now nodes.old nodes.new (tokens_at source.entry.bytes.now at) (reader.existence (reader.expr left) (reader.exprs left) (reader.keys left) left (tokens_at source.entry.bytes.now at)) result }
{
    let inside = source.take_sign(at, Sign::Open)?;
    let q = question(nodes, source, inside, left)?;
    let after = source.take_sign(q.after, Sign::Close)?;
    Some(leaf(nodes, Node::Exists(q.value.node), after))
}

// After `count`: all rows, or the values that are not null.
#[cycle(climb)]
fn count(nodes: &mut Nodes, source: Source<'_>, at: Place, left: usize) -> Option<Parsed<Operand>>
    requires { Ready source.bytes.now nodes.old at }
    ensures { ReadsPart source.entry.bytes.now nodes.old nodes.new (tokens_at source.entry.bytes.now at) (reader.counted (reader.expr left) (tokens_at source.entry.bytes.now at)) result }
{
    let inside = source.take_sign(at, Sign::Open)?;
    let Some(star) = source.take_sign(inside, Sign::Times) else {
        return folded(nodes, source, inside, Fold::Count, left);
    };
    let after = source.take_sign(star, Sign::Close)?;
    let node = nodes.push(Node::RowCount);
    Some(Parsed {
        value: Operand {
            level: 7,
            it: Term {
                node,
                aggregates: true,
            },
        },
        after,
    })
}

// After the word of an aggregate.
#[cycle(climb)]
fn fold(
    nodes: &mut Nodes,
    source: Source<'_>,
    at: Place,
    by: Fold,
    left: usize,
) -> Option<Parsed<Operand>>
    requires { Ready source.bytes.now nodes.old at }
    ensures { ReadsPart source.entry.bytes.now nodes.old nodes.new (tokens_at source.entry.bytes.now at) (past (is_sign 40) (folded_of (folds_to by) (reader.expr left)) (tokens_at source.entry.bytes.now at)) result }
{
    let inside = source.take_sign(at, Sign::Open)?;
    folded(nodes, source, inside, by, left)
}

// Within the brackets of an aggregate.
#[cycle(climb)]
fn folded(
    nodes: &mut Nodes,
    source: Source<'_>,
    at: Place,
    by: Fold,
    left: usize,
) -> Option<Parsed<Operand>>
    requires { Ready source.bytes.now nodes.old at }
    ensures { ReadsPart source.entry.bytes.now nodes.old nodes.new (tokens_at source.entry.bytes.now at) (folded_of (folds_to by) (reader.expr left) (tokens_at source.entry.bytes.now at)) result }
{
    let a = expr(nodes, source, at, 0, left)?;
    let after = source.take_sign(a.after, Sign::Close)?;
    let node = nodes.push(Node::Folded(by, a.value.node));
    Some(Parsed {
        value: Operand {
            level: 7,
            it: Term {
                node,
                aggregates: true,
            },
        },
        after,
    })
}
