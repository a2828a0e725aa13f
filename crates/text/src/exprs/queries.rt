// The reader of queries, and of the lists and conditions that they are made of.
ghost use Rattle.grammar.specs.Reader as reader;
ghost use Rattle.grammar.specs.Reader.{asks};
ghost use Rattle.text.specs.Cut.{tokens_at};
ghost use Rattle.text.specs.Found.{Ready, ReadsCondition, ReadsExprs, ReadsKeys, ReadsQuery, ReadsGroups, Directed};

use crate::building::leaf;
use crate::exprs::expr;
use crate::lists::list;
use crate::nodes::{Key, Node, Nodes, Question, Table};
use crate::parts::{Asked, Grouping, Order, Parsed, Terms};
use crate::sources::{distinction, limits};
use crate::tokens::{Place, Sign, Source};

// A list of expressions.
// kept: (c) no `Item` of `lists`, nor are keys: no proof is made where a generic function leads back to its caller by an impl's method.
#[cycle(climb)]
pub fn exprs(nodes: &mut Nodes, source: Source<'_>, at: Place, left: usize) -> Option<Parsed<Terms>>
    requires { Ready source.bytes.now nodes.old at }
    ensures { ReadsExprs source.entry.bytes.now nodes.old nodes.new (tokens_at source.entry.bytes.now at) (reader.exprs left (tokens_at source.entry.bytes.now at)) result }
{
    let left = left.checked_sub(1)?;
    let e = expr(nodes, source, at, 0, left)?;
    let Some(comma) = source.take_sign(e.after, Sign::Comma) else {
        let value = Terms {
            first: nodes.push(Node::Item(e.value.node, None)),
            aggregates: e.value.aggregates,
            single: true,
        };
        return Some(Parsed {
            value,
            after: e.after,
        });
    };
    let rest = exprs(nodes, source, comma, left)?;
    let value = Terms {
        first: nodes.push(Node::Item(e.value.node, Some(rest.value.first))),
        aggregates: e.value.aggregates | rest.value.aggregates,
        single: false,
    };
    Some(Parsed {
        value,
        after: rest.after,
    })
}

// The direction after a key; upwards where none is named.
fn direction(source: Source<'_>, at: Place) -> Parsed<bool>
    ensures { Directed source.entry.bytes.now (tokens_at source.entry.bytes.now at) result }
{
    if let Some(after) = source.take_key(at, b"asc") {
        return Parsed {
            value: false,
            after,
        };
    }
    let desc = source.take_key(at, b"desc");
    Parsed {
        value: desc.is_some(),
        after: desc.unwrap_or(at),
    }
}

// A list of keys to sort by.
#[cycle(climb)]
fn keys(nodes: &mut Nodes, source: Source<'_>, at: Place, left: usize) -> Option<Parsed<Order>>
    requires { Ready source.bytes.now nodes.old at }
    ensures { ReadsKeys source.entry.bytes.now nodes.old nodes.new (tokens_at source.entry.bytes.now at) (reader.keys left (tokens_at source.entry.bytes.now at)) result }
{
    let left = left.checked_sub(1)?;
    let e = expr(nodes, source, at, 0, left)?;
    let way = direction(source, e.after);
    let key = Key {
        by: e.value.node,
        down: way.value,
    };
    let Some(comma) = source.take_sign(way.after, Sign::Comma) else {
        let value = Order {
            first: Some(nodes.push(Node::Key(key, None))),
            aggregates: e.value.aggregates,
        };
        return Some(Parsed {
            value,
            after: way.after,
        });
    };
    let rest = keys(nodes, source, comma, left)?;
    let value = Order {
        first: Some(nodes.push(Node::Key(key, rest.value.first))),
        aggregates: e.value.aggregates | rest.value.aggregates,
    };
    Some(Parsed {
        value,
        after: rest.after,
    })
}

// An expression after a word; 1, which always holds, where the word is missing.
#[cycle(climb)]
pub fn condition(
    nodes: &mut Nodes,
    source: Source<'_>,
    at: Place,
    word: &[u8],
    left: usize,
) -> Option<Parsed<u16>>
    requires { Ready source.bytes.now nodes.old at }
    ensures { ReadsCondition source.entry.bytes.now nodes.old nodes.new (tokens_at source.entry.bytes.now at) (reader.condition word.now (reader.expr left) (tokens_at source.entry.bytes.now at)) result }
{
    let Some(after) = source.take_key(at, word) else {
        let value = nodes.push(Node::Number(1));
        return Some(Parsed { value, after: at });
    };
    let e = expr(nodes, source, after, 0, left)?;
    Some(Parsed {
        value: e.value.node,
        after: e.after,
    })
}

// group by and having, or no groups.
#[cycle(climb)]
fn groups(nodes: &mut Nodes, source: Source<'_>, at: Place, left: usize) -> Option<Parsed<Grouping>>
    requires { Ready source.bytes.now nodes.old at }
    ensures { ReadsGroups source.entry.bytes.now nodes.old nodes.new (tokens_at source.entry.bytes.now at) (reader.groups (reader.expr left) (reader.exprs left) (tokens_at source.entry.bytes.now at)) result }
{
    let Some(group) = source.take_key(at, b"group") else {
        let having = nodes.push(Node::Number(1));
        return Some(Parsed {
            value: Grouping { by: None, having },
            after: at,
        });
    };
    let by = source.take_key(group, b"by")?;
    let list = exprs(nodes, source, by, left)?;
    let having = condition(nodes, source, list.after, b"having", left)?;
    let value = Grouping {
        by: Some(list.value.first),
        having: having.value,
    };
    Some(Parsed {
        value,
        after: having.after,
    })
}

// order by, or no keys.
#[cycle(climb)]
fn orders(nodes: &mut Nodes, source: Source<'_>, at: Place, left: usize) -> Option<Parsed<Order>>
    requires { Ready source.bytes.now nodes.old at }
    ensures { ReadsKeys source.entry.bytes.now nodes.old nodes.new (tokens_at source.entry.bytes.now at) (reader.orders (reader.keys left) (tokens_at source.entry.bytes.now at)) result }
{
    let Some(order) = source.take_key(at, b"order") else {
        return Some(Parsed {
            value: Order {
                first: None,
                aggregates: false,
            },
            after: at,
        });
    };
    let by = source.take_key(order, b"by")?;
    keys(nodes, source, by, left)
}

// A query.
#[cycle(climb)]
pub fn question(
    nodes: &mut Nodes,
    source: Source<'_>,
    at: Place,
    left: usize,
) -> Option<Parsed<Asked>>
    requires { Ready source.bytes.now nodes.old at }
    ensures { ReadsQuery source.entry.bytes.now nodes.old nodes.new (tokens_at source.entry.bytes.now at) (asks left (tokens_at source.entry.bytes.now at)) result }
{
    let select = source.take_key(at, b"select")?;
    let distinct = distinction(source, select);
    let out = exprs(nodes, source, distinct.after, left)?;
    let table = source.take_key(out.after, b"from")?;
    let from = list::<Table>(nodes, source, table, left, left)?;
    let wanted = condition(nodes, source, from.after, b"where", left)?;
    let group = groups(nodes, source, wanted.after, left)?;
    let keys = orders(nodes, source, group.after, left)?;
    let limit = limits(nodes, source, keys.after)?;
    let query = Question {
        distinct: distinct.value,
        grouped: group.value.by.is_some() | out.value.aggregates | keys.value.aggregates,
        out: out.value.first,
        from: from.value,
        wanted: wanted.value,
        groups: group.value.by,
        having: group.value.having,
        keys: keys.value.first,
        limit: limit.value,
    };
    let node = nodes.push(Node::Query(query));
    let value = Asked {
        node,
        single: out.value.single,
    };
    Some(Parsed {
        value,
        after: limit.after,
    })
}
