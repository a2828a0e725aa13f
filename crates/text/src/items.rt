// The items of the lists that statements hold: columns of a table, names, rows, and what is set.
ghost use Rattle.meaning.specs.Tree as tree;
ghost use Rattle.grammar.specs.Reader as reader;
ghost use Rattle.text.specs.Cut.{tokens_at};
ghost use Rattle.text.specs.Stands.{StandsCol, StandsName, StandsRow, StandsSet, RowWithin, SetWithin, Alone};
ghost use Rattle.text.specs.Found.{Gives, same, kind_of};
ghost use Rattle.text.specs.declared.nodes.Node.TheVariants as made_node;

use crate::exprs::expr;
use crate::exprs::queries::exprs;
use crate::lists::Item;
use crate::nodes::{Col, Node, Nodes, Row, Set, Span};
use crate::parts::Parsed;
use crate::tokens::{Place, Sign, Source};

// not null, or nothing.
fn must(source: Source<'_>, at: Place) -> Option<Parsed<bool>>
    ensures { Gives same source.entry.bytes.now (reader.must (tokens_at source.entry.bytes.now at)) result }
{
    let Some(not) = source.take_key(at, b"not") else {
        return Some(Parsed {
            value: false,
            after: at,
        });
    };
    let after = source.take_key(not, b"null")?;
    Some(Parsed { value: true, after })
}

// The kind of a column: whether it is a text.
fn kind(source: Source<'_>, at: Place) -> Option<Parsed<bool>>
    ensures { Gives same source.entry.bytes.now (kind_of (tokens_at source.entry.bytes.now at)) result }
{
    if let Some(after) = source.take_key(at, b"int") {
        return Some(Parsed {
            value: false,
            after,
        });
    }
    let after = source.take_key(at, b"text")?;
    Some(Parsed { value: true, after })
}

impl Item for Col {
    ghost Tree = { tree.Col };

    ghost reader = { λ n. reader.a_col };

    ghost Stands = { StandsCol };

    ghost Within = { Alone };

    ghost made = { made_node.Col };

    fn read(nodes: &mut Nodes, source: Source<'_>, at: Place, turns: usize) -> Option<Parsed<Col>> {
        let name = source.take_name(at)?;
        let kind = kind(source, name.after)?;
        let must = must(source, kind.after)?;
        let value = Col {
            name: name.value,
            text: kind.value,
            must: must.value,
        };
        Some(Parsed {
            value,
            after: must.after,
        })
    }

    fn node(self, rest: Option<u16>) -> Node {
        Node::Col(self, rest)
    }
}

impl Item for Span {
    ghost Tree = { tree.Name };

    ghost reader = { λ n. reader.a_name };

    ghost Stands = { StandsName };

    ghost Within = { Alone };

    ghost made = { made_node.Name };

    fn read(
        nodes: &mut Nodes,
        source: Source<'_>,
        at: Place,
        turns: usize,
    ) -> Option<Parsed<Span>> {
        source.take_name(at)
    }

    fn node(self, rest: Option<u16>) -> Node {
        Node::Name(self, rest)
    }
}

impl Item for Row {
    ghost Tree = { tree.Exprs };

    ghost reader = { reader.a_row };

    ghost Stands = { StandsRow };

    ghost Within = { RowWithin };

    ghost made = { made_node.Row };

    fn read(nodes: &mut Nodes, source: Source<'_>, at: Place, turns: usize) -> Option<Parsed<Row>> {
        let open = source.take_sign(at, Sign::Open)?;
        let row = exprs(nodes, source, open, turns)?;
        let after = source.take_sign(row.after, Sign::Close)?;
        Some(Parsed {
            value: Row {
                first: row.value.first,
            },
            after,
        })
    }

    fn node(self, rest: Option<u16>) -> Node {
        Node::Row(self, rest)
    }
}

impl Item for Set {
    ghost Tree = { tree.Set };

    ghost reader = { reader.a_set };

    ghost Stands = { StandsSet };

    ghost Within = { SetWithin };

    ghost made = { made_node.Set };

    fn read(nodes: &mut Nodes, source: Source<'_>, at: Place, turns: usize) -> Option<Parsed<Set>> {
        let name = source.take_name(at)?;
        let equals = source.take_sign(name.after, Sign::Equal)?;
        let to = expr(nodes, source, equals, 0, turns)?;
        let value = Set {
            col: name.value,
            to: to.value.node,
        };
        Some(Parsed {
            value,
            after: to.after,
        })
    }

    fn node(self, rest: Option<u16>) -> Node {
        Node::Set(self, rest)
    }
}
