// The parts of a query that hold no expressions: its tables, and how many rows it gives.
ghost use Rattle.meaning.specs.Tree as tree;
ghost use Rattle.grammar.specs.Reader as reader;
ghost use Rattle.text.specs.Cut.{tokens_at};
ghost use Rattle.text.specs.Stands.{StandsSource, Alone};
ghost use Rattle.text.specs.Found.{Ready, ReadsLimit, Distinguished};
ghost use Rattle.text.specs.declared.nodes.Node.TheVariants as made_node;

use crate::lists::Item;
use crate::nodes::{Node, Nodes, Table};
use crate::parts::Parsed;
use crate::tokens::{Place, Source};

// distinct, or not.
pub fn distinction(source: Source<'_>, at: Place) -> Parsed<bool>
    ensures { Distinguished source.entry.bytes.now (tokens_at source.entry.bytes.now at) result }
{
    let distinct = source.take_key(at, b"distinct");
    Parsed {
        value: distinct.is_some(),
        after: distinct.unwrap_or(at),
    }
}

impl Item for Table {
    ghost Tree = { tree.Source };

    ghost reader = { λ n. reader.a_source };

    ghost Stands = { StandsSource };

    ghost Within = { Alone };

    ghost made = { made_node.Source };

    fn read(
        nodes: &mut Nodes,
        source: Source<'_>,
        at: Place,
        turns: usize,
    ) -> Option<Parsed<Table>> {
        let name = source.take_name(at)?;
        let alias = source.take_name(name.after).unwrap_or(name);
        Some(Parsed {
            value: Table {
                name: name.value,
                alias: alias.value,
            },
            after: alias.after,
        })
    }

    fn node(self, rest: Option<u16>) -> Node {
        Node::Source(self, rest)
    }
}

// How many rows at most, and after how many.
pub fn limits(nodes: &mut Nodes, source: Source<'_>, at: Place) -> Option<Parsed<Option<u16>>>
    requires { Ready source.bytes.now nodes.old at }
    ensures { ReadsLimit source.entry.bytes.now nodes.old nodes.new (tokens_at source.entry.bytes.now at) (reader.limits (tokens_at source.entry.bytes.now at)) result }
{
    let Some(limit) = source.take_key(at, b"limit") else {
        return Some(Parsed {
            value: None,
            after: at,
        });
    };
    let most = source.take_number(limit)?;
    let skip = match source.take_key(most.after, b"offset") {
        Some(offset) => source.take_number(offset)?,
        None => Parsed {
            value: 0,
            after: most.after,
        },
    };
    let node = nodes.push(Node::Limit(most.value, skip.value));
    Some(Parsed {
        value: Some(node),
        after: skip.after,
    })
}
