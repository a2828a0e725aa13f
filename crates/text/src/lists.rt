// Lists of items with commas between them.
ghost use Rattle.std.specs.Prelude.{◌≡◌, ℕ, List, Option};
ghost use Rattle.grammar.specs.Reader.{Reader, list_of};
ghost use Rattle.text.specs.Cut.{tokens_at};
ghost use Rattle.text.specs.Found.{Ready, ReadsItem, ReadsList};
ghost use Rattle.text.specs.declared.nodes.Node.{Node as AsNode};

use crate::nodes::{Node, Nodes};
use crate::parts::Parsed;
use crate::tokens::{Place, Sign, Source};

// What a list is made of. An item may take as many turns as the statement.
pub trait Item: Copy {
    ghost Tree: { Type 0 };

    ghost reader: { ℕ → Reader Tree };

    // what an item stands for, over the statement's bytes, and that the nodes that it names are there
    ghost Stands: { List ℕ → List AsNode → Tree → Self → Type 0 };

    ghost Within: { Self → ℕ → Type 0 };

    ghost made: { Self → Option ℕ → AsNode };

    fn read(nodes: &mut Nodes, source: Source<'_>, at: Place, turns: usize) -> Option<Parsed<Self>>
        requires { Ready source.bytes.now nodes.old at }
        ensures { ReadsItem (Stands source.entry.bytes.now) Within source.entry.bytes.now nodes.old nodes.new (tokens_at source.entry.bytes.now at) (reader turns (tokens_at source.entry.bytes.now at)) result };

    // Its node, before that of the rest.
    fn node(self, rest: Option<u16>) -> Node
        ensures { result ≡ made self rest };
}

pub fn list<I: Item>(
    nodes: &mut Nodes,
    source: Source<'_>,
    at: Place,
    turns: usize,
    left: usize,
) -> Option<Parsed<u16>>
    requires { Ready source.bytes.now nodes.old at }
    ensures { ReadsList (I.Stands source.entry.bytes.now) I.Within I.made source.entry.bytes.now nodes.old nodes.new (tokens_at source.entry.bytes.now at) (list_of (I.reader turns) left (tokens_at source.entry.bytes.now at)) result }
{
    let left = left.checked_sub(1)?;
    let item = I::read(nodes, source, at, turns)?;
    let mut rest = None;
    let mut after = item.after;
    if let Some(comma) = source.take_sign(after, Sign::Comma) {
        let more = list::<I>(nodes, source, comma, turns, left)?;
        rest = Some(more.value);
        after = more.after;
    }
    let value = nodes.push(item.value.node(rest));
    Some(Parsed { value, after })
}
