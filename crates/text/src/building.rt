// The nodes as they are made: pushed, joined by operators, and read again.
ghost use Rattle.std.specs.Prelude.{◌≡◌, ◌<◌, [], false, length};
ghost use Rattle.text.specs.Stands.{filled, At};
ghost use Rattle.text.specs.Found.{Pushed, Joined};

use crate::nodes::{Node, Nodes, Op};
use crate::parts::{Operand, Parsed, Term};
use crate::tokens::Place;
use crate::words::Infix;

impl Nodes {
    pub(crate) fn clear(&mut self)
        ensures { filled self.new ≡ [] }
    {
        self.nodes.clear();
    }

    // There is room, so that nothing is allocated.
    pub(crate) fn push(&mut self, node: Node) -> u16
        requires { length (filled self.old) < 8200 }
        ensures { Pushed self.old self.new node result }
    {
        let at = self.nodes.len() as u16;
        self.nodes.push_reserved(node);
        at
    }

    // The node at an index; null where there is none.
    pub fn get(&self, i: u16) -> Node
        ensures { i < length (filled self.now) → At (filled self.now) i result }
    {
        self.nodes.get(i as usize).copied().unwrap_or(Node::Null)
    }
}

// The node, or two, of an operator over its sides.
pub fn join(nodes: &mut Nodes, op: Infix, a: u16, b: u16) -> u16
    requires { length (filled nodes.old) < 8199 }
    ensures { Joined nodes.old nodes.new op a b result }
{
    match op {
        Infix::Or => nodes.push(Node::Both(Op::Or, a, b)),
        Infix::And => nodes.push(Node::Both(Op::And, a, b)),
        Infix::Equal => nodes.push(Node::Both(Op::Equal, a, b)),
        Infix::Differs => {
            let equal = nodes.push(Node::Both(Op::Equal, a, b));
            nodes.push(Node::Not(equal))
        }
        Infix::Below => nodes.push(Node::Both(Op::Below, a, b)),
        Infix::Above => nodes.push(Node::Both(Op::Below, b, a)),
        Infix::AtMost => nodes.push(Node::Both(Op::AtMost, a, b)),
        Infix::AtLeast => nodes.push(Node::Both(Op::AtMost, b, a)),
        Infix::Plus => nodes.push(Node::Both(Op::Plus, a, b)),
        Infix::Minus => nodes.push(Node::Both(Op::Minus, a, b)),
        Infix::Concat => nodes.push(Node::Both(Op::Concat, a, b)),
        Infix::Times => nodes.push(Node::Both(Op::Times, a, b)),
    }
}

// A node of its own, of the smallest level.
pub fn leaf(nodes: &mut Nodes, node: Node, after: Place) -> Parsed<Operand>
    requires { length (filled nodes.old) < 8200 }
    ensures { (Pushed nodes.old nodes.new node result.value.it.node) × ((result.value.level ≡ 7) × ((result.value.it.aggregates ≡ false) × (result.after ≡ after))) }
{
    let it = Term {
        node: nodes.push(node),
        aggregates: false,
    };
    Parsed {
        value: Operand { level: 7, it },
        after,
    }
}
