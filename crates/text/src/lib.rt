// The statements of the language, read from their texts into nodes.
//
// `read` gives a statement exactly where the grammar of `meaning` derives one from the bytes, and that one; it stands for it in the nodes,
// which are made once and are enough for every text of 4,096 bytes. It rests on `grammar`, which shows that a text is at most one
// statement. Nothing is allocated after `Nodes::new`, and every call ends.
#![tactic(auto)]

ghost use Rattle.text.specs.Found.{ReadText};

mod building;
mod exprs;
mod items;
mod lists;
mod nodes;
mod parts;
mod sources;
mod statements;
mod tokens;
mod words;

pub use nodes::{Col, Fold, Key, Node, Nodes, Op, Question, Row, Set, Span, Statement, Table};
pub use parts::Refusal;
use statements::statement;
use tokens::{Source, Tok};
pub use words::bytes_of;

// The statement that a text is: refused as unread (1) where it is none, and as too long (10) above 4,096 bytes.
pub fn read(nodes: &mut Nodes, text: &[u8]) -> Result<Statement, Refusal>
    ensures { ReadText text.now nodes.new result }
{
    let source = Source::new(text)?;
    nodes.clear();
    let said = statement(nodes, source, source.next(0), text.len() + 1).ok_or(Refusal::Unread)?;
    match said.after.tok {
        Tok::End => Ok(said.value),
        _ => Err(Refusal::Unread),
    }
}
