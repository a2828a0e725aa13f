// The session: a layer that takes statements and asks for rows, and answers them. As it comes up it reads the header page. A
// text is read as the one statement that it is; none is built yet. So a text of more than 4,096 bytes is refused by 10, one
// that is no statement by 1, any statement by 12, and `next` by 13.
ghost use Rattle.std.specs.Prelude.{◌≡◌, ℕ, IfOk};
ghost use Rattle.session.specs.Layer.{session_layer, StartsAt, HearsAt, HeardAs, TakenAs};

use crate::{Call, Refusal, Reply, Value};
use device::{Layer, Next};
use pages::PageCall;
use std::alloc::{AllocError, Global};
use text::Nodes;

// The page that says what is kept.
pub const HEADER: u64 = 0;

// What is under way.
// kept: (a) a stage and no closure: a step ends where something is asked for, and the next goes on from what is held in fixed memory
#[derive(Clone, Copy)]
pub enum Doing {
    Rising,
    Loading,
    Resting,
    // a text was said
    Said(Result<(), text::Refusal>),
    // a row was asked for
    Asked,
}

#[derive(Drop)]
pub struct Session {
    doing: Doing,
    nodes: Nodes,
}

// Reads a text.
fn hear_text(nodes: &mut Nodes, text: &[u8]) -> Result<(), text::Refusal>
    ensures { HeardAs text.now result }
{
    text::read(nodes, text)?;
    Ok(())
}

// What a call begins.
fn taken(nodes: &mut Nodes, call: Call, text: &[u8]) -> Doing
    ensures { TakenAs call text.now result }
{
    match call {
        Call::Say => Doing::Said(hear_text(nodes, text)),
        Call::Next => Doing::Asked,
    }
}

// What the session does when it is its turn, and where it is then.
fn started(doing: Doing) -> (Next<PageCall, Value, Reply>, Doing)
    ensures { StartsAt doing result.0 result.1 }
{
    let refusal = match doing {
        Doing::Rising => return (Next::Call(PageCall::Get(HEADER)), Doing::Loading),
        Doing::Said(Ok(())) => Refusal::NotBuilt,
        Doing::Said(Err(unread)) => Refusal::from(unread),
        Doing::Asked | Doing::Loading | Doing::Resting => Refusal::NoQuery,
    };
    (Next::Give(Reply::No(refusal.into())), Doing::Resting)
}

// What comes after an answer of the store below: the header page was read, and the session is up.
fn risen() -> (Next<PageCall, Value, Reply>, Doing)
    ensures { HearsAt result.0 result.1 }
{
    (Next::Give(Reply::Done(0)), Doing::Resting)
}

impl Session {
    // All memory that it will ever need is taken here.
    pub fn new(heap: Global) -> Result<Session, AllocError>
        ensures { IfOk result (λ s. ((size : ℕ) → session_layer.Wakes size s)) }
    {
        let nodes = Nodes::new(heap)?;
        Ok(Session {
            doing: Doing::Rising,
            nodes,
        })
    }
}

impl Layer for Session {
    type Below = PageCall;

    type Heard = pages::Reply;

    type Call = Call;

    type Value = Value;

    type Reply = Reply;

    ghost layer = { session_layer };

    fn take(&mut self, c: Call, bytes: &[u8]) {
        self.doing = taken(&mut self.nodes, c, bytes);
    }

    fn start(&mut self) -> Next<PageCall, Value, Reply> {
        let (next, doing) = started(self.doing);
        self.doing = doing;
        next
    }

    fn hear(&mut self, r: pages::Reply, bytes: &[u8]) -> Next<PageCall, Value, Reply> {
        let (next, doing) = risen();
        self.doing = doing;
        next
    }

    fn sent(&self) -> &[u8] {
        &[]
    }

    fn shown(&self) -> &[u8] {
        &[]
    }
}
