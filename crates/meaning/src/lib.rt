// The written meaning of the language: values and their order, trees of statements, which texts are which statement, what a query answers, what a statement does to tables or by which number
// it is refused, what tables weigh, and what a call to a connection may answer. There is no code here, and no page or plan in the definitions: they are what a reader has to believe,
// and the store is proved against them. Start with specs/Value.antt; then Tree, Text and Grammar (texts), Meaning and Doing (tables), Session (a connection), Cases for worked examples and Laws.
// Each function below does nothing: its contract is a theorem on these definitions, which shows that they hold together.
#![tactic(auto)]

ghost use Rattle.meaning.specs.Laws.{Ordered, StaysSound, BlankSound, ConnectionStaysSound};
ghost use Rattle.meaning.specs.Cases.{CasesStand};

// The order of values is one: no two are each below the other, below goes on, and values of which neither is below are the same.
pub fn order_stands()
    ensures { Ordered }
{}

// Tables stay sound whatever statement is done, no tables at all are sound, and so a connection's are, as committed, as they are and at each savepoint.
pub fn tables_stay_sound()
    ensures stays { StaysSound }
    ensures blank { BlankSound }
    ensures connection { ConnectionStaysSound }
{}

// The worked cases are answered as they say.
pub fn cases_stand()
    ensures { CasesStand }
{}
