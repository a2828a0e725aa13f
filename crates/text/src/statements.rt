// The reader of statements.
ghost use Rattle.grammar.specs.Reader as reader;
ghost use Rattle.text.specs.Cut.{tokens_at};
ghost use Rattle.text.specs.Found.{Ready, Says, Names, NamedBy};

use crate::exprs::queries::{condition, question};
use crate::lists::list;
use crate::nodes::{Col, Nodes, Row, Set, Span, Statement};
use crate::parts::Parsed;
use crate::tokens::{Place, Sign, Source};

// After `create table`.
fn create_table(
    nodes: &mut Nodes,
    source: Source<'_>,
    at: Place,
    left: usize,
) -> Option<Parsed<Statement>>
    requires { Ready source.bytes.now nodes.old at }
    ensures { Says source.entry.bytes.now nodes.new (reader.create_table left (tokens_at source.entry.bytes.now at)) result }
{
    let name = source.take_name(at)?;
    let open = source.take_sign(name.after, Sign::Open)?;
    let cols = list::<Col>(nodes, source, open, left, left)?;
    let after = source.take_sign(cols.after, Sign::Close)?;
    Some(Parsed {
        value: Statement::CreateTable(name.value, cols.value),
        after,
    })
}

// After `create index` or `create unique index`.
fn create_index(
    nodes: &mut Nodes,
    source: Source<'_>,
    at: Place,
    unique: bool,
    left: usize,
) -> Option<Parsed<Statement>>
    requires { Ready source.bytes.now nodes.old at }
    ensures { Says source.entry.bytes.now nodes.new (reader.create_index left unique (tokens_at source.entry.bytes.now at)) result }
{
    let name = source.take_name(at)?;
    let on = source.take_key(name.after, b"on")?;
    let table = source.take_name(on)?;
    let open = source.take_sign(table.after, Sign::Open)?;
    let cols = list::<Span>(nodes, source, open, left, left)?;
    let after = source.take_sign(cols.after, Sign::Close)?;
    let value = Statement::CreateIndex(unique, name.value, table.value, cols.value);
    Some(Parsed { value, after })
}

fn create(
    nodes: &mut Nodes,
    source: Source<'_>,
    at: Place,
    left: usize,
) -> Option<Parsed<Statement>>
    requires { Ready source.bytes.now nodes.old at }
    ensures { Says source.entry.bytes.now nodes.new (reader.create left (tokens_at source.entry.bytes.now at)) result }
{
    if let Some(table) = source.take_key(at, b"table") {
        return create_table(nodes, source, table, left);
    }
    if let Some(index) = source.take_key(at, b"index") {
        return create_index(nodes, source, index, false, left);
    }
    let unique = source.take_key(at, b"unique")?;
    let index = source.take_key(unique, b"index")?;
    create_index(nodes, source, index, true, left)
}

// A name, and the statement of it.
fn named<F: Fn(Span) -> Statement>(
    source: Source<'_>,
    at: Place,
    make: F,
) -> Option<Parsed<Statement>>
    requires { F.IsAlwaysCallable make }
    ensures { NamedBy (F.post make) source.entry.bytes.now (tokens_at source.entry.bytes.now at) result }
{
    let name = source.take_name(at)?;
    Some(Parsed {
        value: make(name.value),
        after: name.after,
    })
}

fn drop_one(source: Source<'_>, at: Place) -> Option<Parsed<Statement>>
    ensures { Names source.entry.bytes.now (reader.drop (tokens_at source.entry.bytes.now at)) result }
{
    if let Some(table) = source.take_key(at, b"table") {
        return named(source, table, |name| Statement::DropTable(name));
    }
    let index = source.take_key(at, b"index")?;
    named(source, index, |name| Statement::DropIndex(name))
}

// After `rollback`.
fn rollback(source: Source<'_>, at: Place) -> Option<Parsed<Statement>>
    ensures { Names source.entry.bytes.now (reader.rollback (tokens_at source.entry.bytes.now at)) result }
{
    let Some(to) = source.take_key(at, b"to") else {
        return Some(Parsed {
            value: Statement::Rollback,
            after: at,
        });
    };
    named(source, to, |name| Statement::RollbackTo(name))
}

fn insert(
    nodes: &mut Nodes,
    source: Source<'_>,
    at: Place,
    left: usize,
) -> Option<Parsed<Statement>>
    requires { Ready source.bytes.now nodes.old at }
    ensures { Says source.entry.bytes.now nodes.new (reader.insert left (tokens_at source.entry.bytes.now at)) result }
{
    let into = source.take_key(at, b"into")?;
    let name = source.take_name(into)?;
    if let Some(values) = source.take_key(name.after, b"values") {
        let rows = list::<Row>(nodes, source, values, left, left)?;
        return Some(Parsed {
            value: Statement::Insert(name.value, rows.value),
            after: rows.after,
        });
    }
    let query = question(nodes, source, name.after, left)?;
    Some(Parsed {
        value: Statement::InsertFrom(name.value, query.value.node),
        after: query.after,
    })
}

fn update(
    nodes: &mut Nodes,
    source: Source<'_>,
    at: Place,
    left: usize,
) -> Option<Parsed<Statement>>
    requires { Ready source.bytes.now nodes.old at }
    ensures { Says source.entry.bytes.now nodes.new (reader.update left (tokens_at source.entry.bytes.now at)) result }
{
    let name = source.take_name(at)?;
    let set = source.take_key(name.after, b"set")?;
    let sets = list::<Set>(nodes, source, set, left, left)?;
    let wanted = condition(nodes, source, sets.after, b"where", left)?;
    let value = Statement::Update(name.value, sets.value, wanted.value);
    Some(Parsed {
        value,
        after: wanted.after,
    })
}

fn delete(
    nodes: &mut Nodes,
    source: Source<'_>,
    at: Place,
    left: usize,
) -> Option<Parsed<Statement>>
    requires { Ready source.bytes.now nodes.old at }
    ensures { Says source.entry.bytes.now nodes.new (reader.delete left (tokens_at source.entry.bytes.now at)) result }
{
    let from = source.take_key(at, b"from")?;
    let name = source.take_name(from)?;
    let wanted = condition(nodes, source, name.after, b"where", left)?;
    Some(Parsed {
        value: Statement::Delete(name.value, wanted.value),
        after: wanted.after,
    })
}

// Any statement, by its first word.
pub fn statement(
    nodes: &mut Nodes,
    source: Source<'_>,
    at: Place,
    left: usize,
) -> Option<Parsed<Statement>>
    requires { Ready source.bytes.now nodes.old at }
    ensures { Says source.entry.bytes.now nodes.new (reader.statement left (tokens_at source.entry.bytes.now at)) result }
{
    if let Some(after) = source.take_key(at, b"create") {
        return create(nodes, source, after, left);
    }
    if let Some(after) = source.take_key(at, b"drop") {
        return drop_one(source, after);
    }
    if let Some(after) = source.take_key(at, b"insert") {
        return insert(nodes, source, after, left);
    }
    if let Some(after) = source.take_key(at, b"update") {
        return update(nodes, source, after, left);
    }
    if let Some(after) = source.take_key(at, b"delete") {
        return delete(nodes, source, after, left);
    }
    if let Some(after) = source.take_key(at, b"begin") {
        return Some(Parsed {
            value: Statement::Begin,
            after,
        });
    }
    if let Some(after) = source.take_key(at, b"commit") {
        return Some(Parsed {
            value: Statement::Commit,
            after,
        });
    }
    if let Some(after) = source.take_key(at, b"rollback") {
        return rollback(source, after);
    }
    if let Some(after) = source.take_key(at, b"savepoint") {
        return named(source, after, |name| Statement::Savepoint(name));
    }
    if let Some(after) = source.take_key(at, b"release") {
        return named(source, after, |name| Statement::Release(name));
    }
    let query = question(nodes, source, at, left)?;
    Some(Parsed {
        value: Statement::Select(query.value.node),
        after: query.after,
    })
}
