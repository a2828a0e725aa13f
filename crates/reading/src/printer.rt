// A read statement printed: keywords small, one blank between words, every compound expression in brackets.
//
// The number left falls with each call, so that it ends on any nodes; a read statement nests less deep than it has nodes.
use itoa::Buffer;
use std::alloc::AllocError;
use text::{Fold, Node, Nodes, Op, Question, Span, Statement, Table, bytes_of};

fn sign(op: Op) -> &'static [u8] {
    match op {
        Op::Or => b" or ",
        Op::And => b" and ",
        Op::Equal => b" = ",
        Op::Below => b" < ",
        Op::AtMost => b" <= ",
        Op::Plus => b" + ",
        Op::Minus => b" - ",
        Op::Concat => b" || ",
        Op::Times => b" * ",
    }
}

fn fold_word(fold: Fold) -> &'static [u8] {
    match fold {
        Fold::Count => b"count(",
        Fold::Sum => b"sum(",
        Fold::Min => b"min(",
        Fold::Max => b"max(",
    }
}

// Appends to `out` what stands in the nodes, over the statement's bytes.
#[derive(Drop)]
pub struct Printer<'o, 'a> {
    pub out: &'o mut Vec<u8>,
    pub nodes: &'a Nodes,
    pub text: &'a [u8],
}

impl<'o, 'a> Printer<'o, 'a> {
    fn say(&mut self, bytes: &[u8]) -> Result<(), AllocError> {
        self.out.extend_from_slice(bytes)
    }

    fn byte(&mut self, byte: u8) -> Result<(), AllocError> {
        self.out.push(byte)?;
        Ok(())
    }

    fn name(&mut self, span: Span) -> Result<(), AllocError> {
        let text = self.text;
        for b in bytes_of(text, span) {
            self.out.push(b.to_ascii_lowercase())?;
        }
        Ok(())
    }

    fn number(&mut self, n: u64) -> Result<(), AllocError> {
        // most numbers have one digit
        if n < 10 {
            return self.byte(b'0' + n as u8);
        }
        let mut digits = Buffer::new();
        self.say(digits.format(n).as_bytes())
    }

    fn quoted(&mut self, span: Span) -> Result<(), AllocError> {
        let text = self.text;
        self.say(b"'")?;
        self.say(bytes_of(text, span))?;
        self.say(b"'")
    }

    fn column(&mut self, source: Option<Span>, column: Span) -> Result<(), AllocError> {
        if let Some(source) = source {
            self.name(source)?;
            self.say(b".")?;
        }
        self.name(column)
    }

    // An expression between two texts.
    #[cycle(printing)]
    fn within(
        &mut self,
        before: &[u8],
        i: u16,
        after: &[u8],
        left: usize,
    ) -> Result<(), AllocError> {
        self.say(before)?;
        self.expr(i, left)?;
        self.say(after)
    }

    #[cycle(printing)]
    fn both(&mut self, op: Op, a: u16, b: u16, left: usize) -> Result<(), AllocError> {
        self.within(b"(", a, sign(op), left)?;
        self.within(b"", b, b")", left)
    }

    #[cycle(printing)]
    fn expr(&mut self, i: u16, left: usize) -> Result<(), AllocError> {
        if left == 0 {
            return Ok(());
        }
        match self.nodes.get(i) {
            Node::Null => self.say(b"null"),
            Node::Number(n) => self.number(n),
            Node::Text(span) => self.quoted(span),
            Node::Column(source, of) => self.column(source, of),
            Node::Both(op, a, b) => self.both(op, a, b, left - 1),
            Node::Negated(a) => self.within(b"(- ", a, b")", left - 1),
            Node::Not(a) => self.within(b"(not ", a, b")", left - 1),
            Node::IsNull(a) => self.within(b"(", a, b" is null)", left - 1),
            Node::RowCount => self.say(b"count(*)"),
            Node::Folded(fold, a) => self.within(fold_word(fold), a, b")", left - 1),
            Node::Exists(q) => self.query_within(b"exists (", q, left - 1),
            Node::Scalar(q) => self.query_within(b"(", q, left - 1),
            _ => Ok(()),
        }
    }

    #[cycle(printing)]
    fn query_within(&mut self, before: &[u8], i: u16, left: usize) -> Result<(), AllocError> {
        self.say(before)?;
        self.query(i, left)?;
        self.say(b")")
    }

    // The items of a list, with commas, after a text.
    #[cycle(printing)]
    fn list(&mut self, before: &[u8], first: u16, left: usize) -> Result<(), AllocError> {
        self.say(before)?;
        let mut next = Some(first);
        for left in (0..left).rev() {
            let Some(i) = next else {
                return Ok(());
            };
            if i != first {
                self.say(b", ")?;
            }
            next = self.item(i, left)?;
        }
        Ok(())
    }

    // One item of a list; what it gives is the next one.
    #[cycle(printing)]
    fn item(&mut self, i: u16, left: usize) -> Result<Option<u16>, AllocError> {
        match self.nodes.get(i) {
            Node::Item(e, rest) => {
                self.expr(e, left)?;
                Ok(rest)
            }
            Node::Key(key, rest) => {
                self.within(b"", key.by, if key.down { b" desc" } else { b"" }, left)?;
                Ok(rest)
            }
            Node::Row(row, rest) => {
                self.byte(b'(')?;
                self.list(b"", row.first, left)?;
                self.byte(b')')?;
                Ok(rest)
            }
            Node::Set(set, rest) => {
                self.name(set.col)?;
                self.within(b" = ", set.to, b"", left)?;
                Ok(rest)
            }
            node => self.plain_item(node),
        }
    }

    // An item that holds no expression.
    fn plain_item(&mut self, node: Node) -> Result<Option<u16>, AllocError> {
        match node {
            Node::Source(table, rest) => {
                self.table(table)?;
                Ok(rest)
            }
            Node::Name(name, rest) => {
                self.name(name)?;
                Ok(rest)
            }
            Node::Col(col, rest) => {
                self.name(col.name)?;
                self.say(if col.text { b" text" } else { b" int" })?;
                if col.must {
                    self.say(b" not null")?;
                }
                Ok(rest)
            }
            _ => Ok(None),
        }
    }

    // The alias is left out where it is the table's own name.
    fn table(&mut self, table: Table) -> Result<(), AllocError> {
        self.name(table.name)?;
        let name = bytes_of(self.text, table.name);
        let alias = bytes_of(self.text, table.alias);
        if !name.eq_ignore_ascii_case(alias) {
            self.named(b" ", table.alias)?;
        }
        Ok(())
    }

    // A clause with a condition, left out where it is 1.
    #[cycle(printing)]
    fn condition(&mut self, word: &[u8], i: u16, left: usize) -> Result<(), AllocError> {
        match self.nodes.get(i) {
            Node::Number(1) => Ok(()),
            _ => self.within(word, i, b"", left),
        }
    }

    #[cycle(printing)]
    fn query(&mut self, i: u16, left: usize) -> Result<(), AllocError> {
        match self.nodes.get(i) {
            Node::Query(q) if left > 0 => self.question(q, left - 1),
            _ => Ok(()),
        }
    }

    #[cycle(printing)]
    fn question(&mut self, q: Question, left: usize) -> Result<(), AllocError> {
        self.say(b"select ")?;
        if q.distinct {
            self.say(b"distinct ")?;
        }
        self.list(b"", q.out, left)?;
        self.list(b" from ", q.from, left)?;
        self.condition(b" where ", q.wanted, left)?;
        if let Some(groups) = q.groups {
            self.list(b" group by ", groups, left)?;
            self.condition(b" having ", q.having, left)?;
        }
        if let Some(keys) = q.keys {
            self.list(b" order by ", keys, left)?;
        }
        match q.limit {
            Some(limit) => self.limit(limit),
            None => Ok(()),
        }
    }

    fn limit(&mut self, i: u16) -> Result<(), AllocError> {
        let Node::Limit(most, skip) = self.nodes.get(i) else {
            return Ok(());
        };
        self.say(b" limit ")?;
        self.number(most)?;
        if skip > 0 {
            self.say(b" offset ")?;
            self.number(skip)?;
        }
        Ok(())
    }

    // A word, and a name after it.
    fn named(&mut self, word: &[u8], of: Span) -> Result<(), AllocError> {
        self.say(word)?;
        self.name(of)
    }

    // A list in brackets.
    fn bracketed(&mut self, first: u16) -> Result<(), AllocError> {
        self.list(b" (", first, 8200)?;
        self.say(b")")
    }

    pub fn print(&mut self, statement: Statement) -> Result<(), AllocError> {
        match statement {
            Statement::CreateTable(table, cols) => {
                self.named(b"create table ", table)?;
                self.bracketed(cols)
            }
            Statement::DropTable(table) => self.named(b"drop table ", table),
            Statement::CreateIndex(unique, of, table, cols) => {
                self.say(if unique { b"create unique" } else { b"create" })?;
                self.named(b" index ", of)?;
                self.named(b" on ", table)?;
                self.bracketed(cols)
            }
            Statement::DropIndex(of) => self.named(b"drop index ", of),
            Statement::Insert(table, rows) => {
                self.named(b"insert into ", table)?;
                self.list(b" values ", rows, 8200)
            }
            Statement::InsertFrom(table, q) => {
                self.named(b"insert into ", table)?;
                self.say(b" ")?;
                self.query(q, 8200)
            }
            Statement::Update(table, sets, wanted) => {
                self.named(b"update ", table)?;
                self.list(b" set ", sets, 8200)?;
                self.condition(b" where ", wanted, 8200)
            }
            Statement::Delete(table, wanted) => {
                self.named(b"delete from ", table)?;
                self.condition(b" where ", wanted, 8200)
            }
            Statement::Select(q) => self.query(q, 8200),
            Statement::Begin => self.say(b"begin"),
            Statement::Commit => self.say(b"commit"),
            Statement::Rollback => self.say(b"rollback"),
            Statement::Savepoint(of) => self.named(b"savepoint ", of),
            Statement::RollbackTo(of) => self.named(b"rollback to ", of),
            Statement::Release(of) => self.named(b"release ", of),
        }
    }
}
