// What is done with the pages of a joiner.
ghost use Rattle.std.specs.Prelude.{◌≡◌, ◌+◌, ◌<◌, ◌≤◌, [], ◌∷◌, length, IfOk};
ghost use Rattle.node.specs.Node.{count_in, entries_in, lies, Whole};
ghost use Rattle.node.specs.Joiner.{OpenedBy, PushedBy, spare, ReservedBy, JoinedBy, AllPushed};

use crate::joiner::{CAPACITY, Joiner, MOST};
use crate::{Entry, Full, Node, clear, push};
use std::alloc::{AllocError, Global};

impl Joiner {
    // All its memory is taken here.
    #[tactic(auto, unfolding(crate::specs::Joiner::pages_to))]
    pub fn new(heap: Global) -> Result<Joiner, AllocError>
        ensures { IfOk result (λ j. (j.level ≡ 0) × (j.pages ≡ [])) }
    {
        Ok(Joiner {
            pages: vec![in heap; [0; 4096]; MOST]?,
            len: 0,
            level: 0,
        })
    }

    // No pages, of another level.
    #[tactic(auto, unfolding(crate::specs::Joiner::pages_to))]
    pub fn begin(&mut self, level: u8)
        ensures { self.new ≡ record { level = level; pages = []; memory = self.old.memory } }
    {
        self.level = level;
        self.len = 0;
    }

    // One page more, without entries, if there is a place for one.
    fn open(&mut self) -> Result<(), Full>
        ensures { OpenedBy self.old result self.new }
    {
        let at = self.len;
        if at >= self.pages.len() {
            return Err(Full);
        }
        clear(&mut self.pages[at], self.level);
        self.len = at + 1;
        Ok(())
    }

    // An entry behind the last page's, if there is a page and it has room.
    fn push_on(&mut self, entry: Entry) -> Result<(), Full>
        ensures { PushedBy self.old (lies entry.entry) result self.new }
    {
        let len = self.len;
        if len == 0 {
            return Err(Full);
        }
        push(&mut self.pages[len - 1], entry)
    }

    // How many bytes the last page has room for; none where there is no page.
    fn room(&self) -> usize
        ensures { result ≡ spare self.now.pages }
    {
        let len = self.len;
        if len == 0 {
            return 0;
        }
        let last = Node {
            page: &self.pages[len - 1],
        };
        CAPACITY.saturating_sub(last.used())
    }

    // Sees to it that the last page has room for so many bytes, if there is a place for one more.
    fn reserve(&mut self, weight: usize) -> Result<(), Full>
        ensures { ReservedBy self.old weight result self.new }
    {
        if self.room() < weight {
            return self.open();
        }
        Ok(())
    }

    // One entry as a unit of its own.
    pub fn add(&mut self, entry: Entry) -> Result<(), Full>
        ensures { 4 + (length entry.entry.key.now + length entry.entry.value.now) ≤ 4088 → JoinedBy self.old (lies entry.entry ∷ []) result self.new }
    {
        let len = entry.key.len().saturating_add(entry.value.len());
        self.reserve(len.saturating_add(4))?;
        self.push_on(entry)
    }

    // All entries of a node behind the last page's, if that has room for them.
    fn push_all(&mut self, node: Node) -> Result<(), Full>
        ensures { Whole node.entry.page.now → AllPushed self.old (entries_in node.entry.page.now) result self.new }
    {
        // kept: (d) numbers: a page's entries are found by number, and an iterator of them would count the same
        for i in 0..node.count() {
            self.push_on(node.entry(i))?;
        }
        Ok(())
    }

    // All entries of a node as one unit.
    pub fn add_page(&mut self, node: Node) -> Result<(), Full>
        ensures { Whole node.entry.page.now → 0 < count_in node.entry.page.now → JoinedBy self.old (entries_in node.entry.page.now) result self.new }
    {
        self.reserve(node.used())?;
        self.push_all(node)
    }
}
