// The tree of pages, as lists: what the code of `maps` is proved against. A level is a list of pages; any two neighbours of a
// level together exceed a page, and the level above has exactly the first keys of the one below. There is no code here: each
// function's contract is a law, on edits, look-ups, and how many pages and levels there can be. Start with specs/Entries,
// Pages and Tree; specs/Laws has the statements.
#![tactic(auto)]

ghost use Rattle.tree.specs.Bytes.{BytesAre};
ghost use Rattle.tree.specs.Witness.{Witness, Changed};
ghost use Rattle.tree.specs.Room.{StandsSized, RoomSays};
ghost use Rattle.tree.specs.Many.{ManyMaps, ManyRise};
ghost use Rattle.tree.specs.Laws.{JoinKeeps, LevelAny, RaisedPuts, Splice, WindowApart, WindowGrown, PiecesFit, LevelEdit, HeadsRise, NewLevel, TrimStands, AtStep, UnderStep, BelongsParts, FirstFound, LastFound, NoneFound, SameLead, DownReaches, DownUnder, DownExact, DownBefore, SeekFrom, SeekBefore, SeekLeaf, LeafChange, ClimbLinks, TopLinks, NewPages, Seventeen, LeafSix, WholeFew, FirstChange, EntersTakes, RunBelongs, Space1226, WholeChange, WholeFirst, TouchedThree, ReplaceIs, ReplaceGrown, StandsStored, NamesApart, LeafBound, InnerBound, TreeBound, SpaceBound, HeightBound};

// Joining keeps the entries, and neighbours come out apart.
pub fn join_keeps()
    ensures { JoinKeeps }
{}

// A run of pages is replaced between its neighbours.
pub fn window_stands()
    ensures apart { WindowApart }
    ensures grown { WindowGrown }
{}

// How many pages and levels there are.
pub fn bounds_stand()
    ensures leaf { LeafBound }
    ensures inner { InnerBound }
    ensures tree { TreeBound }
    ensures space { SpaceBound }
    ensures height { HeightBound }
    ensures here { Space1226 }
{}

// What edits do to a page, and to a level.
pub fn edits_stand()
    ensures pieces { PiecesFit }
    ensures level { LevelEdit }
    ensures any { LevelAny }
{}

// What a level's change does above it.
pub fn levels_rise()
    ensures heads { HeadsRise }
    ensures puts { RaisedPuts }
    ensures splice { Splice }
    ensures new_level { NewLevel }
    ensures trim { TrimStands }
{}

// Looking for a key, level by level.
pub fn looks_stand()
    ensures at_step { AtStep }
    ensures under_step { UnderStep }
    ensures parts { BelongsParts }
    ensures first { FirstFound }
    ensures last { LastFound }
    ensures none { NoneFound }
    ensures same { SameLead }
{}

// The whole way down, in a store of pages by name.
pub fn ways_stand()
    ensures stored { StandsStored }
    ensures reaches { DownReaches }
    ensures under { DownUnder }
    ensures exact { DownExact }
    ensures names { NamesApart }
    ensures before { DownBefore }
{}

// What is looked for in a tree is what the list of all its entries says.
pub fn seeks_stand()
    ensures from { SeekFrom }
    ensures before { SeekBefore }
    ensures leaf { SeekLeaf }
{}

// A change of a tree, from its leaves up.
pub fn changes_stand()
    ensures leaf { LeafChange }
    ensures replaced { ReplaceIs }
    ensures grown { ReplaceGrown }
    ensures first { FirstChange }
    ensures entry { EntersTakes }
    ensures run { RunBelongs }
    ensures climb { ClimbLinks }
    ensures top { TopLinks }
    ensures whole { WholeChange }
    ensures whole_first { WholeFirst }
{}

// How much one change puts.
pub fn writes_few()
    ensures pages { NewPages }
    ensures inner { Seventeen }
    ensures leaf { LeafSix }
    ensures whole { WholeFew }
    ensures touched { TouchedThree }
{}

// A tree that stands and a change of it: the laws' premises can be met.
pub fn witness_stands()
    ensures witness { Witness }
    ensures changed { Changed }
{}

// Pages as bytes.
pub fn bytes_stand()
    ensures { BytesAre }
{}

// Want of room says how much is kept, and a tree that stands takes no more pages than what its entries weigh allows.
pub fn room_stands()
    ensures sized { StandsSized }
    ensures says { RoomSays }
{}

// Many maps in one list: what is done to one is done to its entries, and what is looked for is what it has.
pub fn many_stand()
    ensures maps { ManyMaps }
    ensures rise { ManyRise }
{}
