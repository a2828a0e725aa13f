// That the grammar of statements reads every text in one way at most, and that whether a text is a statement can be told: theorems,
// and no code that runs. They are shown by a reader that is a function of the tokens, sound and complete for the grammar of `meaning`.
#![tactic(auto)]

ghost use Rattle.grammar.specs.Readings.{OneReading, CanTell};

// At most one statement is a text.
pub fn one_reading()
    ensures { OneReading }
{}

// Whether a text is a statement can be told.
pub fn can_tell()
    ensures { CanTell }
{}
