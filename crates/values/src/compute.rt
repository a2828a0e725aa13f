// What is computed with values, and how they compare. Each contract is an equation with the written meaning.
ghost use Rattle.std.specs.Prelude.{◌≡◌, not, pos, ℤ, ◌+ℤ◌, ◌-ℤ◌, ◌*ℤ◌};
ghost use Rattle.meaning.specs.Value.{Num, less, same, truth, from_truth, and3, not3, holds, from_bool, is_null, compared, arithmetic, joined};
ghost use Rattle.values.specs.Meant.{meaning_of, truth_of, number_or, Computes};

use crate::{Truth, Value};

// The longest text that comes out of `concat`.
pub const LONGEST: usize = 4000;

impl<'a> Value<'a> {
    // The order of values: null, then numbers, then texts by bytes.
    // kept: (d) names for `<` and `==`: callers have their contracts, which say that they are the meaning's
    pub fn less(self, other: Value) -> bool
        ensures { result ≡ less (meaning_of self.entry) (meaning_of other.entry) }
    {
        self < other
    }

    // Values of which neither is less; two nulls are the same here.
    pub fn same(self, other: Value) -> bool
        ensures { result ≡ same (meaning_of self.entry) (meaning_of other.entry) }
    {
        self == other
    }

    #[tactic(auto, unfolding(meaning::specs::Value::is_null))]
    pub fn is_null(self) -> bool
        ensures { result ≡ is_null (meaning_of self.entry) }
    {
        matches!(self, Value::Null)
    }

    // The sum; null where 64 bits don't hold it, or where one is no number.
    pub fn plus(self, other: Value) -> Value<'static>
        ensures { meaning_of result ≡ arithmetic ◌+ℤ◌ (meaning_of self.entry) (meaning_of other.entry) }
    {
        self.computed(other, |a, b| a.checked_add(b))
    }

    pub fn minus(self, other: Value) -> Value<'static>
        ensures { meaning_of result ≡ arithmetic ◌-ℤ◌ (meaning_of self.entry) (meaning_of other.entry) }
    {
        self.computed(other, |a, b| a.checked_sub(b))
    }

    pub fn times(self, other: Value) -> Value<'static>
        ensures { meaning_of result ≡ arithmetic ◌*ℤ◌ (meaning_of self.entry) (meaning_of other.entry) }
    {
        self.computed(other, |a, b| a.checked_mul(b))
    }

    // 0 less the number: null of the least number.
    pub fn negated(self) -> Value<'static>
        ensures { meaning_of result ≡ arithmetic ◌-ℤ◌ (Num (pos 0)) (meaning_of self.entry) }
    {
        Value::Number(0).minus(self)
    }

    // What a tested operation gives of two numbers; null where that is nothing, or where one is no number.
    #[tactic(auto, unfolding(meaning::specs::Value::arithmetic))]
    fn computed<F: Fn(i64, i64) -> Option<i64>>(self, other: Value, operation: F) -> Value<'static>
        requires { F.IsAlwaysCallable operation }
        ensures { (f : ℤ → ℤ → ℤ) → Computes (F.post operation) f → meaning_of result ≡ arithmetic f (meaning_of self.entry) (meaning_of other.entry) }
    {
        match (self, other) {
            (Value::Number(a), Value::Number(b)) => operation(a, b).into(),
            _ => Value::Null,
        }
    }

    // One text behind the other, written into `out`; null where one is no text or more than 4,000 bytes would come out.
    #[tactic(auto, unfolding(meaning::specs::Value::joined))]
    pub fn concat<'o>(self, other: Value, out: &'o mut [u8; 4000]) -> Value<'o>
        ensures { meaning_of result ≡ joined (meaning_of self.entry) (meaning_of other.entry) }
    {
        let (Value::Text(a), Value::Text(b)) = (self, other) else {
            return Value::Null;
        };
        if a.len() > LONGEST || b.len() > LONGEST - a.len() {
            return Value::Null;
        }
        let middle = a.len();
        let end = middle + b.len();
        out[0..middle].copy_from_slice(a);
        out[middle..end].copy_from_slice(b);
        Value::Text(&out[0..end])
    }

    pub fn equal(self, other: Value) -> Value<'static>
        ensures { meaning_of result ≡ compared same (meaning_of self.entry) (meaning_of other.entry) }
    {
        self.compared(other, self.same(other))
    }

    pub fn below(self, other: Value) -> Value<'static>
        ensures { meaning_of result ≡ compared less (meaning_of self.entry) (meaning_of other.entry) }
    {
        self.compared(other, self.less(other))
    }

    pub fn at_most(self, other: Value) -> Value<'static>
        ensures { meaning_of result ≡ compared (λ x y. not (less y x)) (meaning_of self.entry) (meaning_of other.entry) }
    {
        self.compared(other, !other.less(self))
    }

    // A comparison with null is null.
    fn compared(self, other: Value, outcome: bool) -> Value<'static>
        ensures { meaning_of result ≡ compared (λ _ _. outcome) (meaning_of self.entry) (meaning_of other.entry) }
    {
        if self.is_null() || other.is_null() {
            return Value::Null;
        }
        outcome.into()
    }

    // A number but 0 holds, 0 and texts fail, null is neither.
    #[tactic(auto, unfolding(meaning::specs::Value::truth))]
    pub fn truth(self) -> Truth
        ensures { truth_of result ≡ truth (meaning_of self.entry) }
    {
        match self {
            Value::Null => Truth::Unknown,
            Value::Number(0) => Truth::Fails,
            Value::Number(_) => Truth::Holds,
            Value::Text(_) => Truth::Fails,
        }
    }
}

// 1 or 0.
impl From<bool> for Value<'static> {
    ghost from_gives = { λ yes v. meaning_of v ≡ from_bool yes };

    fn from(yes: bool) -> Value<'static> {
        Value::Number(yes.into())
    }
}

// A result that was tested before it was made; null where there is none.
impl From<Option<i64>> for Value<'static> {
    ghost from_gives = { λ outcome v. meaning_of v ≡ number_or outcome };

    fn from(outcome: Option<i64>) -> Value<'static> {
        match outcome {
            Some(n) => Value::Number(n),
            None => Value::Null,
        }
    }
}

// 1, 0 or null.
impl From<Truth> for Value<'static> {
    ghost from_gives = { λ truth v. meaning_of v ≡ from_truth (truth_of truth) };

    #[tactic(auto, unfolding(meaning::specs::Value::from_truth))]
    fn from(truth: Truth) -> Value<'static> {
        match truth {
            Truth::Holds => Value::Number(1),
            Truth::Fails => Value::Number(0),
            Truth::Unknown => Value::Null,
        }
    }
}

impl Truth {
    // The lesser of the two: a test that fails is below one that says nothing, and that below one that holds.
    pub fn and(self, other: Truth) -> Truth
        ensures { truth_of result ≡ and3 (truth_of self) (truth_of other) }
    {
        self.min(other)
    }

    // Neither fails unless both do.
    pub fn or(self, other: Truth) -> Truth
        ensures { truth_of result ≡ not3 (and3 (not3 (truth_of self)) (not3 (truth_of other))) }
    {
        self.max(other)
    }

    #[tactic(auto, unfolding(meaning::specs::Value::not3))]
    pub fn not(self) -> Truth
        ensures { truth_of result ≡ not3 (truth_of self) }
    {
        match self {
            Truth::Holds => Truth::Fails,
            Truth::Fails => Truth::Holds,
            Truth::Unknown => Truth::Unknown,
        }
    }

    // Whether a row passes: only where the test holds.
    #[tactic(auto, unfolding(meaning::specs::Value::holds))]
    pub fn holds(self) -> bool
        ensures { result ≡ holds (truth_of self) }
    {
        matches!(self, Truth::Holds)
    }
}
