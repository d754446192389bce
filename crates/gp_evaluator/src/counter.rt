//! How a `for` counts.

ghost use Rattle.std.specs.Prelude.{◌≡◌, ◌+ℤ◌, int_lt, pos, true, IfOk};
ghost use Rattle.gp_meaning.specs.Value.{number, number_of};
ghost use Rattle.gp_evaluator.specs.View.{value_view, Found};

use crate::halt::Halt;
use crate::operators;
use crate::value::Value;

/// How often the body of a `for` ran, and how often it is to run.
#[derive(Drop)]
pub struct Counter {
    /// The count.
    pub count: i64,
    /// The limit, at which the count ends.
    pub limit: i64,
}

impl Counter {
    /// From 0 to this value; one of another kind is stuck.
    pub fn up_to(limit: &Value) -> Result<Counter, Halt>
        ensures limit { Found (λ counter. counter.limit) result (number_of (value_view limit.now)) }
        ensures count { IfOk result (λ counter. counter.count ≡ pos 0) }
    {
        let limit = operators::number_of(limit)?;
        Ok(Counter { count: 0, limit })
    }

    /// Whether the count is below the limit.
    pub fn is_below(&self) -> bool
        ensures { result ≡ int_lt self.now.count self.now.limit }
    {
        self.count < self.limit
    }

    /// The count as a value.
    pub fn value(&self) -> Value
        ensures { value_view result ≡ number self.now.count }
    {
        Value::Int(self.count)
    }

    /// Counts one more.
    pub fn advance(&mut self)
        requires { int_lt self.now.count self.now.limit ≡ true }
        ensures count { self.new.count ≡ self.old.count +ℤ pos 1 }
        ensures limit { self.new.limit ≡ self.old.limit }
    {
        if self.count < self.limit {
            self.count += 1;
        }
    }
}
