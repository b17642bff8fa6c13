//! What `set`, `charge` and `expect` give to the nodes of a name.
ghost use Rattle.std.specs.Prelude.{◌≡◌, IfOk};
ghost use Rattle.script_lang.specs.Parts.{value_by, value_read};

use std::alloc::Global;
use ternary::{NoMemory, Tern};
use vector_values::{VectorValue, read_value};

/// What an assignment gives.
#[derive(Drop)]
pub enum Value {
    /// This state: to the node of the name, or to each node of its vector.
    Letter(Tern),
    /// Letters or a number: to the nodes of the name's vector, and to no other name.
    Wide(VectorValue),
    /// This state: to the node of the name, and to no vector. Columns give such values; no line of a plain
    /// script reads as one.
    Alone(Tern),
}

impl Value {
    /// The same value once more.
    pub fn copied(&self, alloc: Global) -> Result<Value, NoMemory>
        ensures { IfOk result (λ value. value ≡ self.now) }
    {
        match self {
            Value::Letter(state) => Ok(Value::Letter(*state)),
            Value::Wide(value) => Ok(Value::Wide(value.copied(alloc)?)),
            Value::Alone(state) => Ok(Value::Alone(*state)),
        }
    }
}

/// The value that a text writes, with `-` if it may stand, or None if it writes none.
pub(crate) fn read(alloc: Global, text: &[u8], dashes: bool) -> Result<Option<Value>, NoMemory>
    ensures { IfOk result (λ found. found ≡ value_read dashes text.now) }
{
    Ok(read_value(alloc, text, dashes)?.map(narrowed))
}

// The one state that a value gives, or all of it.
fn narrowed(value: VectorValue) -> Value
    ensures { result ≡ value_by value }
{
    match value.state() {
        Some(state) => Value::Letter(state),
        None => Value::Wide(value),
    }
}
