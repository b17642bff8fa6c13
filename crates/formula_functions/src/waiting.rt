//! What waits while a formula is made a function.
ghost use Rattle.std.specs.Prelude.{◌≡◌, ◌≢◌, ◌∷◌, [], IfErr, OnOk};
ghost use Rattle.decision_graph.specs.declared.graph.GraphFault.TheVariants as fault;
ghost use Rattle.formula_functions.specs.Waiting as spec;

use decision_graph::{Function, GraphFault};
use std::alloc::Global;
use std::marker::Model;

/// The functions that wait to be operands, the last that came first.
#[derive(Drop)]
pub(crate) struct Operands {
    items: Vec<Function>,
}

impl Model for Operands {
    ghost use Rattle.std.specs.Prelude.{List, reverse};
    ghost use Rattle.decision_graph.specs.declared.vertex.Function.{Function};

    ghost Value = { List Function };

    ghost view = { λ operands. reverse operands.items.items };
}

impl Operands {
    /// Nothing waits.
    pub(crate) fn new(alloc: Global) -> Operands
        ensures { result ≡ [] }
    {
        Operands {
            items: Vec::new(alloc),
        }
    }

    /// This function waits too.
    pub(crate) fn push(&mut self, function: Function) -> Result<(), GraphFault>
        ensures ok { OnOk result (self.new ≡ function ∷ self.old) }
        ensures room { IfErr result (λ why. why ≢ fault.Full) }
    {
        match self.items.push(function) {
            Ok(()) => Ok(()),
            Err(_) => Err(GraphFault::NoMemory),
        }
    }

    /// Takes what came last, or gives this function if nothing waits.
    pub(crate) fn pop(&mut self, never: Function) -> Function
        ensures first { result ≡ spec.first_or never self.old }
        ensures others { self.new ≡ spec.but_first self.old }
    {
        match self.items.pop() {
            Some(function) => function,
            None => never,
        }
    }
}
