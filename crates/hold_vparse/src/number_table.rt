ghost use Rattle.std.specs.Prelude.{◌≡◌, [], Some, slice_get, IfOk, OnErr};
ghost use Rattle.hold_base.specs.inner.Lists.{OneEach};
ghost use Rattle.hold_base.specs.Digits.{number_of};
ghost use Rattle.hold_vsyntax.specs.Number.{IsPlain};
ghost use Rattle.hold_vparse.specs.inner.NumberTable.{MayAdd};

use hold_base::Memory;
use hold_netlist::{NameTable, Seed};
use hold_vsyntax::number::Number;
use itoa::Buffer;
use std::alloc::Global;
use std::marker::Model;

/// Gives each different number a class of its own, so that numbers of any length are compared by their classes. A
/// number is known by its digits without leading zeros, of which zero has none.
#[derive(Drop)]
pub(crate) struct NumberTable {
    classes: NameTable,
    count: u32,
}

impl Model for NumberTable {
    ghost use Rattle.std.specs.Prelude.{List, ℕ};
    ghost use Rattle.hold_vparse.specs.inner.NumberTable.{numbers_of, IsClassed};

    ghost Value = { List ℕ };

    ghost view = { λ t. numbers_of t.classes };

    ghost invariant = { λ t. IsClassed t.classes t.count };
}

impl NumberTable {
    /// A table without numbers. Takes no memory.
    pub(crate) fn new(alloc: Global, seed: Seed) -> NumberTable
        ensures { result ≡ [] }
    {
        NumberTable {
            classes: NameTable::new(alloc, seed),
            count: 0,
        }
    }

    /// The class of a number, which is added where it isn't known yet. More of them than can be told apart are want
    /// of memory.
    pub(crate) fn class(&mut self, alloc: Global, number: &Number) -> Result<u32, Memory>
        ensures class { IfOk result (λ class. slice_get self.new class ≡ Some number.now) }
        ensures grown { MayAdd self.old number.now self.new }
        ensures refused { OnErr result (self.new ≡ self.old) }
        ensures one_each { OneEach self.new }
    {
        let mut room = Buffer::new();
        self.class_of(alloc, number.plain_digits(&mut room))
    }

    /// The same of the digits that write a number.
    fn class_of(&mut self, alloc: Global, digits: &[u8]) -> Result<u32, Memory>
        requires { IsPlain digits.now }
        ensures class { IfOk result (λ class. slice_get self.new class ≡ Some (number_of digits.now)) }
        ensures grown { MayAdd self.old (number_of digits.now) self.new }
        ensures refused { OnErr result (self.new ≡ self.old) }
        ensures one_each { OneEach self.new }
    {
        if let Some(class) = self.classes.find(digits) {
            return Ok(class);
        }
        let class = self.count;
        let Some(count) = class.checked_add(1) else {
            return Err(Memory);
        };
        self.classes.add(alloc, digits, class)?;
        self.count = count;
        Ok(class)
    }

    /// Does nothing. A proof learns from the call that no number has two classes.
    pub(crate) fn know_one_each(&self)
        ensures { OneEach self.now }
    {
        let _count = self.count;
    }
}
