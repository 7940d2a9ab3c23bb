ghost use Rattle.std.specs.Prelude.{◌≡◌, IfOk};

use crate::inst::{Assign, Inst};
use crate::wire::{Port, Wire};
use hold_base::Name;
use std::alloc::AllocError;

pub(crate) fn copy_ports(ports: &Vec<Port>) -> Result<Vec<Port>, AllocError>
    ensures { IfOk result (λ copy. copy.items ≡ ports.now.items) }
{
    ports.clone()
}

pub(crate) fn copy_wires(wires: &Vec<Wire>) -> Result<Vec<Wire>, AllocError>
    ensures { IfOk result (λ copy. copy.items ≡ wires.now.items) }
{
    wires.clone()
}

pub(crate) fn copy_insts(insts: &Vec<Inst>) -> Result<Vec<Inst>, AllocError>
    ensures { IfOk result (λ copy. copy.items ≡ insts.now.items) }
{
    insts.clone()
}

pub(crate) fn copy_assigns(assigns: &Vec<Assign>) -> Result<Vec<Assign>, AllocError>
    ensures { IfOk result (λ copy. copy.items ≡ assigns.now.items) }
{
    assigns.clone()
}

pub(crate) fn copy_numbers(numbers: &Vec<u32>) -> Result<Vec<u32>, AllocError>
    ensures { IfOk result (λ copy. copy.items ≡ numbers.now.items) }
{
    numbers.clone()
}

pub(crate) fn copy_name(name: &Name) -> Result<Name, AllocError>
    ensures { IfOk result (λ copy. copy ≡ name.now) }
{
    name.clone()
}
