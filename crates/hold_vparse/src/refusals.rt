ghost use Rattle.std.specs.Prelude.{◌≡◌, [], false, IfOk, OnOk};
ghost use Rattle.std.specs.List.{list_any};
ghost use Rattle.std.specs.Option.{option_map};
ghost use Rattle.hold_base.specs.Answers.{IfFault};
ghost use Rattle.hold_vsyntax.specs.declared.tree.Ident.{Ident as Named};
ghost use Rattle.hold_vparse.specs.BitFaults.{misfit};
ghost use Rattle.hold_vparse.specs.inner.Clear.{IsClear};
ghost use Rattle.hold_vparse.specs.inner.DeclaredNetlist.{IsFirstNameFault};
ghost use Rattle.hold_vparse.specs.DoubleNames.{doubled as doubled_in};
ghost use Rattle.hold_vparse.specs.inner.Found.{found_ident};
ghost use Rattle.hold_vparse.specs.NameFaults.{has_large_bound};
ghost use Rattle.hold_vparse.specs.Nets.{nets as nets_of};
ghost use Rattle.hold_vparse.specs.PortFaults.{misdeclared};

use crate::double_names::doubled;
use crate::fault::VerilogFault;
use crate::name_faults::{has_passed_bound, misdeclared_ident, misfit_ident};
use crate::parts::Parts;
use hold_base::{Memory, Name, Stop, What};
use hold_vsyntax::tree::Ident;
use std::alloc::Global;

/// A copy of the identifier's name, where there is one.
fn name_of(alloc: Global, ident: Option<&Ident>) -> Result<Option<Name>, Memory>
    ensures { IfOk result (λ name. name ≡ option_map (λ (i : Named). i.name) (found_ident ident.entry)) }
{
    match ident {
        Some(ident) => Ok(Some(Name::from_bytes(alloc, ident.name.bytes())?)),
        None => Ok(None),
    }
}

/// Refuses a name that is declared twice.
#[tactic(auto, using(crate::proofs::SoonestLemmas::unnamed))]
fn refuse_double(alloc: Global, parts: &Parts<'_>) -> Result<(), Stop<VerilogFault>>
    ensures clear { OnOk result (doubled_in parts.now.tree.now ≡ []) }
    ensures refused { IfFault result (IsFirstNameFault parts.now.tree.now) }
{
    let ident = doubled(alloc, parts)?;
    match name_of(alloc, ident)? {
        Some(name) => Err(Stop::Fault(VerilogFault::DoubleName(name))),
        None => Ok(()),
    }
}

/// Refuses a port that is declared otherwise than it may be.
#[tactic(auto, using(crate::proofs::SoonestLemmas::unnamed))]
fn refuse_port(alloc: Global, parts: &Parts<'_>) -> Result<(), Stop<VerilogFault>>
    requires names { doubled_in parts.now.tree.now ≡ [] }
    ensures clear { OnOk result (misdeclared parts.now.tree.now ≡ []) }
    ensures refused { IfFault result (IsFirstNameFault parts.now.tree.now) }
{
    match name_of(alloc, misdeclared_ident(parts))? {
        Some(name) => Err(Stop::Fault(VerilogFault::BadPort(name))),
        None => Ok(()),
    }
}

/// Refuses a bit that isn't there, or doesn't fit.
#[tactic(auto, using(crate::proofs::SoonestLemmas::unnamed))]
fn refuse_bit(alloc: Global, parts: &Parts<'_>) -> Result<(), Stop<VerilogFault>>
    requires names { doubled_in parts.now.tree.now ≡ [] }
    requires ports { misdeclared parts.now.tree.now ≡ [] }
    ensures clear { OnOk result (misfit parts.now.tree.now ≡ []) }
    ensures refused { IfFault result (IsFirstNameFault parts.now.tree.now) }
{
    match name_of(alloc, misfit_ident(parts))? {
        Some(name) => Err(Stop::Fault(VerilogFault::BadBit(name))),
        None => Ok(()),
    }
}

/// Refuses a bound that is too large.
fn refuse_bound(parts: &Parts<'_>) -> Result<(), Stop<VerilogFault>>
    requires names { doubled_in parts.now.tree.now ≡ [] }
    requires ports { misdeclared parts.now.tree.now ≡ [] }
    requires bits { misfit parts.now.tree.now ≡ [] }
    ensures clear { OnOk result (list_any has_large_bound (nets_of parts.now.tree.now) ≡ false) }
    ensures refused { IfFault result (IsFirstNameFault parts.now.tree.now) }
{
    if has_passed_bound(parts) {
        Err(Stop::Fault(VerilogFault::Limit(What::Bound)))
    } else {
        Ok(())
    }
}

/// Refuses what is wrong in a module's names, and a bound that is too large.
pub(crate) fn refuse_names(alloc: Global, parts: &Parts<'_>) -> Result<(), Stop<VerilogFault>>
    ensures clear { OnOk result (IsClear parts.now.tree.now) }
    ensures refused { IfFault result (IsFirstNameFault parts.now.tree.now) }
{
    refuse_double(alloc, parts)?;
    refuse_port(alloc, parts)?;
    refuse_bit(alloc, parts)?;
    refuse_bound(parts)
}
