ghost use Rattle.std.specs.Prelude.{◌≡◌, ◌&&◌, option_map, IfOk};
ghost use Rattle.std.specs.List.{list_all};
ghost use Rattle.hold_base.specs.NameBytes;
ghost use Rattle.hold_certtext.specs.inner.Parsing.{is_name, name_in, pad_in};
ghost use Rattle.hold_certtext.specs.inner.Words.{left};

use crate::words::Words;
use hold_base::{Memory, Name, PlanLine, is_printed};
use std::alloc::Global;

/// Whether each byte prints.
fn prints(text: &[u8]) -> bool
    ensures { result ≡ list_all NameBytes.is_printed text.now }
{
    for byte in text {
        if !is_printed(*byte) {
            return false;
        }
    }
    true
}

/// The next word as a name.
fn name<'a>(words: &mut Words<'a>) -> Option<&'a [u8]>
    ensures { name_in (left words.old) ≡ option_map (λ name. (name.now, left words.new)) result }
{
    let Some(word) = words.next() else {
        return None;
    };
    if !word.is_empty() && prints(word) {
        Some(word)
    } else {
        None
    }
}

/// A line of a plan that has this number.
pub(crate) fn pad(
    alloc: Global,
    mut words: Words<'_>,
    line: u32,
) -> Result<Option<PlanLine>, Memory>
    ensures { IfOk result (λ pad. pad ≡ pad_in line (left words.entry)) }
{
    let Some(inst) = name(&mut words) else {
        return Ok(None);
    };
    let Some(pin) = name(&mut words) else {
        return Ok(None);
    };
    let Some(kind) = name(&mut words) else {
        return Ok(None);
    };
    let Some(count) = words.number(255) else {
        return Ok(None);
    };
    if count == 0 || !words.is_done() {
        return Ok(None);
    }
    Ok(Some(PlanLine {
        line,
        inst: Name::from_bytes(alloc, inst)?,
        pin: Name::from_bytes(alloc, pin)?,
        kind: Name::from_bytes(alloc, kind)?,
        count: count as u8,
    }))
}
