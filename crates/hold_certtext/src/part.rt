ghost use Rattle.std.specs.Prelude.{◌≡◌, option_map, IfOk};
ghost use Rattle.hold_certtext.specs.inner.Parsing.{cost_in, count_in, path_in, pins_in, side_in, split_in};
ghost use Rattle.hold_certtext.specs.inner.Words.{left};

use crate::words::Words;
use hold_base::{CornerNo, List, Memory, PinNo, Side, VarNo};
use hold_graph::Listed;
use hold_proof::Node;
use std::alloc::Global;

/// The greatest number of a variable or a pin.
const NUMBER: u64 = u32::MAX as u64;

/// The greatest place of a split.
const PLACE: u64 = 254;

/// The cost of a repair.
pub(crate) fn cost(mut words: Words<'_>) -> Option<u64>
    ensures { result ≡ cost_in (left words.entry) }
{
    let Some(cost) = words.number(u64::MAX) else {
        return None;
    };
    if words.is_done() { Some(cost) } else { None }
}

/// A counted variable and its count, which is at least 1.
pub(crate) fn count(mut words: Words<'_>) -> Option<(VarNo, u8)>
    ensures { result ≡ count_in (left words.entry) }
{
    let Some(var) = words.number(NUMBER) else {
        return None;
    };
    let Some(count) = words.number(255) else {
        return None;
    };
    if count > 0 && words.is_done() {
        Some((VarNo(var as u32), count as u8))
    } else {
        None
    }
}

/// A split of a variable, at a place that has one above it.
pub(crate) fn split(mut words: Words<'_>) -> Option<Node>
    ensures { result ≡ split_in (left words.entry) }
{
    let Some(var) = words.number(NUMBER) else {
        return None;
    };
    let Some(at) = words.number(PLACE) else {
        return None;
    };
    if words.is_done() {
        Some(Node::Split {
            var: VarNo(var as u32),
            at: at as u8,
        })
    } else {
        None
    }
}

fn side(words: &mut Words<'_>) -> Option<Side>
    ensures { side_in (left words.old) ≡ option_map (λ side. (side, left words.new)) result }
{
    if words.take(b"early") {
        Some(Side::Early)
    } else if words.take(b"late") {
        Some(Side::Late)
    } else {
        None
    }
}

/// All words as pins.
fn pins(alloc: Global, mut words: Words<'_>) -> Result<Option<Vec<PinNo>>, Memory>
    ensures { IfOk result (λ pins. option_map (λ pins. pins.items) pins ≡ pins_in (left words.entry)) }
{
    let mut pins = Vec::new(alloc);
    while !words.is_done() {
        let Some(pin) = words.number(NUMBER) else {
            return Ok(None);
        };
        pins.push(PinNo(pin as u32))?;
    }
    Ok(Some(pins))
}

/// A path with its check and corner, which has at least two pins.
pub(crate) fn path(alloc: Global, mut words: Words<'_>) -> Result<Option<Listed>, Memory>
    ensures { IfOk result (λ path. path ≡ path_in (left words.entry)) }
{
    let Some(side) = side(&mut words) else {
        return Ok(None);
    };
    let Some(corner) = words.number(255) else {
        return Ok(None);
    };
    let Some(pins) = pins(alloc, words)? else {
        return Ok(None);
    };
    if pins.len() < 2 {
        return Ok(None);
    }
    Ok(Some(Listed {
        side,
        corner: CornerNo(corner as u8),
        pins: List::from_vec(pins),
    }))
}
