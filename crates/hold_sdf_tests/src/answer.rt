ghost use Rattle.std.specs.Prelude.{◌^◌, ◌<◌, length, IsTrue};

use hold_base::{Interval, Memory, Name, Stop, put_number};
use hold_sdf::{Entry, PinPath, SdfFault, read};
use std::alloc::Global;

/// What a text is answered.
#[derive(Clone, Copy)]
pub(crate) enum Answer {
    /// These entries, each of them a line: `cell`, `wire` or `check`, its place, its instance, its pins, its values. What isn't
    /// there is written `-`, and a pin path as its instance, `|` and its pin.
    Entries(&'static [u8]),
    Syntax(u64),
    LeftOut(&'static [u8], u64),
    Number(u64),
}

/// Whether the text is answered so.
pub(crate) fn is_answered(alloc: Global, text: &[u8], answer: Answer) -> bool {
    if !is_short(text) {
        return false;
    }
    match (read(alloc, text), answer) {
        (Ok(entries), Answer::Entries(lines)) => match lines_of(alloc, &entries) {
            Ok(said) => said.as_slice() == lines,
            Err(Memory) => false,
        },
        (Err(Stop::Fault(fault)), answer) => is_fault(&fault, answer),
        _ => false,
    }
}

fn is_short(text: &[u8]) -> bool
    ensures { IsTrue result → length text.now < 2 ^ 32 }
{
    text.len() < 1_000_000
}

fn is_fault(fault: &SdfFault, answer: Answer) -> bool {
    match (fault, answer) {
        (SdfFault::Syntax(found), Answer::Syntax(at)) => *found == at,
        (SdfFault::LeftOut(word, found), Answer::LeftOut(text, at)) => {
            word.bytes() == text && *found == at
        }
        (SdfFault::Number(found), Answer::Number(at)) => *found == at,
        _ => false,
    }
}

fn lines_of(alloc: Global, entries: &[Entry]) -> Result<Vec<u8>, Memory> {
    let mut out = Vec::new(alloc);
    for entry in entries {
        put_entry(&mut out, entry)?;
        out.push(b'\n')?;
    }
    Ok(out)
}

fn put_entry(out: &mut Vec<u8>, entry: &Entry) -> Result<(), Memory> {
    match entry {
        Entry::Cell {
            at,
            inst,
            from,
            to,
            span,
        } => {
            put_front(out, b"cell ", *at, inst)?;
            put_word(out, from.bytes())?;
            put_word(out, to.bytes())?;
            put_span(out, *span)
        }
        Entry::Wire {
            at,
            inst,
            from,
            to,
            span,
        } => {
            put_front(out, b"wire ", *at, inst)?;
            put_path(out, from)?;
            put_path(out, to)?;
            put_span(out, *span)
        }
        Entry::Check {
            at,
            inst,
            pin,
            clock,
            setup,
            hold,
        } => {
            put_front(out, b"check ", *at, inst)?;
            put_word(out, pin.bytes())?;
            put_word(out, clock.bytes())?;
            put_value(out, *setup)?;
            put_value(out, *hold)
        }
    }
}

fn put_front(out: &mut Vec<u8>, kind: &[u8], at: u64, inst: &Option<Name>) -> Result<(), Memory> {
    out.extend_from_slice(kind)?;
    put_value(out, i64::try_from(at).ok())?;
    match inst {
        Some(name) => put_word(out, name.bytes()),
        None => put_word(out, b"-"),
    }
}

fn put_word(out: &mut Vec<u8>, word: &[u8]) -> Result<(), Memory> {
    out.extend_from_slice(word)?;
    out.push(b' ')?;
    Ok(())
}

fn put_path(out: &mut Vec<u8>, path: &PinPath) -> Result<(), Memory> {
    match &path.inst {
        Some(name) => out.extend_from_slice(name.bytes())?,
        None => out.push(b'-')?,
    }
    out.push(b'|')?;
    put_word(out, path.pin.bytes())
}

fn put_value(out: &mut Vec<u8>, value: Option<i64>) -> Result<(), Memory> {
    match value {
        Some(value) => put_number(out, value)?,
        None => out.push(b'-')?,
    }
    out.push(b' ')?;
    Ok(())
}

fn put_span(out: &mut Vec<u8>, span: Option<Interval>) -> Result<(), Memory> {
    put_value(out, span.map(|span| span.least))?;
    put_value(out, span.map(|span| span.greatest))
}
