ghost use Rattle.std.specs.Prelude.{◌≡◌, ◌<◌, ◌≤◌, length, option_map, is_some, IsSome, IfSome, if◌then◌else◌};
ghost use Rattle.hold_sdflex.specs.Items.{items_in, first_group, behind};
ghost use Rattle.hold_sdflex.specs.ItemsRead.{word_read, group_read};
ghost use Rattle.hold_sdf.specs.Settings.{
  number_words,
  unit_words,
  power_in,
  number_length,
  scale_of,
  scale_by,
  scale_in,
  divider_byte,
  divider_in,
  with_header_kind,
  with_header,
  is_header_kind,
  header_in,
  settings_of,
  nothing_set,
  divider_of,
  unit_of,
};
ghost use Rattle.hold_sdf.specs.inner.Adds.{AnswersAs, AnswersSettings};
ghost use Rattle.hold_sdf.specs.inner.Shown.{shown_power, shown_settings};

use crate::fault::SdfFault;
use crate::items::{behind_keyword, is_empty, keyword};
use crate::keyword::HeaderKind;
use hold_base::Stop;
use hold_decimal::Scale;
use hold_sdflex::{Atom, Group, Items};
use hold_words::WordTable;

/// What a file's headers set for all of it, each where it is set.
#[derive(Clone, Copy)]
pub(crate) struct Settings {
    divider: Option<u8>,
    scale: Option<Scale>,
}

const NUMBERS: WordTable<6> = WordTable {
    rows: &[b"1", b"10", b"100", b"1.0", b"10.0", b"100.0"],
};

// The powers of ten of the numbers.
const NUMBER_POWERS: [u8; 6] = [0, 1, 2, 0, 1, 2];

const UNITS: WordTable<6> = WordTable {
    rows: &[b"s", b"ms", b"us", b"ns", b"ps", b"fs"],
};

// The powers of ten of the units, in fs.
const UNIT_POWERS: [u8; 6] = [15, 12, 9, 6, 3, 0];

impl Settings {
    /// The settings after the headers that the items begin with, which are then read; the first fault among these
    /// headers.
    pub(crate) fn read(rest: &mut Items<'_>) -> Result<Settings, Stop<SdfFault>>
        ensures { AnswersSettings result (items_in rest.new) (settings_of nothing_set (items_in rest.old)) }
    {
        let mut settings = Settings {
            divider: None,
            scale: None,
        };
        while let Some(header) = next_header(rest) {
            settings = settings.with_header(&header)?;
        }
        Ok(settings)
    }

    /// The divider of paths: a point where none is set.
    pub(crate) fn divider(&self) -> u8
        ensures { result ≡ divider_of (shown_settings self.now) }
    {
        self.divider.unwrap_or(b'.')
    }

    /// The scale of numbers: 1 ns where none is set.
    pub(crate) fn scale(&self) -> Scale
        ensures { result.exponent ≡ unit_of (shown_settings self.now) }
    {
        match self.scale {
            Some(scale) => scale,
            None => Scale { exponent: 6 },
        }
    }

    // The settings with a header.
    #[tactic(auto, unfolding(crate::specs::Settings::with_header))]
    fn with_header(self, header: &Group<'_>) -> Result<Settings, Stop<SdfFault>>
        ensures { AnswersAs shown_settings result (with_header (shown_settings self) (group_read header.now)) }
    {
        match HeaderKind::of(keyword(&header.inner)) {
            HeaderKind::Divider => self.with_divider(header),
            HeaderKind::TimeScale => self.with_scale(header),
            HeaderKind::ReadPast | HeaderKind::Other => Ok(self),
        }
    }

    fn with_divider(self, header: &Group<'_>) -> Result<Settings, Stop<SdfFault>>
        ensures { AnswersAs shown_settings result (with_header_kind HeaderKind.Divider (shown_settings self) (group_read header.now)) }
    {
        let divider = divider_in(behind_keyword(&header.inner));
        if divider.is_none() || self.divider.is_some() {
            return Err(Stop::Fault(SdfFault::Syntax(header.at)));
        }
        Ok(Settings {
            divider,
            scale: self.scale,
        })
    }

    fn with_scale(self, header: &Group<'_>) -> Result<Settings, Stop<SdfFault>>
        ensures { AnswersAs shown_settings result (with_header_kind HeaderKind.TimeScale (shown_settings self) (group_read header.now)) }
    {
        let scale = scale_in(behind_keyword(&header.inner));
        if scale.is_none() || self.scale.is_some() {
            return Err(Stop::Fault(SdfFault::Syntax(header.at)));
        }
        Ok(Settings {
            divider: self.divider,
            scale,
        })
    }
}

// The next item where it is a header, which is then read.
fn next_header<'a>(rest: &mut Items<'a>) -> Option<Group<'a>>
    ensures header { option_map group_read result ≡ header_in (first_group (items_in rest.old)) }
    ensures rest { items_in rest.new ≡ (if is_some result then behind (items_in rest.old) else items_in rest.old) }
    ensures less { IsSome result → length rest.new < length rest.old }
{
    let mut ahead = rest.fork();
    let Some(group) = ahead.next_group() else {
        return None;
    };
    if !is_header(HeaderKind::of(keyword(&group.inner))) {
        return None;
    }
    *rest = ahead;
    Some(group)
}

fn is_header(kind: HeaderKind) -> bool
    ensures { result ≡ is_header_kind kind }
{
    match kind {
        HeaderKind::Divider | HeaderKind::TimeScale | HeaderKind::ReadPast => true,
        HeaderKind::Other => false,
    }
}

// The divider that these items are: one atom, a point or a slash.
#[tactic(auto, unfolding(crate::specs::Settings::divider_in))]
fn divider_in(items: Items<'_>) -> Option<u8>
    ensures { result ≡ divider_in (items_in items.entry) }
{
    if is_empty(&behind_keyword(&items)) {
        divider_byte(keyword(&items))
    } else {
        None
    }
}

fn divider_byte(bytes: &[u8]) -> Option<u8>
    ensures { result ≡ divider_byte bytes.now }
{
    if bytes == b".".as_slice() {
        Some(b'.')
    } else if bytes == b"/".as_slice() {
        Some(b'/')
    } else {
        None
    }
}

// The scale that these items are: a number and a unit, which are one atom or two.
#[tactic(auto, unfolding(crate::specs::Settings::scale_in))]
fn scale_in(items: Items<'_>) -> Option<Scale>
    ensures { option_map shown_power result ≡ scale_in (items_in items.entry) }
{
    let mut rest = items;
    let first = rest.next_atom();
    if is_empty(&rest) {
        return scale_by(first, None);
    }
    let second = rest.next_atom();
    if second.is_some() && is_empty(&rest) {
        scale_by(first, second)
    } else {
        None
    }
}

fn scale_by(first: Option<Atom<'_>>, second: Option<Atom<'_>>) -> Option<Scale>
    ensures { option_map shown_power result ≡ scale_by (option_map word_read first.entry) (option_map word_read second.entry) }
{
    let Some(first) = first else {
        return None;
    };
    match second {
        Some(second) => scale_of(first.bytes, second.bytes),
        None => {
            let (number, unit) = first.bytes.split_at(number_length(first.bytes));
            scale_of(number, unit)
        }
    }
}

// How many digits and points the text begins with.
fn number_length(text: &[u8]) -> usize
    ensures value { result ≡ number_length text.now }
    ensures within { result ≤ length text.now }
{
    for (i, byte) in text.iter().enumerate() {
        if !byte.is_ascii_digit() && *byte != b'.' {
            return i;
        }
    }
    text.len()
}

// The scale of a number and a unit.
#[tactic(auto, unfolding(crate::specs::Settings::scale_of))]
fn scale_of(number: &[u8], unit: &[u8]) -> Option<Scale>
    ensures { option_map shown_power result ≡ scale_of number.now unit.now }
{
    let Some(number) = number_power(number) else {
        return None;
    };
    let Some(unit) = unit_power(unit) else {
        return None;
    };
    Some(Scale {
        exponent: number + unit,
    })
}

#[tactic(auto, unfolding(crate::specs::Settings::number_words), using(crate::proofs::PowerLemmas::power_rows))]
fn number_power(number: &[u8]) -> Option<u8>
    ensures value { result ≡ power_in number_words number.now }
    ensures small { IfSome result (λ power. power ≤ 2) }
{
    match NUMBERS.find(number) {
        Some(row) => Some(NUMBER_POWERS[row]),
        None => None,
    }
}

#[tactic(auto, unfolding(crate::specs::Settings::unit_words), using(crate::proofs::PowerLemmas::power_rows))]
fn unit_power(unit: &[u8]) -> Option<u8>
    ensures value { result ≡ power_in unit_words unit.now }
    ensures small { IfSome result (λ power. power ≤ 15) }
{
    match UNITS.find(unit) {
        Some(row) => Some(UNIT_POWERS[row]),
        None => None,
    }
}
