//! What a group's keyword makes it, in the place where it stands. Keywords are taken in either case.

ghost use Rattle.std.specs.Prelude.{◌≡◌};
ghost use Rattle.hold_sdf.specs.Keywords.{
  is_word,
  header_kind,
  timing_kind,
  delay_kind,
  path_kind,
  check_kind,
  file_words,
  cell_words,
  type_words,
  instance_words,
  path_words,
  cond_words,
  retain_words,
  edge_words,
  condition_words,
};

use hold_words::WordTable;

/// A group in the file, before its cells.
#[derive(Clone, Copy)]
pub enum HeaderKind {
    Divider,
    TimeScale,
    ReadPast,
    /// No header.
    Other,
}

const HEADER_WORDS: WordTable<11> = WordTable {
    rows: &[
        b"DIVIDER",
        b"TIMESCALE",
        b"SDFVERSION",
        b"DESIGN",
        b"DATE",
        b"VENDOR",
        b"PROGRAM",
        b"VERSION",
        b"VOLTAGE",
        b"PROCESS",
        b"TEMPERATURE",
    ],
};

// What stands for each row of the words.
const HEADER_KINDS: [HeaderKind; 11] = [
    HeaderKind::Divider,
    HeaderKind::TimeScale,
    HeaderKind::ReadPast,
    HeaderKind::ReadPast,
    HeaderKind::ReadPast,
    HeaderKind::ReadPast,
    HeaderKind::ReadPast,
    HeaderKind::ReadPast,
    HeaderKind::ReadPast,
    HeaderKind::ReadPast,
    HeaderKind::ReadPast,
];

impl HeaderKind {
    #[tactic(auto, unfolding(crate::specs::Keywords::header_words, crate::specs::Keywords::header_kind), using(crate::proofs::KindLemmas::kind_rows))]
    pub(crate) fn of(word: &[u8]) -> HeaderKind
        ensures { result ≡ header_kind word.now }
    {
        match HEADER_WORDS.find_any_case(word) {
            Some(row) => HEADER_KINDS[row],
            None => HeaderKind::Other,
        }
    }
}

/// A group in a cell, behind its type and its instance.
#[derive(Clone, Copy)]
pub enum TimingKind {
    Delay,
    TimingCheck,
    ReadPast,
    /// It can't stand there.
    Other,
}

const TIMING_WORDS: WordTable<4> = WordTable {
    rows: &[b"DELAY", b"TIMINGCHECK", b"TIMINGENV", b"LABEL"],
};

// What stands for each row of the words.
const TIMING_KINDS: [TimingKind; 4] = [
    TimingKind::Delay,
    TimingKind::TimingCheck,
    TimingKind::ReadPast,
    TimingKind::ReadPast,
];

impl TimingKind {
    #[tactic(auto, unfolding(crate::specs::Keywords::timing_words, crate::specs::Keywords::timing_kind), using(crate::proofs::KindLemmas::kind_rows))]
    pub(crate) fn of(word: &[u8]) -> TimingKind
        ensures { result ≡ timing_kind word.now }
    {
        match TIMING_WORDS.find_any_case(word) {
            Some(row) => TIMING_KINDS[row],
            None => TimingKind::Other,
        }
    }
}

/// A group in DELAY.
#[derive(Clone, Copy)]
pub enum DelayKind {
    Absolute,
    ReadPast,
    /// The profile leaves it out.
    LeftOut,
    /// It can't stand there.
    Other,
}

const DELAY_WORDS: WordTable<4> = WordTable {
    rows: &[b"ABSOLUTE", b"INCREMENT", b"PATHPULSE", b"PATHPULSEPERCENT"],
};

// What stands for each row of the words.
const DELAY_KINDS: [DelayKind; 4] = [
    DelayKind::Absolute,
    DelayKind::LeftOut,
    DelayKind::ReadPast,
    DelayKind::ReadPast,
];

impl DelayKind {
    #[tactic(auto, unfolding(crate::specs::Keywords::delay_words, crate::specs::Keywords::delay_kind), using(crate::proofs::KindLemmas::kind_rows))]
    pub(crate) fn of(word: &[u8]) -> DelayKind
        ensures { result ≡ delay_kind word.now }
    {
        match DELAY_WORDS.find_any_case(word) {
            Some(row) => DELAY_KINDS[row],
            None => DelayKind::Other,
        }
    }
}

/// A group in ABSOLUTE.
#[derive(Clone, Copy)]
pub enum PathKind {
    IoPath,
    Cond,
    CondElse,
    Interconnect,
    /// The profile leaves it out.
    LeftOut,
    /// It can't stand there.
    Other,
}

const PATH_WORDS: WordTable<7> = WordTable {
    rows: &[
        b"IOPATH",
        b"COND",
        b"CONDELSE",
        b"INTERCONNECT",
        b"PORT",
        b"NETDELAY",
        b"DEVICE",
    ],
};

// What stands for each row of the words.
const PATH_KINDS: [PathKind; 7] = [
    PathKind::IoPath,
    PathKind::Cond,
    PathKind::CondElse,
    PathKind::Interconnect,
    PathKind::LeftOut,
    PathKind::LeftOut,
    PathKind::LeftOut,
];

impl PathKind {
    #[tactic(auto, unfolding(crate::specs::Keywords::path_kinds, crate::specs::Keywords::path_kind), using(crate::proofs::KindLemmas::kind_rows))]
    pub(crate) fn of(word: &[u8]) -> PathKind
        ensures { result ≡ path_kind word.now }
    {
        match PATH_WORDS.find_any_case(word) {
            Some(row) => PATH_KINDS[row],
            None => PathKind::Other,
        }
    }
}

/// A group in TIMINGCHECK.
#[derive(Clone, Copy)]
pub enum CheckKind {
    Setup,
    Hold,
    SetupHold,
    ReadPast,
    /// It can't stand there.
    Other,
}

const CHECK_WORDS: WordTable<11> = WordTable {
    rows: &[
        b"SETUP",
        b"HOLD",
        b"SETUPHOLD",
        b"RECOVERY",
        b"REMOVAL",
        b"RECREM",
        b"WIDTH",
        b"PERIOD",
        b"SKEW",
        b"BIDIRECTSKEW",
        b"NOCHANGE",
    ],
};

// What stands for each row of the words.
const CHECK_KINDS: [CheckKind; 11] = [
    CheckKind::Setup,
    CheckKind::Hold,
    CheckKind::SetupHold,
    CheckKind::ReadPast,
    CheckKind::ReadPast,
    CheckKind::ReadPast,
    CheckKind::ReadPast,
    CheckKind::ReadPast,
    CheckKind::ReadPast,
    CheckKind::ReadPast,
    CheckKind::ReadPast,
];

impl CheckKind {
    #[tactic(auto, unfolding(crate::specs::Keywords::check_words, crate::specs::Keywords::check_kind), using(crate::proofs::KindLemmas::kind_rows))]
    pub(crate) fn of(word: &[u8]) -> CheckKind
        ensures { result ≡ check_kind word.now }
    {
        match CHECK_WORDS.find_any_case(word) {
            Some(row) => CHECK_KINDS[row],
            None => CheckKind::Other,
        }
    }
}

const FILE: WordTable<1> = WordTable {
    rows: &[b"DELAYFILE"],
};

#[tactic(auto, unfolding(crate::specs::Keywords::file_words))]
pub(crate) fn is_file(word: &[u8]) -> bool
    ensures { result ≡ is_word file_words word.now }
{
    FILE.find_any_case(word).is_some()
}

const CELL: WordTable<1> = WordTable { rows: &[b"CELL"] };

#[tactic(auto, unfolding(crate::specs::Keywords::cell_words))]
pub(crate) fn is_cell(word: &[u8]) -> bool
    ensures { result ≡ is_word cell_words word.now }
{
    CELL.find_any_case(word).is_some()
}

const TYPE: WordTable<1> = WordTable {
    rows: &[b"CELLTYPE"],
};

#[tactic(auto, unfolding(crate::specs::Keywords::type_words))]
pub(crate) fn is_cell_type_word(word: &[u8]) -> bool
    ensures { result ≡ is_word type_words word.now }
{
    TYPE.find_any_case(word).is_some()
}

const INSTANCE: WordTable<1> = WordTable {
    rows: &[b"INSTANCE"],
};

#[tactic(auto, unfolding(crate::specs::Keywords::instance_words))]
pub(crate) fn is_instance(word: &[u8]) -> bool
    ensures { result ≡ is_word instance_words word.now }
{
    INSTANCE.find_any_case(word).is_some()
}

const PATH: WordTable<1> = WordTable { rows: &[b"IOPATH"] };

#[tactic(auto, unfolding(crate::specs::Keywords::path_words))]
pub(crate) fn is_iopath(word: &[u8]) -> bool
    ensures { result ≡ is_word path_words word.now }
{
    PATH.find_any_case(word).is_some()
}

const COND: WordTable<1> = WordTable { rows: &[b"COND"] };

#[tactic(auto, unfolding(crate::specs::Keywords::cond_words))]
pub(crate) fn is_cond(word: &[u8]) -> bool
    ensures { result ≡ is_word cond_words word.now }
{
    COND.find_any_case(word).is_some()
}

const RETAIN: WordTable<1> = WordTable { rows: &[b"RETAIN"] };

#[tactic(auto, unfolding(crate::specs::Keywords::retain_words))]
pub(crate) fn is_retain(word: &[u8]) -> bool
    ensures { result ≡ is_word retain_words word.now }
{
    RETAIN.find_any_case(word).is_some()
}

const EDGE: WordTable<2> = WordTable {
    rows: &[b"POSEDGE", b"NEGEDGE"],
};

#[tactic(auto, unfolding(crate::specs::Keywords::edge_words))]
pub(crate) fn is_edge(word: &[u8]) -> bool
    ensures { result ≡ is_word edge_words word.now }
{
    EDGE.find_any_case(word).is_some()
}

const CONDITION: WordTable<2> = WordTable {
    rows: &[b"SCOND", b"CCOND"],
};

#[tactic(auto, unfolding(crate::specs::Keywords::condition_words))]
pub(crate) fn is_condition(word: &[u8]) -> bool
    ensures { result ≡ is_word condition_words word.now }
{
    CONDITION.find_any_case(word).is_some()
}
