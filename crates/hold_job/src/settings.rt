//! The period, and what the user asks of the search.
ghost use Rattle.std.specs.Prelude.{◌≡◌, ◌≤◌, IfOk};
ghost use Rattle.toml.specs.View.{table_view};
ghost use Rattle.hold_base.specs.Answers.{Answers};
ghost use Rattle.hold_job.specs.Keys.{required, or_else};
ghost use Rattle.hold_job.specs.Numbers.{number};
ghost use Rattle.hold_job.specs.inner.Parts.{settings_in};

use crate::fault::JobFault;
use crate::form::{or_else, required};
use crate::limits;
use crate::number::Number;
use hold_base::{Stop, limits as times};
use std::alloc::Global;
use toml::Table;

/// The period, in fs, and what the user asks of the search.
#[derive(Clone, Copy)]
pub struct Settings {
    pub period: i64,
    pub max_chain: u8,
    pub nodes: u32,
    pub searchers: u8,
    pub order: u64,
}

const PERIOD: Number = Number {
    least: 1,
    most: times::TIME as u64,
};

const CHAIN: Number = Number {
    least: 0,
    most: limits::CHAIN,
};

const NODES: Number = Number {
    least: 1,
    most: limits::NODES,
};

const SEARCHERS: Number = Number {
    least: 1,
    most: limits::SEARCHERS,
};

const ORDER: Number = Number {
    least: 0,
    most: limits::ORDER,
};

/// The whole number at a key, which may not be missing.
#[tactic(auto, using(crate::proofs::NumberLemmas::required_small))]
fn number_at(alloc: Global, range: Number, table: &Table, key: &str) -> Result<u64, Stop<JobFault>>
    ensures number { Answers result (required (number range.least range.most) key.now (table_view table.now)) }
    ensures small { IfOk result (λ n. n ≤ range.most) }
{
    required(alloc, &range, table, key)
}

/// The whole number at a key, or `otherwise` where the key is missing.
#[tactic(auto, using(crate::proofs::NumberLemmas::or_else_small))]
fn number_or(
    alloc: Global,
    range: Number,
    table: &Table,
    key: &str,
    otherwise: u64,
) -> Result<u64, Stop<JobFault>>
    requires { otherwise ≤ range.most }
    ensures number { Answers result (or_else otherwise (number range.least range.most) key.now (table_view table.now)) }
    ensures small { IfOk result (λ n. n ≤ range.most) }
{
    or_else(alloc, &range, table, key, otherwise)
}

/// What a job's table says of them.
#[tactic(auto, unfolding(crate::specs::inner::Parts::settings_in))]
pub fn settings_in(alloc: Global, table: &Table) -> Result<Settings, Stop<JobFault>>
    ensures { Answers result (settings_in (table_view table.now)) }
{
    let period = number_at(alloc, PERIOD, table, "period")?;
    let max_chain = number_or(alloc, CHAIN, table, "max_chain", 4)?;
    let nodes = number_or(alloc, NODES, table, "nodes", 10_000)?;
    let searchers = number_or(alloc, SEARCHERS, table, "searchers", 1)?;
    let order = number_or(alloc, ORDER, table, "order", 0)?;
    Ok(Settings {
        period: period as i64,
        max_chain: max_chain as u8,
        nodes: nodes as u32,
        searchers: searchers as u8,
        order,
    })
}
