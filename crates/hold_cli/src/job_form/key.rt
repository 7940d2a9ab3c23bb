//! Keys of the tables that a job is made of.
ghost use Rattle.std.specs.Prelude.{◌≡◌};
ghost use Rattle.toml.specs.View.{table_view};
ghost use Rattle.hold_cli.specs.JobFormKeys.{keys_of, has_only, is_one_of};

use toml::Table;

/// The sorts of tables that a job is made of.
#[derive(Clone, Copy, Debug, PartialEq, Eq)]
pub enum JobTable {
    Job,
    Corner,
    /// A combinational cell type.
    Comb,
    /// A register's cell type.
    Register,
    Arc,
    Check,
    /// The clock arrival of an instance.
    Clock,
}

impl JobTable {
    /// Whether a table of this sort may have the key.
    fn has_key(self, key: &[u8]) -> bool
        ensures { result ≡ is_one_of (keys_of self) key.now }
    {
        match self {
            JobTable::Job => is_job_key(key),
            JobTable::Corner => key == b"name".as_slice(),
            JobTable::Comb => is_comb_key(key),
            JobTable::Register => is_register_key(key),
            JobTable::Arc => {
                key == b"from".as_slice() || key == b"to".as_slice() || key == b"spans".as_slice()
            }
            JobTable::Check => {
                key == b"pin".as_slice() || key == b"setup".as_slice() || key == b"hold".as_slice()
            }
            JobTable::Clock => key == b"inst".as_slice() || key == b"arrivals".as_slice(),
        }
    }

    /// Whether the table has no other keys than those of its sort.
    #[tactic(auto, using(crate::proofs::JobFormLemmas::are_all_of_keys))]
    pub fn has_all_keys(self, table: &Table) -> bool
        ensures { result ≡ has_only (keys_of self) (table_view table.now) }
    {
        for key in table.keys() {
            if !self.has_key(key.as_bytes()) {
                return false;
            }
        }
        true
    }
}

fn is_job_key(key: &[u8]) -> bool
    ensures { result ≡ is_one_of (keys_of JobTable.Job) key.now }
{
    key == b"netlist".as_slice()
        || key == b"output".as_slice()
        || key == b"certificate".as_slice()
        || key == b"period".as_slice()
        || key == b"max_chain".as_slice()
        || key == b"corner".as_slice()
        || key == b"arrival".as_slice()
        || key == b"type".as_slice()
        || key == b"kind".as_slice()
        || key == b"clock".as_slice()
}

fn is_comb_key(key: &[u8]) -> bool
    ensures { result ≡ is_one_of (keys_of JobTable.Comb) key.now }
{
    key == b"name".as_slice()
        || key == b"role".as_slice()
        || key == b"inputs".as_slice()
        || key == b"outputs".as_slice()
        || key == b"arcs".as_slice()
}

fn is_register_key(key: &[u8]) -> bool
    ensures { result ≡ is_one_of (keys_of JobTable.Register) key.now }
{
    key == b"name".as_slice()
        || key == b"role".as_slice()
        || key == b"clock".as_slice()
        || key == b"data".as_slice()
        || key == b"outputs".as_slice()
        || key == b"arcs".as_slice()
        || key == b"checks".as_slice()
}
