use hold_base::{CornerNo, List, Name};
use hold_build::BuildFault;
use hold_job::JobFault;
use hold_roles::RoleFault;
use hold_sdf::SdfFault;
use hold_vparse::VerilogFault;
use thiserror::Error;

/// Why an input is refused.
#[derive(Debug, Drop, Error)]
pub enum Refusal {
    /// The file of this name has more than 2^26 bytes.
    #[error("an input file is too long")]
    TooLong(Name),
    /// The job's text gives no job.
    #[error("the job isn't read")]
    Job(JobFault),
    /// The netlist's text isn't read.
    #[error("the netlist isn't read")]
    Verilog(VerilogFault),
    /// The netlist can't be bound to the job's types.
    #[error("the netlist can't be bound to the types")]
    Roles(RoleFault),
    /// The netlist and the job have no graph.
    #[error("the netlist and the job have no graph")]
    Build {
        fault: BuildFault,
        /// How the pins of a cycle are said, in its order; none of another fault.
        pins: List<Name>,
    },
    /// The SDF text of this corner isn't read.
    #[error("the delays of a corner aren't read")]
    Sdf(CornerNo, SdfFault),
}
