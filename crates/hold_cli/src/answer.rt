ghost use Rattle.std.specs.Prelude.{◌≢◌, OnOk, OnErr};
ghost use Rattle.hold_files.specs.Told.{GoesOn};
ghost use Rattle.hold_cli.specs.Answer.{only_line, repair_texts};
ghost use Rattle.hold_cli.specs.Texts.{IsDone, Fails, FailsInLine};

use crate::job_form::Job;
use hold_files::{Failed, Files, say_whole, write_whole};

/// What is said where the words are no command.
pub const USAGE: &[u8] = b"usage: hold repair JOB, check JOB, report JOB, apply JOB or trial N\n";

const REPAIRED: &[u8] = b"repaired cost 0\n";

/// The certificate of a netlist that meets every check as it is: no buffer costs nothing, and nothing
/// costs less.
const WHOLE: &[u8] = b"hold-certificate 1\nrepaired 0\nleaf 1\nend\n";

/// Says the line of an answer that writes no file.
pub fn say_line<F: Files>(files: &mut F, line: &[u8]) -> Result<(), Failed>
    ensures done { OnOk result (IsDone (F.told files.old) (F.told files.new) (only_line line.now)) }
    ensures failed { OnErr result (FailsInLine (F.told files.old) (F.told files.new) (only_line line.now)) }
    ensures goes_on { GoesOn (F.told files.old) (F.told files.new) }
{
    say_whole(files, line)
}

/// Writes the certificate and the netlist of a repair without buffers, and says its line.
pub fn write_repair<F: Files>(files: &mut F, job: &Job, netlist: &[u8]) -> Result<(), Failed>
    requires { job.now.certificate ≢ job.now.output }
    ensures done { OnOk result
        (IsDone (F.told files.old) (F.told files.new) (repair_texts job.now netlist.now)) }
    ensures failed { OnErr result
        (Fails (F.told files.old) (F.told files.new) (repair_texts job.now netlist.now)) }
    ensures goes_on { GoesOn (F.told files.old) (F.told files.new) }
{
    let Ok(()) = write_whole(files, &job.certificate, WHOLE) else {
        return Err(Failed);
    };
    let Ok(()) = write_whole(files, &job.output, netlist) else {
        return Err(Failed);
    };
    let Ok(()) = say_whole(files, REPAIRED) else {
        return Err(Failed);
    };
    Ok(())
}
