ghost use Rattle.hold_netlist.specs.CanonicalText.{canonical_text};
ghost use Rattle.hold_vparse.specs.Reads.{Reads};

use hold_netlist::Netlist;

/// Does nothing. A proof learns from the call that the netlist's canonical text reads as that netlist.
#[tactic(auto, using(crate::proofs::CanonicalReads::canonical_reads))]
pub fn know_reads_back(netlist: &Netlist)
    ensures { Reads (canonical_text netlist.now) netlist.now }
{
    netlist.know_valid();
}
