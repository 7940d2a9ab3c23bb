ghost use Rattle.hold_vparse.specs.Reads.{HasOneReading};

/// Does nothing. A proof learns from the call that the text reads as one netlist or is refused for one fault.
#[tactic(auto, using(crate::proofs::OneReading::one_reading))]
pub fn know_one_reading(text: &[u8])
    ensures { HasOneReading text.now }
{
    let _ = text;
}
