//! What holds of an initiator's opening by its definition alone.

ghost use Rattle.initiator_machine.specs.Opening.{OpeningsArePreambles};

/// The bytes of an opening are a preamble of the mode, the encoding and the Via, for every receiver
/// that serves the Via and admits one as long.
pub fn openings()
    ensures { OpeningsArePreambles }
{}
