//! What follows from the definitions. The function does nothing, and its contract holds of all faults.

ghost use Rattle.line_faults.specs.Texts.{IsCounted, IsPrintable, fault_text};
ghost use Rattle.line_faults.specs.declared.line_fault.LineFault.{LineFault};

/// Lemma: what is said of a fault has printable ASCII alone, whatever octets were typed.
#[tactic(auto, using(crate::proofs::TextLemmas::fault_printable))]
pub fn texts_are_printable()
    ensures { (fault : LineFault) → IsCounted fault → IsPrintable (fault_text fault) }
{}
