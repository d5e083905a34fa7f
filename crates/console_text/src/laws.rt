//! What follows from the definitions. The function does nothing, and its contract holds of all messages.

ghost use Rattle.console_text.specs.Laws.{WrittenIsCut};

/// What is written of a message is one frame, as the framer cuts it; that its body is short enough is a promise of
/// `cbsp_messages::write`.
#[tactic(auto, using(crate::proofs::FrameLemmas::written_is_cut))]
pub fn written_is_cut()
    ensures { WrittenIsCut }
{}
