//! Laws of bodies, each the contract of a function that does nothing.

ghost use Rattle.cbsp_messages.specs.Laws.{NoFault, OneFault, OneMessage, ShortPage, TableIsWhole};

/// A body spells one message at most.
pub fn one_message()
    ensures { OneMessage }
{}

/// A body that spells a message has no fault.
pub fn no_fault()
    ensures { NoFault }
{}

/// A body has one fault at most.
pub fn one_fault()
    ensures { OneFault }
{}

/// The elements that a layout writes are those that it demands and those that it may have, each once.
pub fn table_is_whole()
    ensures { TableIsWhole }
{}

/// The page of at most 82 octets has all of them, and zeros after them.
pub fn short_page()
    ensures { ShortPage }
{}
