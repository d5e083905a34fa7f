//! The laws of reading and writing elements. Each call does nothing: its contract is the law.

ghost use Rattle.cbsp_ie.specs.Laws.{NoFault, OneFault, OneReading, WrittenIsRead};

/// One element stands at the front of octets.
pub fn one_reading()
    ensures { OneReading }
{}

/// Octets at whose front an element stands have no fault.
pub fn no_fault()
    ensures { NoFault }
{}

/// Octets have one fault.
pub fn one_fault()
    ensures { OneFault }
{}

/// What is written for an element is read as it, without its spare bits.
pub fn written_is_read()
    ensures { WrittenIsRead }
{}
