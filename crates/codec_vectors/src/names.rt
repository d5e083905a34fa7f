//! Names of messages.

use cbsp_messages::Layout;

/// The name in the file of a message that is laid out so.
pub fn layout_name(layout: Layout) -> &'static str {
    match layout {
        Layout::WriteReplace => "WriteReplace",
        Layout::WriteEmergency => "WriteEmergency",
        Layout::WriteComplete => "WriteComplete",
        Layout::WriteFailure => "WriteFailure",
        Layout::Kill => "Kill",
        Layout::KillComplete => "KillComplete",
        Layout::KillFailure => "KillFailure",
        Layout::StatusQuery => "StatusQuery",
        Layout::StatusComplete => "StatusComplete",
        Layout::StatusFailure => "StatusFailure",
        Layout::Restart => "Restart",
        Layout::Failure => "Failure",
        Layout::ErrorIndication => "ErrorIndication",
    }
}
