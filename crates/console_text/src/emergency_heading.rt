//! What stands in front of the security information of an emergency warning.

use warning_book::{Content, EmergencyContent};

/// The numbers of a version of an emergency warning.
#[derive(Clone, Copy, Debug)]
pub struct EmergencyHeading {
    /// The Emergency Indicator (TS 48.049, 8.2.17).
    pub indicator: u8,
    /// The Warning Type (TS 48.049, 8.2.18, and TS 23.041, 9.3.24).
    pub warning_type: u16,
    /// The Warning Period (TS 48.049, 8.2.25).
    pub warning_period: u8,
}

impl EmergencyHeading {
    ghost use Rattle.std.specs.Prelude.{◌≡◌};
    ghost use Rattle.console_text.specs.Headings.{emergency_content_of};

    /// The content that has these numbers and this security information.
    pub fn content(self, security: [u8; 50]) -> Content
        ensures { result ≡ emergency_content_of self security }
    {
        Content::Emergency(EmergencyContent {
            indicator: self.indicator,
            warning_type: self.warning_type,
            warning_period: self.warning_period,
            security,
        })
    }
}
