//! The content of an emergency warning.

ghost use Rattle.std.specs.Prelude.{◌≡◌, ◌↔◌, IsTrue};

/// What a version of an emergency warning broadcasts (TS 48.049, 8.2.17 to 8.2.19 and 8.2.25). Its octets are carried as
/// they are.
#[derive(Clone, Copy, Debug, PartialEq, Eq)]
pub struct EmergencyContent {
    pub indicator: u8,
    pub warning_type: u16,
    pub warning_period: u8,
    pub security: [u8; 50],
}

impl EmergencyContent {
    pub fn same(&self, other: &EmergencyContent) -> bool
        ensures { IsTrue result ↔ (self.now ≡ other.now) }
    {
        *self == *other
    }
}
