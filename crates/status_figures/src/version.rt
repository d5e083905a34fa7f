//! The version of the program.

/// The version of the program, as `--version` prints it behind the program's name.
pub const VERSION: &str = "1.0.0";
