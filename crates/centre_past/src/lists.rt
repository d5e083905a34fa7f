//! What lists of a centre show.

mod area_row;
mod area_rows;
mod bsc_row;
mod bsc_rows;
mod cell_row;
mod cell_rows;
mod centre_status;
mod failed_row;
mod failed_rows;
mod failure;
mod flight_kind;
mod flight_row;
mod plan_counts;
mod warning_row;
mod warning_rows;
mod warning_sheet;

pub use area_row::AreaRow;
pub use area_rows::AreaRows;
pub use bsc_row::BscRow;
pub use bsc_rows::BscRows;
pub use cell_row::CellRow;
pub use cell_rows::CellRows;
pub use centre_status::CentreStatus;
pub use failed_row::FailedRow;
pub use failed_rows::FailedRows;
pub use failure::Failure;
pub use flight_kind::FlightKind;
pub use flight_row::FlightRow;
pub use plan_counts::PlanCounts;
pub use warning_row::WarningRow;
pub use warning_rows::WarningRows;
pub use warning_sheet::WarningSheet;
