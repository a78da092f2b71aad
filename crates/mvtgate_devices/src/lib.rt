//! The devices that the program puts between its engines and the system's files and streams.
#![tactic(auto)]

mod not_empty;
mod report_file;
mod standard_error;

pub use not_empty::NotEmpty;
pub use report_file::ReportFile;
pub use standard_error::StandardError;
