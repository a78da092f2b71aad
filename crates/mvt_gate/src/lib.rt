//! The gate: it judges a tile, and its engines read a tile from a device and write their answer.
#![tactic(auto)]

mod advice;
mod agreement;
mod check;
mod faults;
mod figures;
mod first_walk;
mod geometry;
pub mod laws;
mod polygons;
mod quick;
mod verdict;

pub use advice::advise_stream;
pub use agreement::{Agreement, judge_and_confirm, judge_and_confirm_with};
pub use check::{CheckOptions, check_stream, check_stream_by, check_stream_with, fault_lines};
pub use faults::{faults_for, faults_quickly, faults_with};
pub use mvt_engine::{
    EngineFault, Outcome, Part, Tally, advice_text, confirm_streams, confirm_streams_with,
    dump_stream, dump_text, fault_line, fields_stream, push_list, push_string, read_whole,
    write_whole,
};
pub use polygons::rings_fault;
pub use quick::{Search, fault_for, judge_for, judge_quickly};
pub use verdict::{Verdict, judge, judge_with};
