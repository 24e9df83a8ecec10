// Lines (document 01, "Lines"): the decimal fields of command lines and of answer lines.
#![tactic(auto)]

pub mod answer_line;
pub mod command_line;
pub mod field;
mod narrow;
mod ten_digits;
