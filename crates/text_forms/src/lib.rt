// How a record is put as a line: the kinds of lines, a record's fields, and whether its line says all of them.
#![tactic(auto)]

pub mod fields;
pub mod forms;
