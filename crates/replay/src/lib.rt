// What the programs that replay recorded files share: a file opened by name, its items or its small tables compared and counted, the records in a
// file, tables of calls that must be refused, the line that tells what was compared, and a program run on the files of a list. It rests on std's
// files and printing, on fronts of files, on what a file's bytes say, on the count, on refusals and on the limit of records.
// Buffers are arrays of the most that a file asks: no crate allocates.
#![tactic(auto)]

pub mod file;
pub mod items;
pub mod line;
pub mod named;
pub mod records;
pub mod refusals;
pub mod tables;
