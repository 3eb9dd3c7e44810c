// What the programs that answer stored cases share: their kinds of cases, the lines of fields in hexadecimal that a case is written in, how
// answers are printed, and how a whole input is read. No contract can say what the system reads or writes, and what reads or writes has none,
// but that `input::read_full` stays within its buffer.
#![tactic(auto)]

pub mod answers;
pub mod cases;
pub mod input;
pub mod kinds;
