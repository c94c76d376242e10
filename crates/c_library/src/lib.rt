//! Queries of a warehouse, and its changes, for programs in C and in languages that call C. A program reads the file of
//! its warehouse itself, and passes the bytes; what a query asks for is given in bytes too, of which empty ones were
//! left out. An answer is the length of a text or of a journal, or the number of a fault with a minus.
#![tactic(auto)]

mod answering;
mod asking;
mod changes;
mod creating;
mod handing;
mod loading;
mod naming;
mod reports;
