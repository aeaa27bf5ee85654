// Standard input and standard output of the programs, and what they count.
#![tactic(auto)]

pub mod calls;
pub mod input;
mod message;
pub mod output;
mod room;
pub mod tally;

use std::rt::Files;

// What writing takes of the runtime: standard output, standard output opened anew by its name, and standard error for a message.
pub trait CanWrite: Print + Files + Eprint {}

impl<R: Print + Files + Eprint> CanWrite for R {}

// What reading takes of it.
pub trait CanRead: Input + Files + Eprint {}

impl<R: Input + Files + Eprint> CanRead for R {}
