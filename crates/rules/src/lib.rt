// The types of documents 01 and 02. What they mean is written in specs/, in the order of the papers.
#![tactic(auto)]

pub mod aborts;
pub mod errors;
pub mod events;
pub mod journal;
pub mod objects;
pub mod origins;
pub mod parts;
pub mod requests;
pub mod settings;
pub mod states;
