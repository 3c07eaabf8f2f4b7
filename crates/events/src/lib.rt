// The closure of a set of literals, by events: a cell is looked at again only when something that it reads has changed.
#![tactic(auto)]

mod levels;
mod net;
mod nodes;
mod order;
mod sweep;
mod visit;

pub use net::Net;
pub use sweep::close;
