//! Pictures of the zones of a trace, after its first requests or over all of them: maps, tables of types, films and charts.
#![tactic(auto)]

mod chart;
mod fault;
mod film;
mod film_states;
mod input;
mod labels;
mod layout;
mod legend;
mod map;
mod output;
mod pagetypeinfo;

pub use chart::print_chart;
pub use fault::PictureFault;
pub use film::print_film;
pub use input::Shown;
pub use map::{MapOptions, print_map};
pub use pagetypeinfo::print_pagetypeinfo;
