//! One zone: its creation, its requests, and its counts. Every `Zone` is a lawful plain zone.
#![tactic(auto)]

mod books;
mod config;
mod page;
mod pageblock;
mod seat;
mod told;
mod untied_zone;
mod zone;

pub use config::ZoneConfig;
pub use page::ZonePage;
pub use pageblock::Pageblock;
pub use seat::Seat;
pub use told::Told;
pub use zone::{Zone, page_reply};
pub use zp_buddy::fitting_order;
