//! A zone behind its lock, a worker's share, and readers of its board. A new zone of 4,096 pages from page 0 on gives its first single pages
//! from 3072 on.

mod full_lists;
mod one_zone;
mod places;
mod readings;
mod runs;
