//! Traces whose workers run in threads, over zones behind locks, each when a plan gives it its turn. What a zone returns follows from its
//! rules: a new zone of 4,096 pages from page 0 on gives its first single pages from 3072 on, and its lowest block begins at page 0.

mod boards;
mod case;
mod full;
mod gates;
mod histories;
mod keepers;
mod plan;
mod rows;
mod schedules;
mod sections;
mod strayed;
mod two_calls;
mod workers;
