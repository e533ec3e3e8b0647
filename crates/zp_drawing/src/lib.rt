//! How zones are drawn, as text and as SVG: maps, tables of types, films and charts.
#![tactic(auto)]

mod cells;
mod film_rows;
mod films;
mod glyphs;
mod map_lines;
mod panels;
mod svg;
mod type_tables;
mod zone_charts;

pub use cells::{KINDS, Kind, Tally};
pub use films::{Film, GAP, LEFT, Strip, TOP};
pub use glyphs::{CellStyle, write_cell};
pub use map_lines::{MapStyle, write_map, write_way};
pub use svg::{write_classes, write_end, write_head, write_key, write_text};
pub use type_tables::{TypeCounts, write_type_tables};
pub use zone_charts::{
    ChartedZone, Span, write_chart_end, write_chart_head, write_order_keys, write_zone_chart,
};
