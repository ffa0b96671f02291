//! A report of a run, drawn as a message sequence chart in SVG.
#![tactic(auto)]

mod arrows;
mod chart;
mod columns;
mod events;
mod heads;
mod layout;
mod manner;
mod marks;
mod on_way;
mod origin;
mod peers;
mod receipts;
mod rows;
mod sheet;
mod stars;
mod strokes;
mod style;
mod traffic;
mod words;

pub use chart::put_chart;
pub use manner::Manner;
