//! The inventory of a vault, as JSON and as CSV.
#![tactic(auto)]

mod as_csv;
mod as_json;
mod ascii;
mod line;

pub use as_csv::csv_text;
pub use as_json::json_text;
pub use line::InventoryLine;
