//! The laws of the chart: what its items mean, that nothing is missing, and what a budget is to it.
#![tactic(auto)]

mod laws;

pub use laws::{chart_budget_law, chart_law, keep_law, start_law};
