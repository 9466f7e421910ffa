use crate::status::Status;

/// What a run ends with and what it writes.
#[derive(Debug, Drop)]
pub struct Report {
    pub status: Status,
    pub text: String,
}
