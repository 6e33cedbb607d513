//! Moments from their seconds.

use model::Moment;
use test_support_data::RowError;

/// The moment so many seconds after the beginning of 1970.
pub fn moment_at(seconds: u64) -> Result<Moment, RowError> {
    Moment::at(seconds).ok_or(RowError::Unreadable)
}
