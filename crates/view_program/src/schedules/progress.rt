//! A trait for receiving progress reports while randomly drawn schedules are run.

/// A receiver of progress reports about the runs of randomly drawn schedules. Nothing in the sample depends on the
/// receiver.
pub trait Progress {
    /// Reports that `schedule_count` of `most` schedules have been run.
    fn told(&self, schedule_count: u32, most: u32);
}
