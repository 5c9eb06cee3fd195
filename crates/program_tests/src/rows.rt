//! Kinds as the rows of tables write them: a constant can have no call in its value except of a macro.

/// The numbers of an interval.
macro_rules! scalar {
    ($low:expr, $high:expr) => {
        abstract_state::Kind::Scalar(abstract_scalar::Interval {
            low: $low,
            high: $high,
        })
    };
}

pub(crate) use scalar;
