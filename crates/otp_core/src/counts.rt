use crate::factor::FACTORS_END;

/// The end of the numbers of boots, and of proposals within a boot: all are below 2^62, as factors are.
pub const COUNTS_END: u64 = FACTORS_END;
