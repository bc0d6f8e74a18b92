//! The rules for admitting a submission (RFC 4226, sections 7.2 to 7.4; RFC 6238, sections 5.2 and 6).
//!
//! The rules are the window of factors, the search for the smallest one that fits, the password column, and the
//! gate that slows guessing down. No function allocates.
#![tactic(auto)]

mod drift;
mod laws;
mod password;
mod search;
mod windows;

pub use drift::drift_after;
pub use laws::{
    drifts_are_worked, entitlements_can_be_broken, failures_are_spaced, fits_are_worked,
    gate_keeps_throttle, least_fit_is_least, no_drift_is_as_before, throttle_is_worked,
    windows_are_worked,
};
pub use otp_core::Gate;
pub use password::password_fits;
pub use search::{find_check, find_resync};
pub use windows::{resync_window, window};
