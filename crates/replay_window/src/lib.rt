//! An anti-replay window: the admitted moments of one client.
//!
//! A client names a moment in microseconds in each datagram. A [`Window`] admits each moment at most once, in bounded
//! memory. It keeps the 64 latest admitted moments, and a mark up to which it admits none. A moment that leaves raises
//! the mark (the law [`once_is_enough`]).
//!
//! How far a moment may be ahead of the clock is a value of the window, an [`Ahead`]. The mark begins as far ahead of
//! the clock at the start of the process. So no moment is admitted twice over several incarnations of a process (the
//! law [`lives_are_one`]), if the clock is not set back between them and a shorter lead waits for the longer one before
//! it. No function allocates.
//!
//! A window of the same process may begin lower: at the latest moment that the windows before it kept
//! ([`Window::latest`]). It then admits at once what is later than that (the law [`boots_are_one`]).
#![tactic(auto)]

mod ahead;
mod laws;
mod refusal;
mod window;

pub use ahead::Ahead;
pub use laws::{
    boots_are_one, boots_can_be_broken, latest_is_a_bound, lives_are_one, lives_can_be_broken,
    once_is_enough, refusals_have_reasons, windows_are_worked,
};
pub use refusal::Refusal;
pub use window::{BEHIND_MICROS, Window, last_at};
