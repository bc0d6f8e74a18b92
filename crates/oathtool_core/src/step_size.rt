ghost use Rattle.std.specs.Prelude.{◌≡◌};
ghost use Rattle.oathtool_core.specs.StepSize.{step_size_of};

use field_text::read_number;

/// The longest time step, in seconds.
const MAX_STEP_SIZE: u64 = 1_000_000;

/// Returns the length of a time step, 1 to 1,000,000 seconds, or None. The text may end with `s`.
pub(crate) fn read_step_size(text: &[u8]) -> Option<u64>
    ensures { result ≡ step_size_of text.now }
{
    let digits = match text.split_last() {
        Some((b's', digits)) => digits,
        _ => text,
    };
    let seconds = read_number(digits)?;
    if seconds == 0 || seconds > MAX_STEP_SIZE {
        return None;
    }
    Some(seconds)
}
