ghost use Rattle.std.specs.Prelude.{◌≡◌, ◌+◌, IfSome, IfNone};
ghost use Rattle.admit_core.specs.Fit.{code_at, IsLeastBetween, NoneBetween};
ghost use Rattle.otp_core.specs.Submission.{Check, Resync};
ghost use Rattle.otp_core.specs.Codes.{AreCodesOf};
ghost use Rattle.otp_core.specs.Digits.{count_of};
ghost use Rattle.token_file.specs.Credential.{Credential};

use otp_core::{Code, Codes, Factor};
use token_file::Token;

/// Returns the smallest factor of `window` with the code `given`, or None.
///
/// `window` is the first and the last factor.
pub fn find_check(token: &Token, window: (Factor, Factor), given: &Code) -> Option<Factor>
    ensures least { IfSome result
        (λ factor. IsLeastBetween token.now window.0 window.1 (Check given.now) factor factor) }
    ensures none { IfNone result (NoneBetween token.now window.0 window.1 (Check given.now)) }
{
    let (first, last) = window;
    let codes = codes_of(token);
    for number in first.value()..last.value() + 1 {
        let factor = Factor::new(number)?;
        if code_of(&codes, factor) == *given {
            return Some(factor);
        }
    }
    None
}

/// Returns the smallest factor of `window` that fits two codes, or None (RFC 4226, section 7.4).
///
/// The factor has the code `given`. The next factor is in the window too, and has the code `given_next`. Computes each
/// code once.
pub fn find_resync(
    token: &Token,
    window: (Factor, Factor),
    given: &Code,
    given_next: &Code,
) -> Option<Factor>
    ensures least { IfSome result
        (λ factor. IsLeastBetween token.now window.0 window.1
        (Resync given.now given_next.now) factor (factor + 1)) }
    ensures none { IfNone result
        (NoneBetween token.now window.0 window.1 (Resync given.now given_next.now)) }
{
    let (low, high) = window;
    let codes = codes_of(token);
    let mut before = low;
    let mut is_first = false;
    for number in low.value()..high.value() + 1 {
        let factor = Factor::new(number)?;
        let code = code_of(&codes, factor);
        if is_first && code == *given_next {
            return Some(before);
        }
        is_first = code == *given;
        before = factor;
    }
    None
}

/// Returns the codes of a token, with its key set up once.
fn codes_of(token: &Token) -> Codes
    ensures { AreCodesOf result token.now.hash token.now.secret (count_of token.now.digits) }
{
    Codes::new(token.hash(), token.secret().as_slice(), token.digits())
}

/// Returns the code of a token at a factor.
#[tactic(auto, unfolding(crate::specs::Fit::code_at))]
fn code_of(codes: &Codes, factor: Factor) -> Code
    ensures { (credential : Credential) →
        AreCodesOf codes.now credential.hash credential.secret (count_of credential.digits) →
        result ≡ code_at credential factor }
{
    codes.at(factor)
}
