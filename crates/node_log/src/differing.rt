//! The members that differ.

ghost use Rattle.std.specs.Prelude.{◌≡◌};
ghost use Rattle.node_log.specs.Differing.{either, with_others};

use gatekeeping::PLACES;

/// Marks those of the members with the given numbers that differ by another list.
fn mark_others(differing: &mut [bool; PLACES], others: &[bool; PLACES], numbers: &[u8])
    ensures { differing.new ≡ with_others numbers.now others.now differing.old }
{
    for number in numbers {
        let place = usize::from(*number);
        if others.get(place).copied().unwrap_or(false) {
            differing[place] = true;
        }
    }
}

/// Returns the members that differ by one list or by another, from member 0 to 9.
pub(crate) fn either(differing: [bool; PLACES], others: &[bool; PLACES]) -> [bool; PLACES]
    ensures { result ≡ either differing others.now }
{
    let mut both = differing;
    mark_others(&mut both, others, &[1, 2, 3, 4, 5, 6, 7, 8, 9]);
    both
}
