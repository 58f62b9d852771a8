//! The worked example as a fact about the rules.

ghost use Rattle.hinge.specs.Worked.{Worked};

use merge::laws::hinge_block;
use paths::laws::hinge_path;
use runs::laws::hinge_calls;
use tapes::laws::hinge_tape;

/// What this program compares stands in the definitions, too: its contract is that fact.
pub fn worked_example()
    ensures { Worked }
{
    hinge_tape();
    hinge_block();
    hinge_calls();
    hinge_path();
}
