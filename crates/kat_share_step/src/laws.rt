//! Which operations shares have: the law is a call that does nothing, whose clause says it.
ghost use Rattle.kat_share_step.specs.Keeping.{StepsKeepShares};

use kat_design::{designs_mean, states_go_together};
use kat_difference::{marks_tell_operations, marks_unite};
use kat_node::{nodes_go_with_designs, packets_leave_nodes};
use kat_step::{actions_are_operations, steps_keep_states};

/// A share that has operations has them after a step too, with all operations that the senders of its packets had and those of the
/// actions: its state is what all of these give, and its marks are theirs.
pub fn steps_keep_shares()
    ensures { StepsKeepShares }
{
    designs_mean();
    states_go_together();
    nodes_go_with_designs();
    packets_leave_nodes();
    marks_tell_operations();
    marks_unite();
    actions_are_operations();
    steps_keep_states();
}
