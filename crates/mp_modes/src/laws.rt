//! A law of what a log tells, the contract of a function that does nothing.
ghost use Rattle.mp_modes.specs.Presenting.{RunsTell};

use mp_engine::{
    counts_move, end_states_move, last_letter_has_end_state, last_line_is_last, log_tells_close,
    settled_is_standing, settled_loops_have_end_states, unsettled_is_standing,
};

/// The log of a run that isn't refuted tells what nothing is left of in each instance that counts as a state like its last one.
pub fn runs_tell()
    ensures { RunsTell }
{
    settled_loops_have_end_states();
    last_letter_has_end_state();
    last_line_is_last();
    settled_is_standing();
    unsettled_is_standing();
    log_tells_close();
    end_states_move();
    counts_move();
}
