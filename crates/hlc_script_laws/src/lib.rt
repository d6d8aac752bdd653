//! What is true of every script.
#![tactic(auto)]

ghost use Rattle.hlc_script_laws.specs.OneOutput.{OneOutput};

/// States that an input has one output, and one end of the run, except where a line of the output reports out of memory
/// or a read failed.
pub fn one_output_for_an_input()
    ensures { OneOutput }
{}
