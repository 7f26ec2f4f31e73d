//! What a script leaves is a store that a run has reached.
ghost use Rattle.gs_laws_scripts.specs.runs.Scripts.{AnyScriptIsReached, EachScriptIsReached};

/// What a script leaves is a store that is reached by a run, over disks that said nothing: by one in which no disk may fail, where in no step one failed, and else by one in which they may. So what holds of each
/// store that is reached holds of what a script leaves, where different blocks that its servers ever had have different digests.
pub fn each_script_is_reached<D>()
    ensures sound { EachScriptIsReached D }
    ensures any { AnyScriptIsReached D }
{}
