//! What a script answers is a function of its input.

ghost use Rattle.gs_laws_scripts.specs.answers.Plain.{begins};
ghost use Rattle.gs_laws_scripts.specs.answers.Room.{TicksMakeRoom};
ghost use Rattle.gs_laws_scripts.specs.answers.Laws.{DesksBeginAsPlain, LinesAnswerAsPlain, ScriptsAnswerAsPlain, ScriptsAnswerAlike};

/// Over empty disks, and where memory isn't wanting and no disk of the master fails, what a line is answered, and what is left, is what a function gives
/// that knows no disks: of the line, the client, and what stood without the disks. It begins with a new desk. So the texts that a script writes of which
/// each line is read and each answer written are a function of the configuration and the input, where memory was never wanting and the disks have failed
/// no more often in the end than at the start. Two such scripts of one configuration and input write the same, whichever empty disks they have.
pub fn a_script_answers_its_input<D>()
    ensures begins { DesksBeginAsPlain D }
    ensures line { LinesAnswerAsPlain D }
    ensures script { ScriptsAnswerAsPlain D }
    ensures twice { ScriptsAnswerAlike D }
{}

/// A `tick` is answered `ok`, and the master ticks first. Say no disk has failed, and the master stands firm and steady. Say 4,096 records stand
/// behind its last checkpoint, those of this tick among them, a generation is left, no upgrade is being prepared, and a checkpoint of what stands
/// has room on a disk. Then that checkpoint alone is what its journal says right behind its tick. It is said where the desk has noted no want of
/// memory, before the tick or in it, and no disk fails in it. So what stood in the journal before takes no room there any more. Whether a later
/// line finds room isn't said.
pub fn a_tick_makes_room<D>()
    ensures { TicksMakeRoom D }
{}
