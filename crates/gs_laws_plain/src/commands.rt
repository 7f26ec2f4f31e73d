//! The plain machine: a tree whose files are lists of texts, which copies the whole of it at a prepare and has no handles, counts, replicas, stamps, journal or inverses. What the records of a
//! master say is commands of it, so are the edits that come to the texts of chunks, and what the master answers to calls of the tree is what the plain tree answers.

ghost use Rattle.gs_laws_plain.specs.commands.Answering.{NewCallsAnswerPlainly};
ghost use Rattle.gs_laws_plain.specs.commands.Doing.{NewCallsDoAsAnswered};
ghost use Rattle.gs_laws_plain.specs.commands.Edits.{EditsAreCommands};
ghost use Rattle.gs_laws_plain.specs.commands.Files.{RecordsStandInFiles, TextsStandInFiles};
ghost use Rattle.gs_laws_plain.specs.commands.OnePlace.{EditsOfAPlaceAreCommands, OneEditIsACommand};
ghost use Rattle.gs_laws_plain.specs.commands.Places.{EachPlaceHasItsEdits, EditsOfPlacesAreCommands, NothingElse};
ghost use Rattle.gs_laws_plain.specs.commands.Records.{RecordIsCommand, RecordsAreCommands};
ghost use Rattle.gs_laws_plain.specs.commands.Steps.{StepsLead};
ghost use Rattle.gs_master_record.specs.Plain.{PlainEntry};

/// Where an edit of the names is made, its command leads from the tree with texts to the new one, whatever the texts are: but a chunk that is added
/// has none, and one that takes the place of another has the other's. So that, and what is forgotten, change no text.
fn edits_are_commands()
    ensures { EditsAreCommands }
{}

/// Each record that isn't a checkpoint leads, where what is durable stands, as its command, or changes nothing where it is none: from the tree with texts,
/// and while an upgrade stands with the tree to which what takes edits back leads, to that behind it; where a chunk that is added has no text, and one that takes the place of another
/// has the other's. So does a checkpoint that tells what it meets. So do many, one after the other.
fn records_are_commands()
    ensures each { (entry : PlainEntry) → RecordIsCommand entry }
    ensures all { RecordsAreCommands }
{}

/// What no record says: where the text of a chunk that stands at one place changes by an edit, and no other text, the command that edits the text of
/// that place leads from tree to tree. So do many edits, one after the other.
fn edits_of_a_place_are_commands()
    ensures one { OneEditIsACommand }
    ensures all { EditsOfAPlaceAreCommands }
{}

/// What stands in a text stands in its file, behind as many chunks as come before it. So a record that is appended to a text stands in the file right after that, at the place that a client makes of the index of the chunk and of
/// the offset that it is told, at which the text ended.
fn bytes_of_a_text_stand_in_its_file()
    ensures texts { TextsStandInFiles }
    ensures records { RecordsStandInFiles }
{}

/// Where edits come at once to chunks that stand at one place each, the commands that edit these places lead from tree to tree; each place has the
/// edits of its chunk among them, once and in their order, and they are nothing else.
fn edits_of_all_places_are_commands()
    ensures lead { EditsOfPlacesAreCommands }
    ensures each { EachPlaceHasItsEdits }
    ensures only { NothingElse }
{}

/// So edits of texts and records behind them are a list of commands: where edits come to chunks that stand at one place each, and records
/// lead on behind them. Those that edit no text are what the records say, in their order, and at each place those that edit its text are the edits that
/// come to its chunk, in theirs.
fn settled_edits_and_records_are_commands()
    ensures { StepsLead }
{}

/// A new call of the tree gets one reply in the event that brings it: what the plain tree answers, whatever texts its chunks have, or a refusal of which that
/// knows nothing. A snapshot does where nothing of its source has to become quiet first.
fn calls_of_the_tree_are_answered_plainly()
    ensures { NewCallsAnswerPlainly }
{}

/// What a new call of the tree records goes with its answer: where it is accepted its records say the command that the call is, and no other; where it is refused, and where nothing stood that was to be
/// deleted, they say none. A snapshot does where nothing of its source has to become quiet first.
pub fn calls_of_the_tree_do_what_they_answer()
    ensures { NewCallsDoAsAnswered }
{}
