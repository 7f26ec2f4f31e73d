//! The master of a store that is asked within its types stays steady: all that it says and keeps is within its types, and it refuses for want of memory alone.

ghost use Rattle.std.specs.Prelude.{◌≡◌, ℕ, List, false};
ghost use Rattle.gs_master.specs.Masters.{MasterOf};
ghost use Rattle.gs_laws_world.specs.lasting.Lasting.{Lasts};
ghost use Rattle.gs_master_spec.specs.Durable.{Durable};
ghost use Rattle.gs_master_spec.specs.State.{is_failed};
ghost use Rattle.gs_laws_world.specs.steady.Unarmed.{unarmed};
ghost use Rattle.gs_laws_world.specs.steady.Steady.{LastsSteady};
ghost use Rattle.gs_laws_world.specs.steady.Through.{LastsThrough, TellsAt};
ghost use Rattle.gs_laws_world.specs.steady.Laws.{FirmMastersRefuseMessagesForMemory, FirmMastersRefuseTicksForMemory, SteadyMastersRefuseMessagesForMemory, SteadyMastersRefuseTicksForMemory, NewStoresAreSteady, SteadyRunsStaySteady, UnarmedSteadyRunsStaySteady, NewStoresKeepTypes, RunsKeepTypes, QuietRunsHearWithinTypes, QuietRunsStaySteady, UnarmedQuietRunsStaySteady, SentMessagesAreRefusedForMemory, TicksAreRefusedForMemory, QuietRunsRefuseForMemory, NewStoresLastThrough, RunsLastThrough, UnarmedRunsLastThrough, StepsTellOn, RestartsOpenWhatIsTold, RestartsWaitForWhatIsTold};
ghost use Rattle.gs_nodes.specs.declared.place.MasterPlace.{MasterPlace};
ghost use Rattle.gs_nodes.specs.declared.place.MasterPlace.TheVariants.{Standing};

/// A master that stands firm, whose log is within its limit, refuses a message and a tick for want of memory alone, or as `BadLine` where a
/// record of it can't be written: its records fit what they meet, and have room.
fn a_firm_master_refuses_for_memory<D>()
    ensures messages { FirmMastersRefuseMessagesForMemory D }
    ensures ticks { FirmMastersRefuseTicksForMemory D }
{}

/// Where all that such a master keeps is within its types besides, it refuses what it hears and a tick for want of memory alone, since each
/// record can be written. What it hears is within its types too: its request, and where a call meets names, those.
fn a_steady_master_refuses_for_memory_alone<D>()
    ensures messages { SteadyMastersRefuseMessagesForMemory D }
    ensures ticks { SteadyMastersRefuseTicksForMemory D }
{}

/// A master stays steady as long as no disk of it fails and what it hears is within its types: it stands firm, all that it keeps is within its
/// types, and its log is within its limit, so that each record of it can be written. Over disks that say nothing a store begins so. Each step
/// leaves the master so, or, where memory was wanting for a restart, disks that tell such a master. What is steady is firm.
fn a_master_stays_steady_while_no_disk_fails<D>()
    ensures begun { NewStoresAreSteady D }
    ensures kept { SteadyRunsStaySteady D }
    ensures unarmed { UnarmedSteadyRunsStaySteady D }
    ensures firm { (seen : D → List ℕ) (place : MasterPlace D) → LastsSteady seen place → Lasts seen place }
{}

/// A store that is asked within its types keeps them: all that its nodes have sent may be said to its receiver, and each server counts in 64
/// bits. So its master hears only what is within its types.
fn a_store_that_is_asked_within_its_types_keeps_them<D>()
    ensures begun { NewStoresKeepTypes D }
    ensures kept { RunsKeepTypes D }
    ensures heard { QuietRunsHearWithinTypes D }
{}

/// So the master of such a store stays steady while no disk of it fails, and refuses what it is sent, and a tick, for want of memory alone.
fn a_master_asked_within_its_types_stays_steady<D>()
    ensures kept { QuietRunsStaySteady D }
    ensures unarmed { UnarmedQuietRunsStaySteady D }
    ensures messages { SentMessagesAreRefusedForMemory D }
    ensures ticks { TicksAreRefusedForMemory D }
    ensures refused { QuietRunsRefuseForMemory D }
{}

/// A master lasts through failures of its disks, whatever happens: one fails at a record or at a checkpoint, in a restart, or a failure is arranged that
/// comes later. Over disks that say nothing a store begins so. While no disk has failed since it was opened it stands steady; once one has, and where its disks
/// wait, they tell something on which a restarted master is steady, whatever log it has. The disks tell one thing, and that is what is durable where no
/// disk has failed. At a step it stays, or a master of which no disk had failed makes a turn of which so many records stand behind it, perhaps all, and
/// the others never were. So behind any run a restart opens what stood, or the disks wait, and tell what they told.
pub fn a_master_lasts_through_failures<D>()
    ensures begun { NewStoresLastThrough D }
    ensures kept { RunsLastThrough D }
    ensures unarmed { UnarmedRunsLastThrough D }
    ensures told { (seen : D → List ℕ) (place : MasterPlace D) → LastsThrough seen place → (d : Durable) × TellsAt seen place d }
    ensures once { (seen : D → List ℕ) (place : MasterPlace D) (d e : Durable) → TellsAt seen place d → TellsAt seen place e → d ≡ e }
    ensures sound { (seen : D → List ℕ) (m : MasterOf D) → is_failed m.state.fault ≡ false → LastsThrough seen (Standing m) → TellsAt seen (Standing m) m.state.durable }
    ensures step { StepsTellOn D }
    ensures opens { RestartsOpenWhatIsTold D }
    ensures waits { RestartsWaitForWhatIsTold D }
{}
