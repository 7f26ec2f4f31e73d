//! What holds of all desks.
ghost use Rattle.std.specs.Prelude.{◌≡◌};
ghost use Rattle.gs_desk_image.specs.Desks.{AreAlike, Rests, store_of};
ghost use Rattle.gs_journal.specs.declared.memory.MemoryDisk.{MemoryDisk as AnyDisk};
ghost use Rattle.gs_shell_desk.specs.declared.desk.Desk.{Desk as AnyDesk};

/// What an image tells of desks that rest tells them apart: two of which it tells the same are alike. What may differ is the past of their
/// disks, and what is kept of messages as text.
pub fn an_image_tells_its_desk()
    ensures { (d e : AnyDesk AnyDisk) → Rests d → Rests e → store_of d ≡ store_of e → AreAlike d e }
{}
