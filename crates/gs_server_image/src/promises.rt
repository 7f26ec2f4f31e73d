//! What holds of all that is written and read.
ghost use Rattle.std.specs.Prelude.{ℕ};
ghost use Rattle.gs_fields.specs.Laws.{Reads};
ghost use Rattle.gs_server_image.specs.Encoding.{server};
ghost use Rattle.gs_server_image.specs.Writable.{IsServer};
ghost use Rattle.gs_server_image.specs.Reading.{server_at};

/// A server is read as it is written, where what a restart drops is empty: what is read of what was written is the same server, and
/// what is read at all is one whose bytes stood there.
pub fn a_server_is_read_as_it_is_written()
    ensures { (me block chunk : ℕ) → Reads (IsServer me block chunk) server (server_at me block chunk) }
{}
