// The byte before what is written, which is opened once that is on the disk.
ghost use Rattle.std.specs.Prelude.{◌≡◌, ◌==◌};

/// The gate before a header or a record that stands.
const OPEN: u8 = 1;

/// Whether a gate is open. Any other byte is a closed one.
pub fn is_open(gate: u8) -> bool
    ensures { result ≡ (gate == 1) }
{
    gate == OPEN
}
