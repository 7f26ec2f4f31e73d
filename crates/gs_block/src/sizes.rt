ghost use Rattle.std.specs.Prelude.{◌≡◌, ◌≤◌};

use gs_base::Config;

/// The bytes of a block and the most bytes of a chunk, as a configuration allows them.
#[derive(Clone, Copy, Debug, PartialEq, Eq)]
pub struct Sizes {
    pub block: u64,
    pub chunk: u64,
    pub ghost some: { 1 ≤ block },
    pub ghost block_fits: { block ≤ 65536 },
    pub ghost chunk_fits: { chunk ≤ 67108864 },
}

impl Sizes {
    /// The sizes of a configuration.
    pub fn of(config: Config) -> Sizes
        ensures block { result.block ≡ config.block }
        ensures chunk { result.chunk ≡ config.chunk }
    {
        Sizes {
            block: config.block,
            chunk: config.chunk,
        }
    }
}
