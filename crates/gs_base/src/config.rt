ghost use Rattle.std.specs.Prelude.{◌≡◌, true};
ghost use Rattle.gs_base.specs.Configs.{is_config, is_within};

use crate::refusal::Refusal;

/// The sizes of a store. `Config::new` says which there are.
#[derive(Clone, Copy, Debug, PartialEq, Eq)]
pub struct Config {
    /// How many chunkservers there are.
    pub servers: u64,
    /// Over how many racks they are spread: server i stands in rack i modulo this.
    pub racks: u64,
    /// On how many servers a new chunk is put.
    pub replicas: u64,
    /// The bytes of a block, which has a digest of its own.
    pub block: u64,
    /// The bytes of a chunk.
    pub chunk: u64,
    pub ghost valid: { is_config servers racks replicas block chunk ≡ true },
}

impl Config {
    ghost use Rattle.gs_base.specs.Configured.{Configured};

    /// A configuration of these sizes: 1 to 16 servers, 1 to 16 racks, 1 to as many replicas as there are servers, blocks
    /// of 1 to 65,536 bytes, and chunks of 1 to 1,024 whole blocks. `Config` refuses all else.
    pub fn new(
        servers: u64,
        racks: u64,
        replicas: u64,
        block: u64,
        chunk: u64,
    ) -> Result<Config, Refusal>
        ensures { Configured servers racks replicas block chunk result }
    {
        if !are_sizes(servers, racks, replicas, block, chunk) {
            return Err(Refusal::Config);
        }
        Ok(Config {
            servers,
            racks,
            replicas,
            block,
            chunk,
        })
    }
}

/// Whether there is a configuration of these sizes.
fn are_sizes(servers: u64, racks: u64, replicas: u64, block: u64, chunk: u64) -> bool
    ensures { result ≡ is_config servers racks replicas block chunk }
{
    is_in(servers, 1, 16)
        && is_in(racks, 1, 16)
        && is_in(replicas, 1, servers)
        && is_in(block, 1, 65_536)
        && is_in(chunk / block, 1, 1_024)
        && chunk % block == 0
}

/// Whether a number is at least `low` and at most `high`.
fn is_in(number: u64, low: u64, high: u64) -> bool
    ensures { result ≡ is_within number low high }
{
    low <= number && number <= high
}
