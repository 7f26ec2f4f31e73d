// What an image tells of a store beside its disks and servers.
ghost use Rattle.gs_parts_image.specs.Encoding as written;
ghost use Rattle.gs_parts_image.specs.Reading.{sizes_at, head_at};
ghost use Rattle.gs_parts_image.specs.Stores.{head_of};
ghost use Rattle.gs_parts_image.specs.Work.{FindsAs};
ghost use Rattle.gs_parts_image.specs.Writable.{IsHeadTold};
ghost use Rattle.gs_fields.specs.Reading.{whole};
ghost use Rattle.gs_fields.specs.Work.{DecodesAs, Makes};
ghost use Rattle.gs_keep_head.specs.Head.{sizes_of};

use gs_base::Config;
use gs_fields::{Cursor, Fault, Field, written};
use std::alloc::Global;

/// What an image tells beside disks and servers: the sizes, when all happens, the number of the client's last request, whether memory
/// was ever wanting, and how many drops were sent since that was counted from.
#[derive(Clone, Copy, Debug)]
pub struct Head {
    pub config: Config,
    pub moment: u64,
    pub last: u64,
    pub is_short: bool,
    pub drops: u64,
}

/// The numbers of servers, racks and replicas, and the bytes of a chunk and of a block.
type SizesFields = (u64, (u64, (u64, (u64, u64))));

/// Takes the sizes of a store at the front. `Form` also where there is no store of these sizes.
#[tactic(auto, unfolding(crate::specs::Reading::sizes_at))]
fn read_sizes(alloc: Global, cursor: &mut Cursor<'_>) -> Result<Config, Fault>
    ensures { DecodesAs sizes_of result cursor.new.rest.now (sizes_at cursor.old.rest.now) }
{
    let (servers, (racks, (replicas, (chunk, block)))) = SizesFields::read(alloc, cursor)?;
    match Config::new(servers, racks, replicas, block, chunk) {
        Ok(config) => Ok(config),
        Err(_refusal) => Err(Fault::Form),
    }
}

/// Takes a head at the front.
#[tactic(auto, unfolding(crate::specs::Reading::head_at))]
fn read_head(alloc: Global, cursor: &mut Cursor<'_>) -> Result<Head, Fault>
    ensures { DecodesAs (λ h. head_of h) result cursor.new.rest.now (head_at cursor.old.rest.now) }
{
    let config = read_sizes(alloc, cursor)?;
    let moment = u64::read(alloc, cursor)?;
    let last = u64::read(alloc, cursor)?;
    let is_short = bool::read(alloc, cursor)?;
    let drops = u64::read(alloc, cursor)?;
    Ok(Head {
        config,
        moment,
        last,
        is_short,
        drops,
    })
}

/// The head of which these are the bytes, all of them.
pub(crate) fn head_in(alloc: Global, part: &[u8]) -> Result<Head, Fault>
    ensures { FindsAs (λ h. head_of h) result (whole (head_at part.now)) }
{
    let mut cursor = Cursor { rest: part };
    let head = read_head(alloc, &mut cursor)?;
    if !cursor.rest.is_empty() {
        return Err(Fault::Form);
    }
    Ok(head)
}

/// The bytes of a head.
pub(crate) fn head_part(alloc: Global, head: Head) -> Result<Vec<u8>, Fault>
    ensures { Makes (IsHeadTold (head_of head)) (written.head (head_of head)) result }
{
    let config = head.config;
    let replicas = (config.replicas, (config.chunk, config.block));
    let sizes = (config.servers, (config.racks, replicas));
    let told = (head.last, (head.is_short, head.drops));
    written(alloc, &(sizes, (head.moment, told)))
}
