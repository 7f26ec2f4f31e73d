//! What a client reads of a file is what the file has: a tree of texts is enough to say it. It knows nothing of nodes: each answer that the client gets is taken to be of what stands, as a status, a location, or what a
//! member gives of a chunk.

ghost use Rattle.gs_laws_looks.specs.clients.Files.{DigestsWhatStands, ReadsWhatStands, Stands};
ghost use Rattle.gs_laws_looks.specs.clients.Located.{DigestersAskSo, ReadersAskSo};
ghost use Rattle.gs_path.specs.Path.{Path};

/// Where each answer to a client is of what stands, a file that it opens and reads gives what the file has from an offset on, and the digest of a block is that of the block: unless it is refused. Who answers, by which views and
/// how often a member doesn't is nothing to it. So two reads of what is the same give the same.
fn reads_give_what_stands()
    ensures bytes { (f : Stands) → ReadsWhatStands f }
    ensures digests { (f : Stands) → DigestsWhatStands f }
{}

/// Whatever is answered, who opens a file and reads of it, or asks for the digest of a block, asks for the file's status, looks up where its chunks are, and fetches of a chunk only from a member of a view that it was told in this very call, under
/// that view's stamp, and in the epoch that was told with it. It asks nothing else.
pub fn readers_ask_under_locations_that_they_were_told()
    ensures read { (path : Path) → ReadersAskSo path }
    ensures digest { (path : Path) → DigestersAskSo path }
{}
