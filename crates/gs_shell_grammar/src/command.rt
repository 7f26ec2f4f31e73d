use gs_msg::Kind;

/// What a line asks for. A path is the text that stands in the line: whether it is one is judged later, and so is whether a
/// server, a chunk, a block or a message of a number is there. A server's number, a chunk's place in its file and a block's in
/// its chunk count from 0.
#[derive(Debug, Drop)]
pub enum Command<'a> {
    /// `mkdir P`: makes the directory and those above it.
    Mkdir(&'a str),
    /// `create P`: makes an empty file.
    Create(&'a str),
    /// `ls P`: the names in a directory.
    Ls(&'a str),
    /// `stat P`: the size and the chunks of a file.
    Stat(&'a str),
    /// `mv P P`: moves the first to the second.
    Mv(&'a str, &'a str),
    /// `rm P`: deletes what stands there, and with `rm -r P` also a directory that has children.
    Rm {
        path: &'a str,
        recursive: bool,
    },
    /// `undelete P`: gives a deleted entry its old name.
    Undelete(&'a str),
    /// `snapshot P P`: copies the first to the second.
    Snapshot(&'a str, &'a str),
    /// `write P OFFSET HEX`: writes the bytes there.
    Write {
        path: &'a str,
        offset: u64,
        bytes: Vec<u8>,
    },
    /// `append P HEX`: adds the bytes as a record.
    Append {
        path: &'a str,
        bytes: Vec<u8>,
    },
    /// `read P OFFSET LEN`: the bytes there, up to the file's end.
    Read {
        path: &'a str,
        offset: u64,
        length: u64,
    },
    /// `digest P CHUNK BLOCK`: the digest of a block.
    Digest {
        path: &'a str,
        chunk: u64,
        block: u64,
    },
    /// `scan`: removes what was deleted long ago, and forgets chunks without a reference.
    Scan,
    /// `replicate`: makes one replica more of the chunk that needs it most.
    Replicate,
    /// `beat S`: the server reports its replicas.
    Beat(u64),
    /// `tick`: each node does what it does as time goes on, the master first.
    Tick,
    /// `rollingUpgrade query`, `prepare`, `finalize` or `rollback`, as the command of Hadoop's `dfsadmin` has them.
    Upgrade(Upgrade),
    /// `prepare-begin`, `prepare-commit`, `rollback-begin` or `rollback-commit`.
    Step(UpgradeStep),
    /// `at M`: the moment of later lines.
    At(u64),
    /// `restart master`, `restart S`: the node begins again with what it keeps.
    Restart(Restarted),
    /// `lose S H`: the server loses its replica of the chunk of that handle.
    Lose {
        server: u64,
        handle: u64,
    },
    /// `damage S H BLOCK`: a byte of the block changes where it is kept.
    Damage {
        server: u64,
        handle: u64,
        block: u64,
    },
    /// `hold on KIND`: messages of this kind are kept back from now on. `hold off`: none are.
    Hold(Option<Kind>),
    /// `deliver N`: hands over a message that was kept back, which count from 1.
    Deliver(u64),
}

/// What is done about an upgrade.
#[derive(Clone, Copy, Debug, PartialEq, Eq)]
pub enum Upgrade {
    Query,
    Prepare,
    Finalize,
    Rollback,
}

/// A half of preparing an upgrade or of rolling it back.
#[derive(Clone, Copy, Debug, PartialEq, Eq)]
pub enum UpgradeStep {
    PrepareBegin,
    PrepareCommit,
    RollbackBegin,
    RollbackCommit,
}

/// The node that begins again.
#[derive(Clone, Copy, Debug, PartialEq, Eq)]
pub enum Restarted {
    Master,
    /// The server of this number.
    Server(u64),
}
