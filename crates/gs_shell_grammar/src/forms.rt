ghost use Rattle.gs_shell_grammar.specs.Grammar.{ParsesAs, request_of, one_word, two_words, three_words, four_words, upgrade_line, restart_line, number_line, hold_line, append_line, write_line, read_line, digest_line, lose_line, damage_line};

use crate::command::{Command, Restarted, Upgrade, UpgradeStep};
use crate::error::LineError;
use crate::operands::{bytes_of, number_of};
use gs_msg::Kind;
use std::alloc::Global;

#[tactic(auto, unfolding(crate::specs::Grammar::one_word))]
pub(crate) fn of_one<'a>(name: &str) -> Result<Command<'a>, LineError>
    ensures { ParsesAs request_of result (one_word name.now) }
{
    match name {
        "scan" => Ok(Command::Scan),
        "replicate" => Ok(Command::Replicate),
        "tick" => Ok(Command::Tick),
        "prepare-begin" => Ok(Command::Step(UpgradeStep::PrepareBegin)),
        "prepare-commit" => Ok(Command::Step(UpgradeStep::PrepareCommit)),
        "rollback-begin" => Ok(Command::Step(UpgradeStep::RollbackBegin)),
        "rollback-commit" => Ok(Command::Step(UpgradeStep::RollbackCommit)),
        _ => Err(LineError::BadLine),
    }
}

#[tactic(auto, unfolding(crate::specs::Grammar::upgrade_line))]
fn of_upgrade<'a>(word: &str) -> Result<Command<'a>, LineError>
    ensures { ParsesAs request_of result (upgrade_line word.now) }
{
    let upgrade = match word {
        "query" => Upgrade::Query,
        "prepare" => Upgrade::Prepare,
        "finalize" => Upgrade::Finalize,
        "rollback" => Upgrade::Rollback,
        _ => return Err(LineError::BadLine),
    };
    Ok(Command::Upgrade(upgrade))
}

#[tactic(auto, unfolding(crate::specs::Grammar::restart_line))]
fn of_restart<'a>(node: &str) -> Result<Command<'a>, LineError>
    ensures { ParsesAs request_of result (restart_line node.now) }
{
    if node == "master" {
        return Ok(Command::Restart(Restarted::Master));
    }
    let Some(server) = number_of(node) else {
        return Err(LineError::BadLine);
    };
    Ok(Command::Restart(Restarted::Server(server)))
}

#[tactic(auto, unfolding(crate::specs::Grammar::number_line))]
fn of_number<'a>(name: &str, number: &str) -> Result<Command<'a>, LineError>
    ensures { ParsesAs request_of result (number_line name.now number.now) }
{
    let Some(number) = number_of(number) else {
        return Err(LineError::BadLine);
    };
    match name {
        "beat" => Ok(Command::Beat(number)),
        "at" => Ok(Command::At(number)),
        "deliver" => Ok(Command::Deliver(number)),
        _ => Err(LineError::BadLine),
    }
}

#[tactic(auto, unfolding(crate::specs::Grammar::two_words))]
pub(crate) fn of_two<'a>(name: &str, a: &'a str) -> Result<Command<'a>, LineError>
    ensures { ParsesAs request_of result (two_words name.now a.entry.now) }
{
    match name {
        "mkdir" => Ok(Command::Mkdir(a)),
        "create" => Ok(Command::Create(a)),
        "ls" => Ok(Command::Ls(a)),
        "stat" => Ok(Command::Stat(a)),
        "rm" => Ok(Command::Rm {
            path: a,
            recursive: false,
        }),
        "undelete" => Ok(Command::Undelete(a)),
        "rollingUpgrade" => of_upgrade(a),
        "restart" => of_restart(a),
        "hold" => match a {
            "off" => Ok(Command::Hold(None)),
            _ => Err(LineError::BadLine),
        },
        _ => of_number(name, a),
    }
}

#[tactic(auto, unfolding(crate::specs::Grammar::append_line))]
fn of_append<'a>(alloc: Global, path: &'a str, hex: &str) -> Result<Command<'a>, LineError>
    ensures { ParsesAs request_of result (append_line path.entry.now hex.now) }
{
    match bytes_of(alloc, hex) {
        Ok(bytes) => Ok(Command::Append { path, bytes }),
        Err(error) => Err(error),
    }
}

#[tactic(auto, unfolding(crate::specs::Grammar::lose_line))]
fn of_lose<'a>(server: &str, handle: &str) -> Result<Command<'a>, LineError>
    ensures { ParsesAs request_of result (lose_line server.now handle.now) }
{
    let Some(server) = number_of(server) else {
        return Err(LineError::BadLine);
    };
    let Some(handle) = number_of(handle) else {
        return Err(LineError::BadLine);
    };
    Ok(Command::Lose { server, handle })
}

#[tactic(auto, unfolding(crate::specs::Grammar::hold_line))]
fn of_hold<'a>(kind: &str) -> Result<Command<'a>, LineError>
    ensures { ParsesAs request_of result (hold_line kind.now) }
{
    let Some(kind) = Kind::named(kind) else {
        return Err(LineError::BadLine);
    };
    Ok(Command::Hold(Some(kind)))
}

#[tactic(auto, unfolding(crate::specs::Grammar::three_words))]
pub(crate) fn of_three<'a>(
    alloc: Global,
    name: &str,
    a: &'a str,
    b: &'a str,
) -> Result<Command<'a>, LineError>
    ensures { ParsesAs request_of result (three_words name.now a.entry.now b.entry.now) }
{
    match name {
        "mv" => Ok(Command::Mv(a, b)),
        "snapshot" => Ok(Command::Snapshot(a, b)),
        "append" => of_append(alloc, a, b),
        "lose" => of_lose(a, b),
        "rm" if a == "-r" => Ok(Command::Rm {
            path: b,
            recursive: true,
        }),
        "hold" if a == "on" => of_hold(b),
        _ => Err(LineError::BadLine),
    }
}

#[tactic(auto, unfolding(crate::specs::Grammar::write_line))]
fn of_write<'a>(
    alloc: Global,
    path: &'a str,
    offset: &str,
    hex: &str,
) -> Result<Command<'a>, LineError>
    ensures { ParsesAs request_of result (write_line path.entry.now offset.now hex.now) }
{
    let Some(offset) = number_of(offset) else {
        return Err(LineError::BadLine);
    };
    match bytes_of(alloc, hex) {
        Ok(bytes) => Ok(Command::Write {
            path,
            offset,
            bytes,
        }),
        Err(error) => Err(error),
    }
}

#[tactic(auto, unfolding(crate::specs::Grammar::read_line))]
fn of_read<'a>(path: &'a str, offset: &str, length: &str) -> Result<Command<'a>, LineError>
    ensures { ParsesAs request_of result (read_line path.entry.now offset.now length.now) }
{
    let Some(offset) = number_of(offset) else {
        return Err(LineError::BadLine);
    };
    let Some(length) = number_of(length) else {
        return Err(LineError::BadLine);
    };
    Ok(Command::Read {
        path,
        offset,
        length,
    })
}

#[tactic(auto, unfolding(crate::specs::Grammar::digest_line))]
fn of_digest<'a>(path: &'a str, chunk: &str, block: &str) -> Result<Command<'a>, LineError>
    ensures { ParsesAs request_of result (digest_line path.entry.now chunk.now block.now) }
{
    let Some(chunk) = number_of(chunk) else {
        return Err(LineError::BadLine);
    };
    let Some(block) = number_of(block) else {
        return Err(LineError::BadLine);
    };
    Ok(Command::Digest { path, chunk, block })
}

#[tactic(auto, unfolding(crate::specs::Grammar::damage_line))]
fn of_damage<'a>(server: &str, handle: &str, block: &str) -> Result<Command<'a>, LineError>
    ensures { ParsesAs request_of result (damage_line server.now handle.now block.now) }
{
    let Some(server) = number_of(server) else {
        return Err(LineError::BadLine);
    };
    let Some(handle) = number_of(handle) else {
        return Err(LineError::BadLine);
    };
    let Some(block) = number_of(block) else {
        return Err(LineError::BadLine);
    };
    Ok(Command::Damage {
        server,
        handle,
        block,
    })
}

#[tactic(auto, unfolding(crate::specs::Grammar::four_words))]
pub(crate) fn of_four<'a>(
    alloc: Global,
    name: &str,
    a: &'a str,
    b: &'a str,
    c: &'a str,
) -> Result<Command<'a>, LineError>
    ensures { ParsesAs request_of result (four_words name.now a.entry.now b.entry.now c.entry.now) }
{
    match name {
        "write" => of_write(alloc, a, b, c),
        "read" => of_read(a, b, c),
        "digest" => of_digest(a, b, c),
        "damage" => of_damage(a, b, c),
        _ => Err(LineError::BadLine),
    }
}
