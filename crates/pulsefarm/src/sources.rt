//! Where the clients of a farm have their streams: files that words name, and files of replies in a folder.

ghost use Rattle.std.specs.Prelude.{◌≡◌, IfErr, IfNone, IfOk, IfSome, map, option_map};
ghost use Rattle.std.specs.String.{string_bytes};
ghost use Rattle.pf_clients.specs.Pairs.{EachTwo};
ghost use Rattle.pulsefarm.specs.Sources.{path_of, reply_path, GivesStreams, IsRefused, IsSource, LacksFile};
ghost use Rattle.pulsefarm.specs.Sources.{LacksStream};

use crate::opening::Opens;
use pf_cli_messages::{failed, say};
use pf_clients::{ClientStreams, Source};
use pf_errors::{NoMemory, OrNoMemory};
use pf_streams::StreamFault;
use std::alloc::{AllocGlobal, Global};
use std::io;

/// Where a client has its streams.
#[derive(Drop)]
pub struct ClientPaths<'a, R: Opens> {
    system: &'a R,
    /// The word that names its file.
    name: &'a str,
    /// Its file, if it was opened before the farm began.
    file: Option<R::Stream>,
    /// The path of the file of its replies, if they aren't kept.
    replies: Option<String>,
}

/// The path that a word names.
fn path_of(word: &str) -> &str
    ensures { result.now ≡ path_of word.now }
{
    if word == "-" { "/dev/stdin" } else { word }
}

/// The path of the replies to the client of this number in a folder.
fn reply_path(alloc: Global, folder: &str, number: u64) -> Result<String, NoMemory>
    ensures { IfOk result (λ path. string_bytes path ≡ reply_path folder.now number) }
{
    Ok(format!(in alloc; "{folder}/{number}")?)
}

impl<'a, R: Opens> Source for ClientPaths<'a, R> {
    type File = R::Stream;

    type Replies = R::Stream;

    ghost gives = { λ x streams. GivesStreams R.opens R.makes x.name.now x.file
        (option_map (λ s. string_bytes s) x.replies) streams };

    ghost lacks = { λ x fault. LacksStream R.refuses R.bars x.name.now x.file
        (option_map (λ s. string_bytes s) x.replies) fault };

    /// Makes the file of the replies before it waits for who opens the other end of its FIFO.
    fn open(self) -> Result<ClientStreams<R::Stream, R::Stream>, StreamFault> {
        let ClientPaths {
            system,
            name,
            file,
            replies,
        } = self;
        let replies = match replies {
            Some(path) => match system.make_path(&path) {
                Ok(file) => Some(file),
                Err(error) => return Err(StreamFault::Write(error)),
            },
            None => None,
        };
        let file = match file {
            Some(file) => file,
            None => match system.open_path(path_of(name)) {
                Ok(file) => file,
                Err(error) => return Err(StreamFault::Read(error)),
            },
        };
        Ok(ClientStreams { file, replies })
    }
}

/// A word has no file.
#[derive(Clone, Copy)]
struct NoFile;

/// Opens the file of a word. If it can't be opened, that is said.
fn opened<R>(rt: &R, name: &str) -> Result<R::Stream, OrNoMemory<NoFile>>
where
    R: Opens + Print + Eprint,
    ensures file { IfOk result (λ file. R.opens (path_of name.now) file) }
    ensures refused { IfErr result (λ e. IsRefused R.refuses name.now e) }
{
    match rt.open_path(path_of(name)) {
        Ok(file) => Ok(file),
        Err(error) if error.kind() == io::ErrorKind::OutOfMemory => Err(OrNoMemory::NoMemory),
        Err(error) => {
            failed(rt, Some(name), &StreamFault::Read(error));
            Err(OrNoMemory::Fault(NoFile))
        }
    }
}

/// Where the client of this number has its streams, whose file a word names: its replies go to the folder, if one is
/// named. Else its file is opened here, and if it can't be opened, that is said.
fn source<'a, R>(
    rt: &'a R,
    folder: Option<&str>,
    number: u64,
    name: &'a str,
) -> Result<ClientPaths<'a, R>, OrNoMemory<NoFile>>
where
    R: Opens + Print + Eprint + AllocGlobal,
    ensures source { IfOk result (λ x. IsSource R.opens (option_map (λ s. s.now) folder.entry) number name.now
        x.name.now x.file (option_map (λ s. string_bytes s) x.replies)) }
    ensures refused { IfErr result (λ e. IsRefused R.refuses name.now e) }
{
    let (file, replies) = match folder {
        Some(folder) => (None, Some(reply_path(rt.alloc(), folder, number)?)),
        None => (Some(opened(rt, name)?), None),
    };
    Ok(ClientPaths {
        system: rt,
        name,
        file,
        replies,
    })
}

/// Where all clients have their streams; none, if a word has no file, which is said then. `-` names the standard input.
pub fn sources<'a, R>(
    rt: &'a R,
    folder: Option<&str>,
    names: &'a [&'a str],
) -> Result<Option<Vec<ClientPaths<'a, R>>>, NoMemory>
where
    R: Opens + Print + Eprint + AllocGlobal,
    ensures sources { IfOk result (λ sources. IfSome sources (λ v. EachTwo (λ k w x.
        IsSource R.opens (option_map (λ s. s.now) folder.entry) k w x.name.now x.file
        (option_map (λ s. string_bytes s) x.replies)) 1 (map (λ w. w.now) names.now) v.items)) }
    ensures none { IfOk result (λ sources. IfNone sources (LacksFile R.refuses (map (λ w. w.now) names.now))) }
{
    let mut sources = Vec::new(rt.alloc());
    let mut is_read = false;
    let mut number: u64 = 0;
    'names: for name in names {
        let is_input = *name == "-";
        if is_input && is_read {
            say(rt, "the standard input can be the file of one client only");
            return Ok(None);
        }
        is_read |= is_input;
        number += 1;
        match source(rt, folder, number, name) {
            Ok(source) => sources.push(source)?,
            Err(OrNoMemory::Fault(NoFile)) => return Ok(None),
            Err(OrNoMemory::NoMemory) => return Err(NoMemory),
        }
    }
    Ok(Some(sources))
}
