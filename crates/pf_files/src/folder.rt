//! The sources of a folder.

ghost use Rattle.std.specs.Prelude.{◌≡◌, IfOk};
ghost use Rattle.std.specs.String.{string_bytes};
ghost use Rattle.pf_files.specs.Suites.{IsPathOf, is_looked_at};

use crate::names::read_word;
use pf_errors::{NoMemory, OrNoMemory};
use pf_streams::StreamFault;
use std::alloc::{AllocGlobal, Global};
use std::fs::{self, Files};
use std::io::{self, Read};

/// In how many steps the names of a folder are read at most, each of so many bytes.
const MOST_READS: u32 = 4_096;

/// The bytes of a step; the longest name fits in them.
const CHUNK: usize = 4_096;

/// How many folders below one are looked into at most.
const MOST_FOLDERS: u32 = 65_536;

/// Whether a name is that of a folder.
pub fn is_folder(rt: &impl Files, name: &str) -> bool {
    !name.contains('\0') && matches!(fs::metadata(rt, name), Ok(found) if found.is_dir())
}

/// Whether what has this name is hunted as a file of a folder: it is a file, or can't be looked at.
fn may_be_file(rt: &impl Files, name: &str) -> bool {
    name.contains('\0') || fs::metadata(rt, name).map_or(true, |found| found.is_file())
}

/// Whether what has this name is a folder that isn't reached by a link, so that no folder is gone into twice.
fn is_folder_below(rt: &impl Files, name: &str) -> bool {
    !name.contains('\0') && matches!(fs::symlink_metadata(rt, name), Ok(found) if found.is_dir())
}

/// Whether what has this name in a folder is looked at: not what a build leaves, nor what begins with a dot.
fn is_looked_at(name: &[u8]) -> bool
    ensures { result ≡ is_looked_at name.now }
{
    match name.first() {
        Some(first) => *first != b'.' && name != b"_build".as_slice(),
        None => false,
    }
}

/// The bytes that a folder has for its names, each with a NUL after it.
fn names_in(
    alloc: Global,
    mut folder: impl Read + Drop,
) -> Result<Vec<u8>, OrNoMemory<StreamFault>> {
    let mut names = Vec::new(alloc);
    let mut buf = [0u8; CHUNK];
    for _ in 0..MOST_READS {
        let count = match folder.read(&mut buf) {
            Ok(count) => count,
            Err(error) => return Err(OrNoMemory::Fault(StreamFault::Read(error))),
        };
        if count == 0 {
            return Ok(names);
        }
        names.extend_from_slice(&buf[..count])?;
    }
    let error = io::Error::new(io::ErrorKind::Other, "the folder has too many names");
    Err(OrNoMemory::Fault(StreamFault::Read(error)))
}

/// The name of a folder with a slash after it.
fn with_slash(alloc: Global, folder: &str) -> Result<String, NoMemory>
    ensures { IfOk result (λ path. IsPathOf folder.now (string_bytes path)) }
{
    let mut path = String::from_str(alloc, folder)?;
    if !path.ends_with('/') {
        path.push('/')?;
    }
    Ok(path)
}

/// What is found below a folder so far: files, and folders that are still to be looked into.
#[derive(Drop)]
struct Found {
    files: Vec<String>,
    folders: Vec<String>,
}

impl Found {
    /// Adds what has this name in a folder, if it is a file that is hunted or a folder that is looked into.
    fn add<R: Files + AllocGlobal>(
        &mut self,
        rt: &R,
        folder: &str,
        name: &[u8],
    ) -> Result<(), NoMemory> {
        if !is_looked_at(name) {
            return Ok(());
        }
        let mut path = String::from_str(rt.alloc(), folder)?;
        path.push_str(&read_word(rt.alloc(), name)?)?;
        if is_folder_below(rt, &path) {
            self.folders.push(path)?;
        } else if name.ends_with(b".erl") && may_be_file(rt, &path) {
            self.files.push(path)?;
        }
        Ok(())
    }

    /// Adds what is in this folder.
    fn look_into<R: Files + AllocGlobal>(
        &mut self,
        rt: &R,
        folder: &str,
    ) -> Result<(), OrNoMemory<StreamFault>> {
        let alloc = rt.alloc();
        let path = with_slash(alloc, folder)?;
        let names = match rt.open_dir(&path) {
            Ok(opened) => names_in(alloc, opened)?,
            Err(error) => return Err(OrNoMemory::Fault(StreamFault::Read(error))),
        };
        for name in names.split(|byte| *byte == 0) {
            self.add(rt, &path, name)?;
        }
        Ok(())
    }
}

/// The files of a folder and of those below it whose names end in `.erl`, each after the folder's name, in the order of
/// the bytes of these names.
pub fn files_in<R: Files + AllocGlobal>(
    rt: &R,
    folder: &str,
) -> Result<Vec<String>, OrNoMemory<StreamFault>> {
    let alloc = rt.alloc();
    let (files, folders) = (Vec::new(alloc), Vec::new(alloc));
    let mut found = Found { files, folders };
    found.look_into(rt, folder)?;
    for _ in 0..MOST_FOLDERS {
        let Some(below) = found.folders.pop() else {
            found.files.sort_unstable();
            return Ok(found.files);
        };
        found.look_into(rt, &below)?;
    }
    let error = io::Error::new(io::ErrorKind::Other, "too many folders are below it");
    Err(OrNoMemory::Fault(StreamFault::Read(error)))
}
