//! Finds an output of a run that is another of its files.
//!
//! A run empties its outputs before it reads its captures. So a run is refused before it opens a file if an output is a
//! capture, the ruleset, a file that a flag names for it, or another output, by whatever name. Standard output may stand for
//! one output.
ghost use Rattle.std.specs.Prelude.{◌≡◌, [], ◌∷◌, ◌++◌, Contains, IfOk, IfSome, if◌then◌else◌};

use crate::standard::is_standard;
use pfr_values::CaptureWords;
use std::alloc::AllocError;
use std::fs::Metadata;
use std::io::ErrorKind;
use std::os::unix::fs::MetadataExt;
use std::path::PathBuf;
use std::rt::Files;
use std::{fs, io};

/// How many symbolic links Linux follows in one path.
const MOST_LINKS: u32 = 40;

/// Identifies a regular file, or standard output.
#[derive(Drop, PartialEq)]
enum FileIdentity {
    /// Standard output, whatever it is.
    StandardOutput,
    /// A file that exists.
    Existing(Location),
    /// A file that doesn't exist yet: the folder in which it would be made, and its name there.
    Missing { folder: Location, name: String },
}

/// Where a file or a folder is.
#[derive(Drop, PartialEq)]
enum Location {
    /// On this device, at this inode.
    Inode { device: u64, inode: u64 },
    /// At this absolute path, which has no links.
    Path(PathBuf),
}

/// The name of the first of a run's outputs that is a capture, another of the files that it reads, or an output before it. Only regular
/// files are compared, and files that don't exist yet. A file that can't be looked at equals none.
pub fn repeated_output<'a, R: Files + AllocGlobal>(
    rt: &R,
    captures: &[CaptureWords<'_>],
    inputs: &[&str],
    outputs: &[&'a str],
) -> Result<Option<&'a str>, AllocError>
    ensures { IfOk result (λ repeated. IfSome repeated (Contains outputs.now)) }
{
    let mut files = Vec::new(rt.alloc());
    repeated_among(rt, &mut files, captures, inputs, outputs)
}

/// The same, with an empty list that is filled with the files of the run.
fn repeated_among<'a, R: Files + AllocGlobal>(
    rt: &R,
    files: &mut Vec<FileIdentity>,
    captures: &[CaptureWords<'_>],
    inputs: &[&str],
    outputs: &[&'a str],
) -> Result<Option<&'a str>, AllocError>
    ensures { IfOk result (λ repeated. IfSome repeated (Contains outputs.now)) }
{
    add_captures(rt, files, captures)?;
    add_inputs(rt, files, inputs)?;
    first_repeated(rt, files, outputs)
}

/// The name of the first output that is one of these files or an output before it. The outputs before it are added to the
/// files.
fn first_repeated<'a, R: Files + AllocGlobal>(
    rt: &R,
    files: &mut Vec<FileIdentity>,
    names: &[&'a str],
) -> Result<Option<&'a str>, AllocError>
    ensures { IfOk result (λ repeated. IfSome repeated (Contains names.now)) }
{
    for name in names {
        if is_repeated(rt, files, name)? {
            return Ok(Some(*name));
        }
    }
    Ok(None)
}

/// Whether an output is one of these files. If it isn't, it is added to them.
fn is_repeated<R: Files + AllocGlobal>(
    rt: &R,
    files: &mut Vec<FileIdentity>,
    name: &str,
) -> Result<bool, AllocError> {
    match output_identity(rt, name)? {
        Some(file) => is_among(files, file),
        None => Ok(false),
    }
}

/// Whether a file is one of some files. If it isn't, it is added to them.
fn is_among(files: &mut Vec<FileIdentity>, file: FileIdentity) -> Result<bool, AllocError>
    ensures { IfOk result (λ is_there. files.new.items ≡ (if is_there then files.old.items else files.old.items ++ file ∷ [])) }
{
    if files.contains(&file) {
        return Ok(true);
    }
    files.push(file)?;
    Ok(false)
}

/// Adds the files of captures, if they exist. Standard input is none of them.
fn add_captures<R: Files + AllocGlobal>(
    rt: &R,
    files: &mut Vec<FileIdentity>,
    captures: &[CaptureWords<'_>],
) -> Result<(), AllocError> {
    for words in captures {
        if !is_standard(words.capture) {
            add_input(rt, files, words.capture)?;
        }
    }
    Ok(())
}

/// Adds files that are read, if they exist.
fn add_inputs<R: Files + AllocGlobal>(
    rt: &R,
    files: &mut Vec<FileIdentity>,
    names: &[&str],
) -> Result<(), AllocError> {
    for name in names {
        add_input(rt, files, name)?;
    }
    Ok(())
}

/// Adds a file that is read, if it exists.
fn add_input<R: Files + AllocGlobal>(
    rt: &R,
    files: &mut Vec<FileIdentity>,
    name: &str,
) -> Result<(), AllocError> {
    let Ok(metadata) = fs::metadata(rt, name) else {
        return Ok(());
    };
    if let Some(file) = existing(rt, name, &metadata)? {
        files.push(file)?;
    }
    Ok(())
}

/// The identity of what an output is written to, if it can be looked at.
fn output_identity<R: Files + AllocGlobal>(
    rt: &R,
    name: &str,
) -> Result<Option<FileIdentity>, AllocError> {
    if is_standard(name) {
        return Ok(Some(FileIdentity::StandardOutput));
    }
    identity_of(rt, name)
}

/// The identity of the file that would be written at a path, if it can be looked at.
fn identity_of<R: Files + AllocGlobal>(
    rt: &R,
    path: &str,
) -> Result<Option<FileIdentity>, AllocError> {
    match fs::metadata(rt, path) {
        Ok(metadata) => existing(rt, path, &metadata),
        Err(error) => match error.kind() {
            ErrorKind::NotFound => missing(rt, path),
            _ => Ok(None),
        },
    }
}

/// The identity of a file that exists, if it is a regular file.
fn existing<R: Files + AllocGlobal>(
    rt: &R,
    path: &str,
    metadata: &Metadata,
) -> Result<Option<FileIdentity>, AllocError> {
    if !metadata.is_file() {
        return Ok(None);
    }
    match location_of(rt, path, metadata)? {
        Some(location) => Ok(Some(FileIdentity::Existing(location))),
        None => Ok(None),
    }
}

/// The identity of a file that doesn't exist yet, if its folder does.
fn missing<R: Files + AllocGlobal>(rt: &R, path: &str) -> Result<Option<FileIdentity>, AllocError> {
    let path = end_of_links(rt, path)?;
    let (folder, name) = folder_and_name(path.as_str());
    match fs::metadata(rt, folder) {
        Ok(metadata) => missing_in(rt, folder, &metadata, name),
        Err(_) => Ok(None),
    }
}

/// The identity of a file that doesn't exist yet, in a folder that does. No file has an empty name.
fn missing_in<R: Files + AllocGlobal>(
    rt: &R,
    folder: &str,
    metadata: &Metadata,
    name: &str,
) -> Result<Option<FileIdentity>, AllocError> {
    if name.is_empty() {
        return Ok(None);
    }
    let name = String::from_str(rt.alloc(), name)?;
    match location_of(rt, folder, metadata)? {
        Some(folder) => Ok(Some(FileIdentity::Missing { folder, name })),
        None => Ok(None),
    }
}

/// Where a file or a folder is. Its path is looked up only if the system reports no inode, for which std has 0.
fn location_of<R: Files + AllocGlobal>(
    rt: &R,
    path: &str,
    metadata: &Metadata,
) -> Result<Option<Location>, AllocError> {
    match metadata.ino() {
        0 => match reported(fs::canonicalize(rt, path))? {
            Some(path) => Ok(Some(Location::Path(path))),
            None => Ok(None),
        },
        inode => {
            let device = metadata.dev();
            Ok(Some(Location::Inode { device, inode }))
        }
    }
}

/// The path at which the system would make a file: where the symbolic links end that begin at a path.
fn end_of_links<R: Files + AllocGlobal>(rt: &R, path: &str) -> Result<PathBuf, AllocError> {
    let mut path = PathBuf::from_str(rt.alloc(), path)?;
    for _link in 0..MOST_LINKS {
        match reported(fs::read_link(rt, path.as_str()))? {
            Some(target) => path.set_file_name(target.as_str())?,
            None => break,
        }
    }
    Ok(path)
}

/// The folder in a path, and the name behind it, which is empty if the path ends in a slash.
fn folder_and_name(path: &str) -> (&str, &str) {
    match path.rsplit_once('/') {
        Some((folder, name)) if folder.is_empty() => ("/", name),
        Some((folder, name)) => (folder, name),
        None => (".", path),
    }
}

/// The path that the system reports, if it reports one.
fn reported(path: io::Result<PathBuf>) -> Result<Option<PathBuf>, AllocError> {
    match path {
        Ok(path) => Ok(Some(path)),
        Err(error) => match error.kind() {
            ErrorKind::OutOfMemory => Err(AllocError),
            _ => Ok(None),
        },
    }
}
