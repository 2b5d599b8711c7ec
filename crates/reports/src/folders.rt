//! The folders that a program is asked about, and their files.
ghost use Rattle.std.specs.Prelude.{◌≢◌, ◌≤◌, IfOk, IfErr, vec_len};
ghost use Rattle.std.specs.IoError.{error_kind};
ghost use Rattle.std.specs.declared.io.ErrorKind.TheVariants.{NotFound};

use std::io::ErrorKind;
use std::rt::{Env, Files};
use std::{env, fs, io};

/// The folders that the arguments name, and the working directory where they name none.
pub fn folders<R: Env + AllocGlobal>(rt: &R) -> io::Result<Vec<String>>
    ensures { IfOk result (λ folders. 1 ≤ vec_len folders) }
{
    let mut folders: Vec<String> = env::args(rt)?.skip(1).collect(rt.alloc())?;
    if folders.is_empty() {
        folders.push(String::from_str(rt.alloc(), ".")?)?;
    }
    Ok(folders)
}

/// The bytes of a file of the folder, or none where the folder has no such file. No clause can say what a file holds: what is promised is that a missing file is no error.
pub fn bytes_in<R: Files + AllocGlobal>(
    rt: &R,
    folder: &str,
    name: &str,
) -> io::Result<Option<Vec<u8>>>
    ensures { IfErr result (λ error. error_kind error ≢ NotFound) }
{
    // the words for want of memory that all programs have, as for their tables
    let path = format!(in rt.alloc(); "{folder}/{name}").map_err(|_| io::Error::new(
        ErrorKind::OutOfMemory,
        "memory allocation failed",
    ))?;
    // a match and no `?`, which would hand every error on: a missing file is none
    match fs::read(rt, path.as_str()) {
        Ok(bytes) => Ok(Some(bytes)),
        Err(error) if error.kind() == ErrorKind::NotFound => Ok(None),
        Err(error) => Err(error),
    }
}

/// The same, where a missing file stands for an empty one.
pub fn bytes_or_empty<R: Files + AllocGlobal>(
    rt: &R,
    folder: &str,
    name: &str,
) -> io::Result<Vec<u8>>
    ensures { IfErr result (λ error. error_kind error ≢ NotFound) }
{
    Ok(bytes_in(rt, folder, name)?.unwrap_or(Vec::new(rt.alloc())))
}
