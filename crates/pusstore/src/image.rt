// The file of a device: opened, or made, and used by this program alone.
ghost use Rattle.std.specs.Prelude.{◌≤◌};

use image_board::{blocks_of, make_blank};
use std::fs::{self, File, OpenOptions};
use std::io::{self, ErrorKind};
use std::os::fd::AsRawFd;
use std::os::unix::fs::MetadataExt;
use std::path::Path;

/// The blocks of a file that is made.
const NEW_BLOCKS: u32 = 64;

/// The greatest number of a standard stream.
const LAST_STREAM: i32 = 2;

/// The file of a device, which this program alone uses.
#[derive(Drop)]
pub struct Image {
    pub file: File,
    /// How many blocks of 65,536 octets there are.
    pub blocks: u32,
    ghost least: { 16 ≤ blocks },
    ghost most: { blocks ≤ 512 },
}

/// Opens the file at a path, or makes it with 64 erased blocks if it is absent and may be made. It is
/// locked, its length is that of a device, and all that it holds is durable, its name in its folder too.
/// Each error means that the file cannot be used, but `OutOfMemory` that memory is missing.
pub fn open_image(rt: &HostRuntime, path: &str, may_make: bool) -> io::Result<Image> {
    let folder = folder_of(rt, path)?;
    let file = match open_locked(rt, path, false) {
        Err(error) if may_make && error.kind() == ErrorKind::NotFound => make_file(rt, path)?,
        opened => opened?,
    };
    let Some(blocks) = blocks_of(file.metadata()?.len()) else {
        return Err(ErrorKind::InvalidData.into());
    };
    // A program that ended between a write and its barrier left pages that no session may rely on yet.
    file.sync_all()?;
    folder.sync_all()?;
    Ok(Image { file, blocks })
}

// The folder that a path lies in.
fn folder_of(rt: &HostRuntime, path: &str) -> io::Result<File> {
    match Path::new(path).parent() {
        Some(folder) if !folder.as_os_str().is_empty() => File::open(rt, folder),
        _ => File::open(rt, "."),
    }
}

// Opens a file, or makes an empty one if it is absent and this is wanted. If another program has it
// locked this fails.
fn open_locked(rt: &HostRuntime, path: &str, create: bool) -> io::Result<File> {
    let file = OpenOptions::new()
        .read(true)
        .write(true)
        .create(create)
        .open(rt, path)?;
    // What is meant for a standard stream that was closed must not land in the file.
    let file = if file.as_raw_fd() <= LAST_STREAM {
        file.try_clone()?
    } else {
        file
    };
    file.try_lock()?;
    // By now the name may be that of another file. A file that is made is not made through a link.
    let named = if create {
        fs::symlink_metadata(rt, path)?
    } else {
        fs::metadata(rt, path)?
    };
    let held = file.metadata()?;
    if held.dev() != named.dev() || held.ino() != named.ino() {
        return Err(ErrorKind::AlreadyExists.into());
    }
    Ok(file)
}

// Makes the file of a device. It is made under another name and renamed when it is whole and durable, so
// what a power loss leaves of it is in nobody's way.
fn make_file(rt: &HostRuntime, path: &str) -> io::Result<File> {
    let making = format!(in rt.alloc(); "{path}.pusstore-new")?;
    let file = open_locked(rt, making.as_str(), true)?;
    if let Err(error) = fill(rt, &file, making.as_str(), path) {
        let _ = fs::remove_file(rt, making.as_str());
        return Err(error);
    }
    Ok(file)
}

// Erases the blocks of a file that is being made, and gives it its name.
fn fill(rt: &HostRuntime, file: &File, making: &str, path: &str) -> io::Result<()> {
    // Another program may have made it since, or a link leads to no file.
    if fs::symlink_metadata(rt, path).is_ok() {
        return Err(ErrorKind::AlreadyExists.into());
    }
    make_blank(file, NEW_BLOCKS)?;
    fs::rename(rt, making, path)
}
