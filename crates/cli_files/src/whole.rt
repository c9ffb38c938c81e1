// A file that is written whole or not at all.
ghost use Rattle.std.specs.Prelude.{◌≤◌};

use crate::paths::PATH_MAX;
use crate::{Console, Place, paths};
use std::fs::{File, Files, OpenFile, OpenOptions};
use std::io::Write;
use std::random::RandomSource;
use std::{fs, io};

fn letter(b: u8) -> u8 {
    b'a' + b % 26
}

// Six letters by chance, so that no other file beside this one has the name.
fn put_letters(rt: &impl RandomSource, name: &mut [u8; PATH_MAX], at: usize) -> usize
    ensures { result ≤ PATH_MAX }
{
    let mut b = [0u8; 6];
    let _ = rt.fill_bytes(&mut b);
    paths::put(name, at, &b.map(letter))
}

// The name of the new file beside an old one.
fn name_new(rt: &impl RandomSource, path: &[u8], name: &mut [u8; PATH_MAX]) -> usize
    ensures { result ≤ PATH_MAX }
{
    let n = paths::put(name, 0, path);
    let e = paths::put(name, n, b".new-");
    put_letters(rt, name, e)
}

fn is_link(rt: &impl Files, path: &[u8]) -> bool {
    let Ok(path) = paths::text_of(path) else {
        return false;
    };
    match fs::symlink_metadata(rt, path) {
        Ok(found) => found.is_symlink(),
        Err(_) => false,
    }
}

// A file that stands there, for reading and writing.
fn open_update<R: Files>(rt: &R, path: &[u8]) -> io::Result<R::File> {
    OpenOptions::new()
        .read(true)
        .write(true)
        .open(rt, paths::text_of(path)?)
}

// What cannot be replaced by a file beside it is written in place: a link, a device, a pipe. The system syncs no device or pipe.
fn is_in_place(rt: &impl Files, path: &[u8]) -> bool {
    if is_link(rt, path) {
        return true;
    }
    match open_update(rt, path) {
        Ok(file) => file.sync_all().is_err(),
        Err(why) => why.raw_os_error() != Some(crate::ENOENT),
    }
}

// What stands in the file goes before the bytes are written.
fn overwrite(rt: &impl Files, path: &[u8], bytes: &[u8]) -> io::Result<()> {
    let mut file = File::create(rt, paths::text_of(path)?)?;
    file.write_all(bytes)
}

// A file of a name that no other has.
fn create<R: Files>(rt: &R, path: &[u8]) -> io::Result<R::File> {
    OpenOptions::new()
        .write(true)
        .create_new(true)
        .open(rt, paths::text_of(path)?)
}

// All bytes have reached the device.
fn store<F: Write + OpenFile + Drop>(mut file: F, bytes: &[u8]) -> io::Result<()> {
    file.write_all(bytes)?;
    file.sync_all()
}

fn rename(rt: &impl Files, new: &[u8], path: &[u8]) -> io::Result<()> {
    fs::rename(rt, paths::text_of(new)?, paths::text_of(path)?)
}

fn remove(rt: &impl Files, path: &[u8]) {
    if let Ok(path) = paths::text_of(path) {
        let _ = fs::remove_file(rt, path);
    }
}

// Whether a file was written. Where it was not, the reason is told.
fn is_written(
    console: &Console,
    script: &[u8],
    place: Place,
    path: &[u8],
    done: &io::Result<()>,
) -> bool {
    if let Err(why) = done {
        crate::unwritable_at(console, script, place, path, why);
    }
    done.is_ok()
}

// Writes a file: to a new one beside it, which then takes its name. The old file stands until the new one is complete. Where that fails, the reason is
// told, and then the new file is removed.
pub fn write<R: Files + RandomSource>(
    rt: &R,
    console: &Console,
    script: &[u8],
    place: Place,
    path: &[u8],
    bytes: &[u8],
) -> bool {
    if is_in_place(rt, path) {
        return is_written(console, script, place, path, &overwrite(rt, path, bytes));
    }
    let mut name = [0u8; PATH_MAX];
    let n = name_new(rt, path, &mut name);
    let new = &name[..n];
    let file = match create(rt, new) {
        Ok(file) => file,
        Err(why) => return is_written(console, script, place, path, &Err(why)),
    };
    let done = store(file, bytes).and_then(|()| rename(rt, new, path));
    let written = is_written(console, script, place, path, &done);
    if !written {
        remove(rt, new);
    }
    written
}
