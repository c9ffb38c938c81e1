// Paths of files that a script names.
ghost use Rattle.std.specs.Prelude.{◌≡◌, ◌≤◌, length};

use std::io::Error;
use std::{io, str};

// A path has fewer bytes than this.
pub const PATH_MAX: usize = 4096;

// A path as text, which is what the system's calls take here.
pub fn text_of(path: &[u8]) -> io::Result<&str> {
    if PATH_MAX <= path.len() {
        return Err(Error::from_raw_os_error(crate::ENAMETOOLONG));
    }
    if path.contains(&0) {
        return Err(Error::from_raw_os_error(crate::EINVAL));
    }
    str::from_utf8(path).map_err(|_| Error::from_raw_os_error(crate::EILSEQ))
}

// What of a path names its folder, the last slash included.
fn folder(path: &[u8]) -> &[u8] {
    match path.iter().rposition(|&b| b == b'/') {
        Some(i) => &path[..i + 1],
        None => b"",
    }
}

// As much of a text as fits behind the first bytes of a path, and how many there are then. A path that fills its buffer is too long for the system.
pub fn put(path: &mut [u8; PATH_MAX], behind: usize, text: &[u8]) -> usize
    ensures same_length { length path.new ≡ length path.old }
    ensures fits { result ≤ PATH_MAX }
{
    let at = behind.min(PATH_MAX);
    let n = text.len().min(PATH_MAX - at);
    path[at..at + n].copy_from_slice(&text[..n]);
    at + n
}

// The path of a file that a script names, and how many bytes it has: what is not absolute is relative to the script's folder.
pub fn beside(script: &[u8], name: &[u8], path: &mut [u8; PATH_MAX]) -> usize
    ensures { result ≤ PATH_MAX }
{
    if name.starts_with(b"/") {
        return put(path, 0, name);
    }
    let n = put(path, 0, folder(script));
    put(path, n, name)
}
