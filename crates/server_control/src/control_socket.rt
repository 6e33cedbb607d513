//! The file of the socket.

use std::alloc::{AllocError, Global};
use std::fs;
use std::io::{self, ErrorKind};
use std::net::Net;
use std::os::fd::{AsFd, AsRawFd};
use std::os::unix::fs::{FileTypeExt, MetadataExt};
use std::os::unix::net::{SocketAddr, UnixListener, UnixStream};
use std::rt::Files;

/// Only the owner of the server's process may connect.
const MODE: u32 = 0o600;

/// So many connections can wait to be accepted.
const WAITING: i32 = 16;

/// Why there is no control socket.
#[derive(Debug, Drop)]
pub enum NoControl {
    /// What stands there is no socket.
    Foreign,
    /// Somebody answers at the socket that stands there.
    Answered,
    /// The system refused it, or memory.
    Failed(io::Error),
}

impl From<io::Error> for NoControl {
    fn from(error: io::Error) -> NoControl {
        NoControl::Failed(error)
    }
}

impl From<AllocError> for NoControl {
    fn from(_error: AllocError) -> NoControl {
        NoControl::Failed(io::Error::from(ErrorKind::OutOfMemory))
    }
}

/// What stands at a path where a socket is to be.
#[derive(Clone, Copy, PartialEq, Eq)]
enum Standing {
    Nothing,
    /// A socket at which nobody answers: the process that made it was killed.
    Left,
}

/// A socket at which the operator is answered.
#[derive(Drop)]
pub struct ControlSocket {
    pub listener: UnixListener,
    path: String,
    device: u64,
    inode: u64,
}

impl ControlSocket {
    /// Makes the socket at a path, in place of one at which nobody answers. Refused as `may_be_put` does, or where the system refuses it.
    /// A refusal leaves what stands there as it was; but a socket that nobody answers may be gone.
    pub fn at<R: Files + Net>(
        rt: &R,
        alloc: Global,
        path: &str,
    ) -> Result<ControlSocket, NoControl> {
        let own = String::from_str(alloc, path)?;
        let listener = listen(rt, path)?;
        let made = fs::symlink_metadata(rt, path)?;
        Ok(ControlSocket {
            listener,
            path: own,
            device: made.dev(),
            inode: made.ino(),
        })
    }

    /// Removes the socket, if it still stands at its path.
    pub fn take_away<R: Files>(&self, rt: &R) {
        match fs::symlink_metadata(rt, self.path.as_str()) {
            Ok(there) if there.dev() == self.device && there.ino() == self.inode => {
                let _ = fs::remove_file(rt, self.path.as_str());
            }
            _ => {}
        }
    }
}

/// Makes a socket at a path, in place of one at which nobody answers, and listens there.
fn listen<R: Files + Net>(rt: &R, path: &str) -> Result<UnixListener, NoControl> {
    let address = SocketAddr::from_pathname(path)?;
    if look(rt, path)? == Standing::Left {
        fs::remove_file(rt, path)?;
    }
    let socket = rt.unix_socket()?;
    // Linux makes the file with the mode of the socket, so nobody else can connect meanwhile
    if libc::fchmod(socket.as_raw_fd(), MODE) != 0 {
        return Err(NoControl::Failed(io::Error::from(ErrorKind::Other)));
    }
    rt.bind_unix(socket.as_fd(), &address)?;
    if libc::net::listen(socket.as_raw_fd(), WAITING) != 0 {
        return Err(NoControl::Failed(io::Error::from(ErrorKind::Other)));
    }
    Ok(UnixListener::from(socket))
}

/// Whether a socket may be made at this path: nothing stands there, or a socket at which nobody answers. `Foreign` if something else stands
/// there, as a file, a folder, a pipe, or a link, which isn't followed. `Answered` if somebody answers at the socket there. `Failed` if the
/// path is empty or too long for a socket, or the system doesn't tell. Each leaves all as it was.
pub fn may_be_put<R: Files + Net>(rt: &R, path: &str) -> Result<(), NoControl> {
    SocketAddr::from_pathname(path)?;
    look(rt, path)?;
    Ok(())
}

/// Looks at what stands at a path.
fn look<R: Files + Net>(rt: &R, path: &str) -> Result<Standing, NoControl> {
    if path.is_empty() {
        return Err(NoControl::Failed(io::Error::from(ErrorKind::InvalidInput)));
    }
    let there = match fs::symlink_metadata(rt, path) {
        Ok(there) => there,
        Err(error) if error.kind() == ErrorKind::NotFound => return Ok(Standing::Nothing),
        Err(error) => return Err(NoControl::Failed(error)),
    };
    if !there.file_type().is_socket() {
        return Err(NoControl::Foreign);
    }
    match UnixStream::connect(rt, path) {
        Ok(_) => Err(NoControl::Answered),
        Err(error) if error.kind() == ErrorKind::ConnectionRefused => Ok(Standing::Left),
        Err(error) => Err(NoControl::Failed(error)),
    }
}
