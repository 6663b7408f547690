//! Paths in room that was taken once.
ghost use Rattle.std.specs.Prelude.{◌≡◌, ◌++◌, ◌+◌, ◌<◌, ◌↔◌, [], length, IfOk, IsTrue, if◌then◌else◌};
ghost use Rattle.cv_system.specs.Names.{path_of};

use crate::names::way_part;
use std::alloc::{AllocError, Global};
use std::marker::Model;

/// The room for a path. The system takes no longer one.
pub const PATH_ROOM: usize = 4_096;

/// A path of less than `PATH_ROOM` bytes. Its constructor takes the memory for each; no other call takes any.
#[derive(Drop)]
pub struct PathBuffer {
    text: String,
}

impl Model for PathBuffer {
    ghost use Rattle.std.specs.Prelude.{List, ℕ, ◌≤◌, ◌<◌, length};
    ghost use Rattle.std.specs.String.{string_bytes, string_capacity};
    ghost use Rattle.cv_system.specs.declared.path_buffer.TheConstants.{PATH_ROOM};

    ghost Value = { List ℕ };

    ghost view = { λ path. string_bytes path.text };

    ghost invariant = { λ path. (PATH_ROOM ≤ string_capacity path.text) × (length (string_bytes path.text) < PATH_ROOM) };
}

impl PathBuffer {
    /// The empty path, which is none.
    pub fn new(alloc: Global) -> Result<PathBuffer, AllocError>
        ensures { IfOk result (λ made. made ≡ []) }
    {
        Ok(PathBuffer {
            text: String::with_capacity(alloc, PATH_ROOM)?,
        })
    }

    /// The path.
    pub fn as_str(&self) -> &str
        ensures path { result.now ≡ self.now }
        ensures fits { length result.now < PATH_ROOM }
    {
        self.text.as_str()
    }

    /// No path any more.
    pub fn clear(&mut self)
        ensures { self.new ≡ [] }
    {
        self.text.clear();
    }

    /// Sets a path that the system takes.
    pub fn copy(&mut self, path: &str)
        requires { length path.now < PATH_ROOM }
        ensures { self.new ≡ path.now }
    {
        self.text.clear();
        let _ = self.text.push_str(path);
    }

    /// Sets the path of what stands so in a folder, and answers whether the system takes a path of that length. If not, it is
    /// what it was.
    pub fn set(&mut self, folder: &str, rest: &str) -> bool
        ensures fits { IsTrue result ↔ (length folder.now + length rest.now < PATH_ROOM) }
        ensures path { self.new ≡ (if result then folder.now ++ rest.now else self.old) }
    {
        if folder.len() + rest.len() >= PATH_ROOM {
            return false;
        }
        self.text.clear();
        self.text.push_str(folder).is_ok() && self.text.push_str(rest).is_ok()
    }

    /// Sets a path of three parts, and answers as `set` does.
    fn set_three(&mut self, folder: &str, between: &str, rest: &str) -> bool
        ensures fits { IsTrue result
            ↔ (length folder.now + length between.now + length rest.now < PATH_ROOM) }
        ensures path { self.new
            ≡ (if result then folder.now ++ (between.now ++ rest.now) else self.old) }
    {
        let front = folder.len() + between.len();
        if front >= PATH_ROOM || front + rest.len() >= PATH_ROOM {
            return false;
        }
        self.text.clear();
        self.text.push_str(folder).is_ok()
            && self.text.push_str(between).is_ok()
            && self.text.push_str(rest).is_ok()
    }

    /// Sets the path of a name below a folder, whose path has no slash at its end, and answers as `set` does.
    pub fn set_below(&mut self, folder: &str, name: &str) -> bool
        ensures fits { IsTrue result ↔ (length (path_of folder.now name.now) < PATH_ROOM) }
        ensures path { self.new ≡ (if result then path_of folder.now name.now else self.old) }
    {
        match way_part(name) {
            Some(part) => self.set_three(folder, "/.cvkit-txn-", part),
            None => self.set_three(folder, "/", name),
        }
    }
}
