//! What the lines of a shell tell.
//!
//! The functions do nothing. Their contracts hold of all lists of lines.
ghost use Rattle.cv_shell.specs.Tells.{LinesTell};

/// Lines that were answered by a client that was pinned at a manifest tell what is so in its tree, or, behind a renewal that was
/// taken, in the tree of that manifest; or they blame what the server gave in an exchange of that line. Where each link sent what
/// a server has, which is all that a line wants, no server is blamed, a manifest is taken unless the renewal refuses it, and no
/// bad reply ends the shell.
pub fn lines_tell_of_the_tree()
    ensures { LinesTell }
{}
