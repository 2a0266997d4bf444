//! Users and projects: see the manual pages user and project.

ghost use Rattle.std.specs.Prelude.{◌≡◌, ◌++◌, ◌∷◌, [], IfOk, codes, decimal};
ghost use Rattle.ge_model_config.specs.People.{project_lines, user_lines};

use crate::lines::{put, put_names, put_number};
use ge_rows::{List, ProjectRow, Text, UserRow};
use std::alloc::{AllocError, Global};

/// The lines of a user.
pub(crate) fn print_user(
    alloc: Global,
    name: &Text,
    user: &UserRow,
) -> Result<List<Text>, AllocError>
    ensures { IfOk result (λ lines. lines ≡ user_lines name.now user.now) }
{
    let mut lines = List::new(alloc);
    put(alloc, &mut lines, b"name", name.bytes())?;
    put_number(alloc, &mut lines, b"oticket", user.oticket)?;
    put_number(alloc, &mut lines, b"fshare", user.fshare)?;
    Ok(lines)
}

/// The lines of a project.
pub(crate) fn print_project(
    alloc: Global,
    name: &Text,
    project: &ProjectRow,
) -> Result<List<Text>, AllocError>
    ensures { IfOk result (λ lines. lines ≡ project_lines name.now project.now) }
{
    let mut lines = List::new(alloc);
    put(alloc, &mut lines, b"name", name.bytes())?;
    put_number(alloc, &mut lines, b"oticket", project.oticket)?;
    put_number(alloc, &mut lines, b"fshare", project.fshare)?;
    put_names(alloc, &mut lines, b"acl", &project.acl)?;
    put_names(alloc, &mut lines, b"xacl", &project.xacl)?;
    Ok(lines)
}
