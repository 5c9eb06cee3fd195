//! Names of the system's files: whether two are those of one file, and where links lead.

use crate::failure::{Failure, Step, Trouble, failed};
use std::alloc::Alloc;
use std::fs::Metadata;
use std::io::ErrorKind;
use std::os::unix::fs::MetadataExt;
use std::rt::Files;
use std::{fs, io};

/// How many links are followed: as many as the system follows.
const MOST_LINKS: u32 = 40;

/// Why nothing is written through a link.
const NO_END: &str = "its links have no end, or one that they do not name";

/// The folder of a name, and the name in it.
pub(crate) fn parts_of(name: &str) -> (&str, &str) {
    match name.rsplit_once('/') {
        Some(("", last)) => ("/", last),
        Some((folder, last)) => (folder, last),
        None => (".", name),
    }
}

/// Whether two names lead to one and the same node of a file system.
pub(crate) fn is_one_node(found: &Metadata, other: &Metadata) -> bool {
    found.dev() == other.dev() && found.ino() == other.ino()
}

/// Whether a name is that of a link.
pub(crate) fn is_link<R: Files>(rt: &R, name: &str) -> bool {
    match fs::symlink_metadata(rt, name) {
        Ok(found) => found.is_symlink(),
        Err(_) => false,
    }
}

/// Where a link leads: to its text, which is counted from the link's folder unless it begins with a slash.
fn behind_link<R: Files + Alloc>(rt: &R, name: &str) -> Result<String<R::A>, Trouble> {
    let target = match fs::read_link(rt, name) {
        Ok(target) => target,
        Err(error) => return Err(failed(Step::Making, error)),
    };
    let text = target.as_str();
    let (folder, _) = parts_of(name);
    if text.starts_with('/') {
        Ok(format!(in rt.alloc(); "{text}")?)
    } else {
        Ok(format!(in rt.alloc(); "{folder}/{text}")?)
    }
}

/// The links of a name have no end, or one that cannot be named.
fn no_end() -> Trouble {
    failed(Step::Making, io::Error::new(ErrorKind::Other, NO_END))
}

/// The name that is no link to which links lead from this one; none where there are more of them than the system follows.
fn behind_links<R: Files + Alloc>(rt: &R, name: &str) -> Result<Option<String<R::A>>, Trouble> {
    let mut end = format!(in rt.alloc(); "{name}")?;
    'links: for _ in 0..MOST_LINKS + 1 {
        if !is_link(rt, end.as_str()) {
            return Ok(Some(end));
        }
        end = behind_link(rt, end.as_str())?;
    }
    Ok(None)
}

/// The name under which a file is found that is written through this link. What the link leads to has to have that name: a file that has
/// none any more, which the system still shows by a link, has not.
pub(crate) fn end_of<R: Files + Alloc>(rt: &R, link: &str) -> Result<String<R::A>, Trouble> {
    let Some(end) = behind_links(rt, link)? else {
        return Err(no_end());
    };
    if let Ok(found) = fs::metadata(rt, link) {
        return match fs::metadata(rt, end.as_str()) {
            Ok(other) if is_one_node(&found, &other) => Ok(end),
            _ => Err(no_end()),
        };
    }
    Ok(end)
}

/// Whether two names that lead to nothing would be those of one file. Where a link's end cannot be read they are taken for one. Links without
/// an end are no file's: the system neither reads nor makes one through them.
fn may_be_one_place<R: Files + Alloc>(rt: &R, name: &str, other: &str) -> bool {
    if !is_link(rt, name) && !is_link(rt, other) {
        return is_one_place(rt, name, other);
    }
    match (behind_links(rt, name), behind_links(rt, other)) {
        (Ok(Some(end)), Ok(Some(other_end))) => {
            is_one_place(rt, end.as_str(), other_end.as_str())
        }
        (Ok(_), Ok(_)) => false,
        _ => true,
    }
}

/// Whether two names that nothing has would be those of one file: the same name in one folder.
fn is_one_place<R: Files>(rt: &R, name: &str, other: &str) -> bool {
    let (folder, last) = parts_of(name);
    let (other_folder, other_last) = parts_of(other);
    if last != other_last {
        return false;
    }
    match (fs::metadata(rt, folder), fs::metadata(rt, other_folder)) {
        (Ok(found), Ok(other_found)) => is_one_node(&found, &other_found),
        _ => false,
    }
}

/// Whether two different names are those of one ordinary file, or would be if it were made.
pub(crate) fn is_one_file<R: Files + Alloc>(rt: &R, name: &str, other: &str) -> bool {
    match (fs::metadata(rt, name), fs::metadata(rt, other)) {
        (Ok(found), Ok(other_found)) => found.is_file() && is_one_node(&found, &other_found),
        (Err(_), Err(_)) => may_be_one_place(rt, name, other),
        _ => false,
    }
}
