//! Files of a real folder that are read ahead.

use crate::made::begin;
use cv_base::{Kind, ObjectId, RepoPath};
use cv_ports::Folder;
use cv_real::SystemFolder;
use std::alloc::Global;
use std::fs;
use std::process::Abort;
use std::test::Fail;

// The sizes of the files, one after another.
const SIZES: [usize; 5] = [0, 1, 10_240, 65_536, 65_537];

// The first of 70 files, which are more than threads take at once, and the one that stands in a directory between the others.
const FIRST: usize = 10;

const COUNT: usize = 70;

const INNER: usize = 35;

// The path of the file of this number.
fn path_of(alloc: Global, number: usize) -> Result<String, Fail> {
    if number == INNER {
        return Ok(format!(in alloc; "/34-/{number}")?);
    }
    Ok(format!(in alloc; "/{number}")?)
}

// The bytes of the file of this number: so many of it that no two files are alike but empty ones.
fn bytes_of(alloc: Global, number: usize) -> Result<Vec<u8>, Fail> {
    Ok(vec![in alloc; u8::try_from(number)?; SIZES[number % 5]]?)
}

fn make_files(rt: &HostRuntime) -> Result<(), Fail> {
    begin(rt, "ahead")?;
    fs::create_dir(rt, "ahead/34-")?;
    for number in FIRST..FIRST + COUNT {
        let bytes = bytes_of(rt.alloc(), number)?;
        let path = path_of(rt.alloc(), number)?;
        let file = format!(in rt.alloc(); "ahead{path}")?;
        fs::write(rt, file.as_str(), bytes.as_slice())?;
    }
    Ok(())
}

// How many items the directory at a path has.
fn listed<F: Folder>(alloc: Global, folder: &mut F, path: &str) -> Result<usize, Fail> {
    let path = RepoPath::read(alloc, path)?;
    Ok(folder.list(alloc, &path)?.as_slice().len())
}

// Whether the file of this number is given as it was written, under its id.
fn is_given<F: Folder>(alloc: Global, folder: &mut F, number: usize) -> Result<bool, Fail> {
    let path = path_of(alloc, number)?;
    let Ok(object) = folder.read(alloc, &RepoPath::read(alloc, path.as_str())?) else {
        return Ok(false);
    };
    let bytes = bytes_of(alloc, number)?;
    let id = ObjectId::of(Kind::Plain, bytes.as_slice());
    Ok(object.bytes.as_slice() == bytes.as_slice() && object.id == id)
}

// Reads the files from a listing on, so far apart, each but the last. That one was removed behind the listing, and no thread has
// it: it is in the fifth group of its directory, and the fourth is the last that is begun before a file is read.
fn assert_files<F: Folder>(
    rt: &impl Abort,
    alloc: Global,
    folder: &mut F,
    step: u8,
) -> Result<(), Fail> {
    for place in 0..COUNT {
        let number = FIRST + place * usize::from(step) % COUNT;
        if number == INNER {
            assert!(rt; listed(alloc, folder, "/34-")? == 1);
        }
        let given = is_given(alloc, folder, number)?;
        assert!(rt; given == (number + 1 < FIRST + COUNT), "{number}");
    }
    Ok(())
}

// In the order of the walk, and out of it.
#[test]
fn files_are_read_ahead_as_they_stand(rt: HostRuntime) -> Result<(), Fail> {
    make_files(&rt)?;
    let mut folder = SystemFolder::new(rt);
    assert!(rt; folder.root(rt.alloc(), "ahead").is_ok());
    for (step, items) in [(1, COUNT), (37, COUNT - 1)] {
        assert!(rt; listed(rt.alloc(), &mut folder, "")? == items);
        let _ = fs::remove_file(&rt, "ahead/79");
        assert_files(&rt, rt.alloc(), &mut folder, step)?;
    }
    Ok(())
}
