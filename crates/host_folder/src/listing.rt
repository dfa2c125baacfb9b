//! The leaves below a folder.
use crate::folders::Folders;
use host_files::{Entries, FolderId, PlaceKind, foreign, kind_of_entry, push_entries};
use host_trait::stage_path;
use std::alloc::{AllocError, Global};
use std::fs::DirEntry;
use std::io;
use std::rt::Files;
use switch_names::{Listed, NameFault, Path};

/// The path that a name in the tree gives. A name that is none of a path is a fault.
fn path_of(path: Result<Path, NameFault>) -> io::Result<Path> {
    match path {
        Ok(path) => Ok(path),
        Err(NameFault::Memory) => Err(io::Error::from(AllocError)),
        Err(_) => Err(foreign("not a name of a path")),
    }
}

/// A folder that is still to be walked through.
#[derive(Drop)]
struct Below {
    path: Path,
    id: FolderId,
}

/// A walk through the folders below a path.
struct Walk {
    folder: Path,
    folders: Listed<Below>,
    leaves: Listed<Path>,
}

/// One call: a derived drop is proved anew in each function that lets one go.
impl Drop for Walk {
    fn drop(self) {
        let Walk {
            folder: _,
            folders: _,
            leaves: _,
        } = self;
    }
}

/// What an entry of the folder names is added to the folders or the leaves.
impl Entries for Walk {
    fn push_entry<R: Files + AllocGlobal>(
        &mut self,
        alloc: Global,
        entry: &DirEntry<R>,
    ) -> io::Result<()> {
        let found = kind_of_entry(entry)?;
        let path = path_of(self.folder.join(alloc, entry.file_name()))?;
        let pushed = match found {
            PlaceKind::Folder(id) => self.folders.push(Below { path, id }),
            _ => self.leaves.push(path),
        };
        Ok(pushed?)
    }
}

impl Walk {
    /// A walk that begins at a path.
    fn new(alloc: Global, under: &Path) -> Result<Walk, AllocError> {
        Ok(Walk {
            folder: under.copy(alloc)?,
            folders: Listed::new(alloc),
            leaves: Listed::new(alloc),
        })
    }

    /// Adds what stands in the folder to the folders and the leaves.
    fn push_folder<R: Files + AllocGlobal + Clone + Drop>(
        &mut self,
        rt: &R,
        alloc: Global,
        tree: &mut Folders,
        id: FolderId,
    ) -> io::Result<()> {
        let place = tree.place(alloc, &self.folder)?;
        tree.remember(rt, alloc, place.as_str(), id)?;
        push_entries(rt, alloc, self, place.as_str())
    }

    /// Goes on to a folder that is still to be walked through, and says which one it is.
    fn go_on(&mut self) -> Option<FolderId> {
        let count = self.folders.as_slice().len();
        if count == 0 {
            return None;
        }
        let below = self.folders.remove(count - 1);
        self.folder = below.path;
        Some(below.id)
    }

    /// Adds the leaves below the folder.
    fn push_below<R: Files + AllocGlobal + Clone + Drop>(
        &mut self,
        rt: &R,
        alloc: Global,
        tree: &mut Folders,
        first: FolderId,
    ) -> io::Result<()> {
        let mut next = Some(first);
        for _ in 0..u64::MAX {
            let Some(id) = next else {
                break;
            };
            self.push_folder(rt, alloc, tree, id)?;
            next = self.go_on();
        }
        Ok(())
    }

    /// Whether a leaf other than the one at a path was found.
    fn has_other(&self, path: &Path) -> bool {
        self.leaves.as_slice().iter().any(|leaf| *leaf != *path)
    }

    /// Whether a leaf other than the stage's stands below the folder. It looks no further than for the first one.
    fn finds_leaf<R: Files + AllocGlobal + Clone + Drop>(
        &mut self,
        rt: &R,
        alloc: Global,
        tree: &mut Folders,
        first: FolderId,
    ) -> io::Result<bool> {
        let stage = stage_path(alloc)?;
        let mut next = Some(first);
        for _ in 0..u64::MAX {
            let Some(id) = next else {
                break;
            };
            self.push_folder(rt, alloc, tree, id)?;
            if self.has_other(&stage) {
                return Ok(true);
            }
            next = self.go_on();
        }
        Ok(false)
    }

    /// Adds the leaf at a place alone, or those below it.
    fn push_under<R: Files + AllocGlobal + Clone + Drop>(
        &mut self,
        rt: &R,
        alloc: Global,
        tree: &mut Folders,
        place: &str,
    ) -> io::Result<()> {
        match tree.find(rt, alloc, place)? {
            PlaceKind::Nothing => Ok(()),
            PlaceKind::File(_) => Ok(self.leaves.push(self.folder.copy(alloc)?)?),
            PlaceKind::Folder(id) => self.push_below(rt, alloc, tree, id),
        }
    }

    /// The leaves that were found, in byte order, without that of the stage.
    fn sorted(self, alloc: Global) -> io::Result<Listed<Path>> {
        let stage = stage_path(alloc)?;
        let Walk {
            folder: _,
            folders: _,
            leaves,
        } = self;
        let mut paths = leaves.into_vec();
        paths.sort()?;
        paths.retain(|path| *path != stage);
        Ok(Listed::from_vec(paths))
    }
}

/// The paths of the leaves at or below a path, in byte order, without the stage.
pub fn list_leaves<R: Files + AllocGlobal + Clone + Drop>(
    rt: &R,
    alloc: Global,
    tree: &mut Folders,
    under: &Path,
) -> io::Result<Listed<Path>> {
    let place = tree.place(alloc, under)?;
    let mut walk = Walk::new(alloc, under)?;
    walk.push_under(rt, alloc, tree, place.as_str())?;
    walk.sorted(alloc)
}

/// The first names in a tree, whether or not a leaf stands there.
struct Names {
    names: Listed<Path>,
}

/// One call: a derived drop is proved anew in each function that lets one go.
impl Drop for Names {
    fn drop(self) {
        let Names { names: _ } = self;
    }
}

impl Names {
    /// The names in byte order.
    fn sorted(self) -> io::Result<Vec<Path>> {
        let Names { names } = self;
        let mut names = names.into_vec();
        names.sort()?;
        Ok(names)
    }
}

/// What an entry of the tree's folder names is added, whatever it is.
impl Entries for Names {
    fn push_entry<R: Files + AllocGlobal>(
        &mut self,
        alloc: Global,
        entry: &DirEntry<R>,
    ) -> io::Result<()> {
        kind_of_entry(entry)?;
        Ok(
            self.names
                .push(path_of(Path::parse(alloc, entry.file_name()))?)?,
        )
    }
}

/// The names in the tree's folder, in byte order.
fn first_names<R: Files + AllocGlobal + Clone + Drop>(
    rt: &R,
    alloc: Global,
    place: &str,
) -> io::Result<Vec<Path>> {
    let mut found = Names {
        names: Listed::new(alloc),
    };
    push_entries(rt, alloc, &mut found, place)?;
    found.sorted()
}

/// Whether a leaf stands at or below a first name.
fn has_leaf<R: Files + AllocGlobal + Clone + Drop>(
    rt: &R,
    alloc: Global,
    tree: &mut Folders,
    name: &Path,
) -> io::Result<bool> {
    let place = tree.place(alloc, name)?;
    match tree.find(rt, alloc, place.as_str())? {
        PlaceKind::Nothing => Ok(false),
        PlaceKind::File(_) => Ok(true),
        PlaceKind::Folder(id) => Walk::new(alloc, name)?.finds_leaf(rt, alloc, tree, id),
    }
}

/// The first names at or below which a leaf stands, other than the stage's, in byte order.
pub fn list_tops<R: Files + AllocGlobal + Clone + Drop>(
    rt: &R,
    alloc: Global,
    tree: &mut Folders,
) -> io::Result<Listed<Path>> {
    let Some(place) = tree.own_place(rt, alloc)? else {
        return Ok(Listed::new(alloc));
    };
    let names = first_names(rt, alloc, place.as_str())?;
    let mut tops = Listed::new(alloc);
    for name in names {
        if has_leaf(rt, alloc, tree, &name)? {
            tops.push(name)?;
        }
    }
    Ok(tops)
}
